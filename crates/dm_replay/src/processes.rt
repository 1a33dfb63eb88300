//! Processes, taken out to be served and put back.
ghost use Rattle.std.specs.Prelude.{◌≡◌, ◌<◌, ◌+◌, IfOk, OnOk, Some, is_some};
ghost use Rattle.dm_replay.specs.Living.{HasPlace, at, life_of};
ghost use Rattle.dm_process.specs.declared.process.Status.TheVariants as status;
ghost use Rattle.dm_onekernel.specs.declared.boot.Boot.{Boot};
ghost use Rattle.dm_onekernel.specs.Kernel.{Ended, with_process};
ghost use Rattle.dm_onekernel.specs.Plain.{plain_process, plain_status};
ghost use Rattle.dm_onekernel.specs.Step.{at_hand, goes_on, if_ready, next_trap, running, why_ended};
ghost use Rattle.dm_replay.specs.Answers.{Gives};
ghost use Rattle.dm_replay.specs.Sound.{IsFit, IsSound};
ghost use Rattle.dm_replay.specs.State.{hand_of, one_kernel, without_process};
ghost use Rattle.dm_replay.specs.Steps.{Becomes, Stays};
ghost use Rattle.dm_replay.specs.Traps.{IsLawfulTrap, IsSaidTrap, plain_trap};

use crate::kernel::{HERE, Kernel, MOST_LABELS, Refusal};
use crate::life::Life;
use dm_link::Pid;
use dm_onekernel::Why;
use dm_process::{Process, Status};
use dm_processor::{Fault, Stepped, step};
use dm_syscall::{Called, call};

/// What the next instruction of a process came to, which isn't plain.
#[derive(Drop)]
pub enum Trap {
    /// It asked for the call of a number, which came to this.
    Call { number: u8, called: Called },
    /// It couldn't be performed.
    Fault(Fault),
}

/// Whether a process executes: it is ready and not stopped.
fn executes(process: &Process) -> bool
    ensures { result ≡ is_some (if_ready (plain_process process.now) (plain_status process.now.status)) }
{
    matches!(process.status, Status::Ready) && !process.stopped
}

impl Kernel {
    /// Whether a process lives, and follows no request to move.
    pub(crate) fn is_at_hand(&self, pid: Pid) -> bool
        ensures { result ≡ is_some (hand_of self.now pid) }
    {
        self.processes.alive(pid).is_some() && !self.notes.contains_key(&pid)
    }

    /// Whether a process has ended.
    pub(crate) fn has_ended(&self, pid: Pid) -> bool
        ensures { result ≡ is_some (why_ended (life_of (at self.now.processes pid))) }
    {
        matches!(self.processes.get(pid), Some(Life::Ended(_)))
    }

    /// Takes out a living process that follows no request to move.
    pub(crate) fn take_at_hand(&mut self, pid: Pid) -> Result<Process, Refusal>
        ensures gives { (b : Boot) → Gives result (λ x. Some (plain_process x)) (at_hand (one_kernel b self.old) pid) }
        ensures out { OnOk result (Becomes self.old self.new (λ s. without_process s pid)) }
        ensures place { OnOk result (HasPlace self.new.processes pid) }
        ensures fit { (n : _) → IsSound n self.old → IfOk result (IsFit n pid) }
        ensures sound { (n : _) → IsSound n self.old → OnOk result (IsSound n self.new) }
        ensures stays { OnOk result (Stays self.old self.new) }
    {
        if !self.is_at_hand(pid) {
            return Err(Refusal::NoStep);
        }
        Ok(self.processes.take_alive(pid))
    }

    /// Puts a process back that was taken out.
    pub(crate) fn put_back(&mut self, pid: Pid, process: Process)
        requires { HasPlace self.old.processes pid }
        ensures state { Becomes self.old self.new (λ s. goes_on s pid (plain_process process)) }
        ensures sound { (n : _) → IsSound n self.old → IsFit n pid process → IsSound n self.new }
        ensures stays { Stays self.old self.new }
    {
        self.processes.put_back(pid, Life::Alive(process));
    }

    /// Ends a process that was taken out.
    pub(crate) fn put_ended(&mut self, pid: Pid, why: Why)
        requires { HasPlace self.old.processes pid }
        ensures state { Becomes self.old self.new (λ s. with_process s pid (Ended why)) }
        ensures sound { (n : _) → IsSound n self.old → IsSound n self.new }
        ensures stays { Stays self.old self.new }
    {
        self.processes.put_back(pid, Life::Ended(why));
    }

    /// Takes out a process that executes.
    pub(crate) fn take_running(&mut self, pid: Pid) -> Result<Process, Refusal>
        ensures gives { (b : Boot) → Gives result (λ x. Some (plain_process x)) (running (one_kernel b self.old) pid) }
        ensures ready { IfOk result (λ x. x.status ≡ status.Ready) }
        ensures out { OnOk result (Becomes self.old self.new (λ s. without_process s pid)) }
        ensures place { OnOk result (HasPlace self.new.processes pid) }
        ensures fit { (n : _) → IsSound n self.old → IfOk result (IsFit n pid) }
        ensures sound { (n : _) → IsSound n self.old → OnOk result (IsSound n self.new) }
        ensures stays { OnOk result (Stays self.old self.new) }
    {
        let process = self.take_at_hand(pid)?;
        if executes(&process) {
            Ok(process)
        } else {
            Err(Refusal::NoStep)
        }
    }

    /// Takes out a process that executes, whose next instruction isn't plain, and performs that.
    pub(crate) fn take_trapped(&mut self, pid: Pid) -> Result<(Process, Trap), Refusal>
        requires sound { IsSound self.old.labels self.old }
        requires room { self.old.labels < MOST_LABELS }
        ensures gives { (b : Boot) → Gives result (λ r. plain_trap r.0 r.1) (next_trap (one_kernel b self.old) pid) }
        ensures out { OnOk result (Becomes self.old self.new (λ s. without_process s pid)) }
        ensures place { OnOk result (HasPlace self.new.processes pid) }
        ensures fit { IfOk result (λ r. IsFit (self.old.labels + 1) pid r.0) }
        ensures lawful { IfOk result (λ r. IsLawfulTrap r.1) }
        ensures said { IfOk result (λ r. IsSaidTrap r.0 r.1) }
        ensures sound { (n : _) → IsSound n self.old → OnOk result (IsSound n self.new) }
        ensures stays { OnOk result (Stays self.old self.new) }
    {
        let mut process = self.take_running(pid)?;
        match step(&mut process.regs, &mut process.memory) {
            Stepped::Plain => Err(Refusal::NoStep),
            Stepped::Call(number) => {
                let called = call(self.alloc, &mut process, number, HERE)?;
                Ok((process, Trap::Call { number, called }))
            }
            Stepped::Fault(fault) => Ok((process, Trap::Fault(fault))),
        }
    }
}
