//! What processes do: they execute, call, fault, and take messages that they wait for.
ghost use Rattle.std.specs.Prelude.{◌≡◌, ◌+◌, ◌<◌, IfOk, IfSome, None, OnOk, Some, if◌then◌else◌, is_some, true};
ghost use Rattle.dm_link.specs.Names.{pid_eq};
ghost use Rattle.dm_link.specs.declared.Pid.{Pid};
ghost use Rattle.dm_message.specs.Ids.{id_eq};
ghost use Rattle.dm_message.specs.Lawful.{IsLawfulMessage};
ghost use Rattle.dm_message.specs.Plain.{plain_message, plain_what};
ghost use Rattle.dm_message.specs.declared.MsgId.{MsgId};
ghost use Rattle.dm_onekernel.specs.Codes.{reply_eq, why_eq};
ghost use Rattle.dm_onekernel.specs.Kernel.{Ended, OneKernel, with_process, with_sent};
ghost use Rattle.dm_onekernel.specs.Options.{bind, when};
ghost use Rattle.dm_onekernel.specs.Plain.{plain_process};
ghost use Rattle.dm_onekernel.specs.Step.{completing, ends, goes_on, outputs, plain_steps, replies, sends, step, waits};
ghost use Rattle.dm_onekernel.specs.declared.boot.Boot.{Boot};
ghost use Rattle.dm_onekernel.specs.declared.label.Label.TheVariants as label_;
ghost use Rattle.dm_process.specs.declared.process.Process.{Process};
ghost use Rattle.dm_replay.specs.Living.{HasPlace};
ghost use Rattle.dm_syscall.specs.Completing.{plain_completed};
ghost use Rattle.dm_replay.specs.Answers.{Gives};
ghost use Rattle.dm_replay.specs.Sound.{IsFit, IsSound};
ghost use Rattle.dm_replay.specs.State.{one_kernel, without_process};
ghost use Rattle.dm_replay.specs.Steps.{Becomes, Stays, Steps};
ghost use Rattle.dm_replay.specs.Tests.{place_in};
ghost use Rattle.dm_replay.specs.Traps.{IsLawfulTrap, IsSaidTrap, plain_trap};

use crate::kernel::{Kernel, MOST_LABELS, Refusal};
use crate::processes::Trap;
use dm_link::Pid;
use dm_memory::Parcel;
use dm_message::{Message, MsgId};
use dm_onekernel::{Reply, Why};
use dm_process::{Mailbox, Process, Service};
use dm_processor::{Memory, Regs, Stepped, step};
use dm_syscall::{Called, Completed, complete_receive};

/// Executes so many plain instructions; whether they are.
fn execute(regs: &mut Regs, memory: &mut Memory, count: u32) -> bool
    ensures { plain_steps count (record { regs = regs.old; bytes = memory.old }) ≡ (if result then Some (record { regs = regs.new; bytes = memory.new }) else None) }
{
    for done in 0..count {
        match step(regs, memory) {
            Stepped::Plain => {}
            _ => return false,
        }
    }
    true
}

/// Whether the two replies are one.
fn same_reply(a: Reply, b: Reply) -> bool
    ensures { result ≡ reply_eq a b }
{
    a.code() == b.code()
}

/// Whether the two reasons are one.
fn same_why(a: Why, b: Why) -> bool
    ensures { result ≡ why_eq a b }
{
    a.code() == b.code()
}

/// Where the message stands that is taken, if one is.
fn place_of(service: Option<Service>) -> Option<usize>
    ensures { result ≡ place_in service }
{
    match service {
        Some(Service::Receive { place, .. }) => Some(place),
        _ => None,
    }
}

/// Whether a message is for this process.
fn is_for(message: &Message, pid: Pid) -> bool
    ensures { result ≡ pid_eq message.now.to.pid pid }
{
    message.to.pid == pid
}

/// Whether a message has this name.
fn is_named(message: &Message, id: MsgId) -> bool
    ensures { result ≡ id_eq id message.now.id }
{
    id == message.id
}

impl Trap {
    /// Whether it is a call of this number that gave this reply.
    fn replied(&self, number: u8, reply: Reply) -> bool
        ensures { (s : OneKernel) (p : Pid) (x : Process) → bind (plain_trap x self.now) (replies s p number reply) ≡ when result (goes_on s p (plain_process x)) }
    {
        match self {
            Trap::Call {
                number: called,
                called: Called::Replied(given),
            } => number == *called && same_reply(reply, *given),
            _ => false,
        }
    }

    /// Whether a receive begins.
    fn waits(&self) -> bool
        ensures { (s : OneKernel) (p : Pid) (x : Process) → bind (plain_trap x self.now) (waits s p) ≡ when result (goes_on s p (plain_process x)) }
    {
        matches!(
            self,
            Trap::Call {
                called: Called::Waits,
                ..
            }
        )
    }

    /// Whether this word is put out.
    fn puts_out(&self, word: u32) -> bool
        ensures { (s : OneKernel) (p : Pid) (x : Process) → bind (plain_trap x self.now) (outputs s p word) ≡ when result (goes_on s p (plain_process x)) }
    {
        match self {
            Trap::Call {
                called: Called::Out(out),
                ..
            } => word == *out,
            _ => false,
        }
    }

    /// Whether the process ends for this reason.
    fn ends(&self, why: Why) -> bool
        ensures { (s : OneKernel) (p : Pid) (x : Process) → bind (plain_trap x self.now) (ends s p why) ≡ when result (with_process s p (Ended why)) }
    {
        match self {
            Trap::Call {
                called: Called::Ended(because),
                ..
            } => same_why(why, *because),
            Trap::Fault(fault) => same_why(why, Why::Fault(*fault)),
            _ => false,
        }
    }

    /// The message that goes out.
    fn into_message(self) -> Option<Message>
        ensures sent { (s : OneKernel) (p : Pid) (x : Process) (id : MsgId) → bind (plain_trap x self) (sends s p id) ≡
            bind result (λ m. bind (plain_message m) (λ w. when (id_eq id w.id) (with_sent (goes_on s p (plain_process x)) (Some w)))) }
        ensures lawful { IsLawfulTrap self → IfSome result IsLawfulMessage }
        ensures said { (x : Process) → IsSaidTrap x self → IfSome result (λ m. is_some (plain_what m.what) ≡ true) }
    {
        match self {
            Trap::Call {
                called: Called::Sent(message),
                ..
            } => Some(message.into_inner()),
            Trap::Call {
                called: Called::Moving(message),
                ..
            } => Some(message.into_inner()),
            _ => None,
        }
    }
}

impl Kernel {
    /// The process executed so many plain instructions.
    pub(crate) fn run(&mut self, pid: Pid, count: u32) -> Result<(), Refusal>
        requires sound { IsSound self.old.labels self.old }
        ensures steps { Steps self.old result self.new (λ s. step s (label_.Ran pid count)) }
        ensures sound { OnOk result (IsSound (self.old.labels + 1) self.new) }
        ensures stays { OnOk result (Stays self.old self.new) }
    {
        let mut process = self.take_running(pid)?;
        if !execute(&mut process.regs, &mut process.memory, count) {
            return Err(Refusal::NoStep);
        }
        self.put_back(pid, process);
        Ok(())
    }

    /// Puts a process back that goes on so, if it does.
    fn put_back_if(&mut self, holds: bool, pid: Pid, process: Process) -> Result<(), Refusal>
        requires { HasPlace self.old.processes pid }
        ensures steps { Steps self.old result self.new (λ s. when holds (goes_on s pid (plain_process process))) }
        ensures sound { (n : _) → IsSound n self.old → IsFit n pid process → OnOk result (IsSound n self.new) }
        ensures stays { OnOk result (Stays self.old self.new) }
    {
        if !holds {
            return Err(Refusal::NoStep);
        }
        self.put_back(pid, process);
        Ok(())
    }

    /// A call that sent nothing gave a reply.
    pub(crate) fn reply(&mut self, pid: Pid, number: u8, reply: Reply) -> Result<(), Refusal>
        requires sound { IsSound self.old.labels self.old }
        requires room { self.old.labels < MOST_LABELS }
        ensures steps { Steps self.old result self.new (λ s. step s (label_.Call pid number reply)) }
        ensures sound { OnOk result (IsSound (self.old.labels + 1) self.new) }
        ensures stays { OnOk result (Stays self.old self.new) }
    {
        let (process, trap) = self.take_trapped(pid)?;
        self.put_back_if(trap.replied(number, reply), pid, process)
    }

    /// The process waits for a message from now on.
    pub(crate) fn wait(&mut self, pid: Pid) -> Result<(), Refusal>
        requires sound { IsSound self.old.labels self.old }
        requires room { self.old.labels < MOST_LABELS }
        ensures steps { Steps self.old result self.new (λ s. step s (label_.Wait pid)) }
        ensures sound { OnOk result (IsSound (self.old.labels + 1) self.new) }
        ensures stays { OnOk result (Stays self.old self.new) }
    {
        let (process, trap) = self.take_trapped(pid)?;
        self.put_back_if(trap.waits(), pid, process)
    }

    /// The process put out a word.
    pub(crate) fn put_out(&mut self, pid: Pid, word: u32) -> Result<(), Refusal>
        requires sound { IsSound self.old.labels self.old }
        requires room { self.old.labels < MOST_LABELS }
        ensures steps { Steps self.old result self.new (λ s. step s (label_.Out pid word)) }
        ensures sound { OnOk result (IsSound (self.old.labels + 1) self.new) }
        ensures stays { OnOk result (Stays self.old self.new) }
    {
        let (process, trap) = self.take_trapped(pid)?;
        self.put_back_if(trap.puts_out(word), pid, process)
    }

    /// The process ended, by a call or a fault.
    pub(crate) fn end(&mut self, pid: Pid, why: Why) -> Result<(), Refusal>
        requires sound { IsSound self.old.labels self.old }
        requires room { self.old.labels < MOST_LABELS }
        ensures steps { Steps self.old result self.new (λ s. step s (label_.End pid why)) }
        ensures sound { OnOk result (IsSound (self.old.labels + 1) self.new) }
        ensures stays { OnOk result (Stays self.old self.new) }
    {
        let (_process, trap) = self.take_trapped(pid)?;
        if !trap.ends(why) {
            return Err(Refusal::NoStep);
        }
        self.put_ended(pid, why);
        Ok(())
    }

    /// The process sent a message.
    pub(crate) fn send(&mut self, pid: Pid, id: MsgId) -> Result<(), Refusal>
        requires sound { IsSound self.old.labels self.old }
        requires room { self.old.labels < MOST_LABELS }
        ensures steps { Steps self.old result self.new (λ s. step s (label_.Send pid id)) }
        ensures sound { OnOk result (IsSound (self.old.labels + 1) self.new) }
        ensures stays { OnOk result (Stays self.old self.new) }
    {
        let (process, trap) = self.take_trapped(pid)?;
        let Some(message) = trap.into_message() else {
            return Err(Refusal::NoStep);
        };
        if !is_named(&message, id) {
            return Err(Refusal::NoStep);
        }
        self.put_back(pid, process);
        self.put_message(message)
    }

    /// Takes out a process that waits, and lets a message of the bag come to its receive; what comes of that.
    fn complete(&mut self, pid: Pid, id: MsgId) -> Result<(Process, Completed), Refusal>
        requires sound { IsSound self.old.labels self.old }
        ensures gives { (b : Boot) → Gives result (λ r. Some (plain_completed r.1 r.0)) (completing (one_kernel b self.old) pid id) }
        ensures out { OnOk result (Becomes self.old self.new (λ s. without_process s pid)) }
        ensures place { OnOk result (HasPlace self.new.processes pid) }
        ensures fit { IfOk result (λ r. IsFit self.old.labels pid r.0) }
        ensures sound { OnOk result (IsSound self.old.labels self.new) }
        ensures stays { OnOk result (Stays self.old self.new) }
    {
        let mut process = self.take_at_hand(pid)?;
        let message = self.copy_of(id)?;
        if !is_for(&message, pid) {
            return Err(Refusal::NoStep);
        }
        process.queue = Mailbox::new(self.alloc);
        let parcel = Parcel::new(self.alloc, message)?;
        process.queue.push(parcel)?;
        let Some(place) = place_of(process.service()) else {
            return Err(Refusal::NoStep);
        };
        let completed = complete_receive(&mut process, place);
        Ok((process, completed))
    }

    /// The process took a message.
    pub(crate) fn receive(&mut self, pid: Pid, id: MsgId) -> Result<(), Refusal>
        requires sound { IsSound self.old.labels self.old }
        requires room { self.old.labels < MOST_LABELS }
        ensures steps { Steps self.old result self.new (λ s. step s (label_.Receive pid id)) }
        ensures sound { OnOk result (IsSound (self.old.labels + 1) self.new) }
        ensures stays { OnOk result (Stays self.old self.new) }
    {
        let (process, completed) = self.complete(pid, id)?;
        match completed {
            Completed::Received(_) => {
                self.forget(id);
                self.put_back(pid, process);
                Ok(())
            }
            Completed::Refused(_) => Err(Refusal::NoStep),
        }
    }

    /// The process was refused a message, which stays.
    pub(crate) fn refuse(&mut self, pid: Pid, id: MsgId, reply: Reply) -> Result<(), Refusal>
        requires sound { IsSound self.old.labels self.old }
        requires room { self.old.labels < MOST_LABELS }
        ensures steps { Steps self.old result self.new (λ s. step s (label_.Refuse pid id reply)) }
        ensures sound { OnOk result (IsSound (self.old.labels + 1) self.new) }
        ensures stays { OnOk result (Stays self.old self.new) }
    {
        let (process, completed) = self.complete(pid, id)?;
        match completed {
            Completed::Refused(given) => self.put_back_if(same_reply(reply, given), pid, process),
            Completed::Received(_) => Err(Refusal::NoStep),
        }
    }
}
