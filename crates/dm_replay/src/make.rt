//! How processes are made: those of the boot file, and those that are asked for.
ghost use Rattle.std.specs.Prelude.{◌≡◌, ◌+◌, ◌<◌, ◌≤◌, ◌&&◌, ◌==◌, OnOk, Some, length, option_map, true};
ghost use Rattle.dm_link.specs.Lawful.{IsLawfulEnclosed};
ghost use Rattle.dm_link.specs.Plain.{plain_link};
ghost use Rattle.dm_onekernel.specs.Boot.{IsValid, first_number, image_is_valid, slots_of};
ghost use Rattle.dm_onekernel.specs.Service.{with_created};
ghost use Rattle.dm_onekernel.specs.Step.{step};
ghost use Rattle.dm_onekernel.specs.declared.label.Label.TheVariants as label_;
ghost use Rattle.std.specs.List.{All};
ghost use Rattle.std.specs.Prelude.{map, slice_index};
ghost use Rattle.dm_link.specs.Names.{pid_eq, pid_of};
ghost use Rattle.dm_replay.specs.Answers.{Gives};
ghost use Rattle.dm_replay.specs.Begun.{asked_in, is_kernel};
ghost use Rattle.dm_replay.specs.Sound.{IsSound, first_count};
ghost use Rattle.dm_replay.specs.State.{one_kernel};
ghost use Rattle.dm_replay.specs.Steps.{Stays};
ghost use Rattle.dm_replay.specs.Tests.{is_create_what};

use crate::kernel::{HERE, Kernel, MOST_LABELS, Refusal};
use crate::life::Life;
use dm_datamove::answer;
use dm_link::{FIRST_NUMBER, Link, MACHINES, Pid};
use dm_memory::NoMemory;
use dm_message::{MsgId, What};
use dm_onekernel::{Boot, BootImage, child_of};

/// Whether it is the kernel of a machine.
fn is_kernel(boot: &Boot, pid: Pid) -> bool
    ensures { result ≡ is_kernel boot.now pid }
{
    pid.num == 0 && usize::from(pid.home) < boot.machines.as_slice().len()
}

/// Whether a message asks for a process.
fn asks_to_make(what: &What) -> bool
    ensures { result ≡ is_create_what what.now }
{
    matches!(what, What::Create { .. })
}

/// The image and the links that a request to make a process names, if it is one and the image is there.
fn asked_for<'a>(boot: &'a Boot, what: &'a What) -> Option<(&'a BootImage, &'a [Link])>
    ensures { option_map (λ r. (r.0.now, r.1.now)) result ≡ asked_in boot.now.images what.now }
{
    match what {
        What::Create { image, links } => {
            match boot.images.as_slice().get(usize::from(*image)) {
                Some(image) => Some((image, links.as_slice())),
                None => None,
            }
        }
        _ => None,
    }
}

impl Kernel {
    /// A process begins, and counts among those of its home.
    pub(crate) fn stand(
        &mut self,
        boot: &Boot,
        child: Pid,
        image: &BootImage,
        links: &[Link],
    ) -> Result<(), NoMemory>
        requires home { child.home < MACHINES }
        requires counts { slice_index self.old.made child.home < u32.MAX }
        requires image { image_is_valid image.now ≡ true }
        requires links { length links.now ≤ slots_of boot.now.format }
        ensures state { OnOk result (one_kernel boot.now self.new ≡ with_created (one_kernel boot.now self.old) child image.now (map plain_link links.now)) }
        ensures sound { (n : _) → IsSound n self.old → All IsLawfulEnclosed links.now → slice_index self.old.made child.home < first_count + n → OnOk result (IsSound n self.new) }
        ensures stays { OnOk result (Stays self.old self.new) }
    {
        let process = child_of(self.alloc, boot, child, image, links)?;
        self.processes.set(child, Life::Alive(process))?;
        self.made[usize::from(child.home)] += 1;
        Ok(())
    }

    /// A process was made, as a message asked.
    pub(crate) fn create(&mut self, boot: &Boot, id: MsgId, child: Pid) -> Result<(), Refusal>
        requires valid { IsValid boot.now }
        requires sound { IsSound self.old.labels self.old }
        requires room { self.old.labels < MOST_LABELS }
        ensures gives { Gives result (λ _. Some (one_kernel boot.now self.new)) (step (one_kernel boot.now self.old) (label_.Created id child)) }
        ensures sound { OnOk result (IsSound (self.old.labels + 1) self.new) }
        ensures stays { OnOk result (Stays self.old self.new) }
    {
        let message = self.take_message(id)?;
        let Some((image, links)) = asked_for(boot, &message.what) else {
            return Err(Refusal::NoStep);
        };
        if !self.makes(boot, message.to.pid, child) {
            return Err(Refusal::NoStep);
        }
        self.stand(boot, child, image, links)?;
        self.put_message(answer(&message, HERE, 0, What::Created { pid: child }))
    }

    /// Whether it is the kernel of a machine, and this is the name of the next process that it makes.
    fn makes(&self, boot: &Boot, kernel: Pid, child: Pid) -> bool
        requires valid { IsValid boot.now }
        requires sound { IsSound self.now.labels self.now }
        requires room { self.now.labels < MOST_LABELS }
        ensures { result ≡ is_kernel boot.now kernel && pid_eq child (pid_of kernel.home (first_number + slice_index self.now.made kernel.home)) }
    {
        if !is_kernel(boot, kernel) {
            return false;
        }
        child == self.next_pid(kernel.home)
    }

    /// The name of the next process that a machine makes.
    fn next_pid(&self, home: u8) -> Pid
        requires home { home < MACHINES }
        requires counts { FIRST_NUMBER + slice_index self.now.made home < u32.MAX }
        ensures { result ≡ pid_of home (first_number + slice_index self.now.made home) }
    {
        Pid {
            home,
            num: FIRST_NUMBER + self.made[usize::from(home)],
        }
    }

    /// A process could not be made.
    pub(crate) fn no_space(&mut self, boot: &Boot, id: MsgId) -> Result<(), Refusal>
        requires valid { IsValid boot.now }
        requires sound { IsSound self.old.labels self.old }
        requires room { self.old.labels < MOST_LABELS }
        ensures gives { Gives result (λ _. Some (one_kernel boot.now self.new)) (step (one_kernel boot.now self.old) (label_.NoSpace id 0 0)) }
        ensures sound { OnOk result (IsSound (self.old.labels + 1) self.new) }
        ensures stays { OnOk result (Stays self.old self.new) }
    {
        let message = self.take_message(id)?;
        if !asks_to_make(&message.what) {
            return Err(Refusal::NoStep);
        }
        if !is_kernel(boot, message.to.pid) {
            return Err(Refusal::NoStep);
        }
        self.put_message(answer(&message, HERE, 0, What::NoRoom))
    }
}
