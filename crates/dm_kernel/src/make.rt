//! How a process is made of an image.
ghost use Rattle.dm_resident.specs.declared.Resident.TheVariants as resident;
ghost use Rattle.std.specs.Prelude.{◌≡◌, ◌+◌, ◌<◌, ◌≤◌, [], ◌∷◌, ◌++◌, IfOk, OnOk, Some, length, slice_get, true};
ghost use Rattle.dm_records.specs.Records.{at, with_record};
ghost use Rattle.dm_records.specs.declared.record.Record.TheVariants.{Here};
ghost use Rattle.dm_onekernel.specs.Boot.{image_is_valid, images_are_valid};
ghost use Rattle.dm_datamove.specs.Serving.{answer};
ghost use Rattle.dm_message.specs.declared.What.TheVariants as what_;
ghost use Rattle.dm_onekernel.specs.declared.label.Label.TheVariants as label_;
ghost use Rattle.dm_kernel.specs.Handle.{has_room, makes, next_pid};
ghost use Rattle.dm_kernel.specs.Meets.{Answers, IsIn, kernel_state};
ghost use Rattle.dm_kernel.specs.State.{says, with_known};

use crate::kernel::Kernel;
use crate::part::Part;
use dm_datamove::answer;
use dm_line::line::Line;
use dm_link::{FIRST_NUMBER, Link, Pid};
use dm_memory::{NoMemory, Parcel, list_of};
use dm_message::{Message, What};
use dm_migrate::{Arriving, Leaving};
use dm_onekernel::{Boot, BootImage, Label, child_of};
use dm_process::Process;
use dm_records::Record;
use dm_resident::Resident;
use dm_room::Lacks;

impl Kernel {
    /// Makes a process of an image with links, as a message asks, or says what is free.
    pub(crate) fn make(
        &mut self,
        boot: &Boot,
        message: &Message,
        image: &BootImage,
        links: &[Link],
    ) -> Result<Vec<Part>, NoMemory>
        requires image { image_is_valid image.now ≡ true }
        requires links { length links.now ≤ 3 }
        requires counts { FIRST_NUMBER + self.old.made < u32.MAX }
        ensures { Answers result self.new (makes boot.now (kernel_state self.old) message.now links.now image.now (has_room self.old.room image.now.blocks)) }
    {
        match self.room.reserve(image.blocks) {
            Ok(()) => {
                let pid = self.next_pid();
                self.stand(pid, child_of(self.alloc, boot, pid, image, links)?)?;
                self.made(message, pid)
            }
            Err(lacks) => self.no_space(message, lacks),
        }
    }

    /// The name of the next process that is made here.
    fn next_pid(&self) -> Pid
        requires { FIRST_NUMBER + self.now.made < u32.MAX }
        ensures { result ≡ next_pid (kernel_state self.now) }
    {
        Pid {
            home: self.here,
            num: FIRST_NUMBER + self.made,
        }
    }

    /// Puts a process that begins into the records and at the ring's back, and counts it.
    pub(crate) fn stand(&mut self, pid: Pid, process: Process) -> Result<(), NoMemory>
        requires { self.old.made < u32.MAX }
        ensures { OnOk result (IsIn self.new (record (kernel_state self.old)
            { records = with_record (at self.old.records) pid (Here (resident.Process process)); ring = self.old.ring ++ pid ∷ []; made = self.old.made + 1 })) }
    {
        self.ring.push(pid)?;
        self.set_known(pid, Record::Here(Resident::Process(process)))?;
        self.made += 1;
        Ok(())
    }

    /// Sets what is known of a process or a server.
    pub(crate) fn set_known(
        &mut self,
        pid: Pid,
        known: Record<Resident, Leaving, Arriving>,
    ) -> Result<(), NoMemory>
        ensures { OnOk result (IsIn self.new (with_known (kernel_state self.old) pid known)) }
    {
        match self.records.set(pid, known) {
            Ok(()) => Ok(()),
            Err((_, e)) => Err(e),
        }
    }

    /// What is said of a process that is made, and the answer to who asked for it.
    fn made(&self, message: &Message, pid: Pid) -> Result<Vec<Part>, NoMemory>
        ensures { IfOk result (λ parts. parts.items ≡
            says (label_.Created message.now.id pid) ∷ Part.Routes (answer self.now.here 0 message.now (what_.Created pid)) ∷ []) }
    {
        let said = Line::Label(Label::Created {
            id: message.id,
            pid,
        });
        let answer = answer(message, self.here, 0, What::Created { pid });
        let answer = Parcel::new(self.alloc, answer)?;
        list_of(self.alloc, [Part::Says(said), Part::Routes(answer)])
    }

    /// What is said where there is no room, and the answer to who asked.
    fn no_space(&self, message: &Message, lacks: Lacks) -> Result<Vec<Part>, NoMemory>
        ensures { IfOk result (λ parts. parts.items ≡
            says (label_.NoSpace message.now.id lacks.free_slots lacks.free_blocks) ∷ Part.Routes (answer self.now.here 0 message.now what_.NoRoom) ∷ []) }
    {
        let Lacks {
            free_slots,
            free_blocks,
        } = lacks;
        let said = Line::Label(Label::NoSpace {
            id: message.id,
            free_slots,
            free_blocks,
        });
        let answer = answer(message, self.here, 0, What::NoRoom);
        let answer = Parcel::new(self.alloc, answer)?;
        list_of(self.alloc, [Part::Says(said), Part::Routes(answer)])
    }
}

/// An image of the boot file, by its place.
pub(crate) fn image_of(boot: &Boot, place: u16) -> &BootImage
    requires images { images_are_valid boot.now.images ≡ true }
    requires image { place < length boot.now.images }
    ensures at { slice_get boot.now.images place ≡ Some result.now }
    ensures fits { image_is_valid result.now ≡ true }
{
    &boot.images.as_slice()[usize::from(place)]
}
