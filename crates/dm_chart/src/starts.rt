//! The processes of a boot file: their numbers, and their names as a picture has them.
ghost use Rattle.std.specs.Prelude.{◌≡◌, ◌++◌, IfOk, OnOk, codes, map, [], ◌∷◌};
ghost use Rattle.std.specs.List.{concat};
ghost use Rattle.dm_text.specs.Words.{pid_word};
ghost use Rattle.dm_chart.specs.Picture.{boot_pids, name_drawn, names_drawn};

use crate::frame::name_at;
use crate::xml::{Attribute, put_bytes, put_closing, put_opening, put_words};
use dm_link::Pid;
use dm_lists::Items;
use dm_memory::NoMemory;
use dm_onekernel::boot::{Boot, BootProcess};
use dm_text::word::Word::{Name, Number, Process};
use std::alloc::Global;

/// The processes that are there from the start.
#[derive(Drop)]
pub struct Starts {
    /// Their numbers, in the order of the boot file.
    pub pids: Items<Pid>,
    /// The text of their names, as they stand in a picture.
    pub names: Vec<u8>,
}

/// The processes of a boot file.
pub fn starts_of(alloc: Global, boot: &Boot) -> Result<Starts, NoMemory>
    ensures pids { IfOk result (λ starts. starts.pids ≡ boot_pids boot.now) }
    ensures names { IfOk result (λ starts. starts.names.items ≡ names_drawn boot.now.processes) }
{
    let processes = boot.processes.as_slice();
    let mut starts = Starts {
        pids: Items::new(alloc),
        names: Vec::new(alloc),
    };
    push_pids(&mut starts.pids, processes)?;
    put_names(&mut starts.names, processes)?;
    Ok(starts)
}

/// Adds the numbers of processes.
#[tactic(auto, using(crate::proofs::Pieces::map_lemmas))]
fn push_pids(pids: &mut Items<Pid>, processes: &[BootProcess]) -> Result<(), NoMemory>
    ensures { OnOk result (pids.new ≡ pids.old ++ map (λ p. p.pid) processes.now) }
{
    for process in processes {
        pids.push(process.pid)?;
    }
    Ok(())
}

/// Writes the names of processes.
#[tactic(auto, using(crate::proofs::Pieces::name_lemmas))]
fn put_names(into: &mut Vec<u8>, processes: &[BootProcess]) -> Result<(), NoMemory>
    ensures { OnOk result (into.new.items ≡ into.old.items ++ names_drawn processes.now) }
{
    for (i, process) in processes.iter().enumerate() {
        put_name(into, i, process)?;
    }
    Ok(())
}

/// Writes the name of process i.
#[tactic(auto, unfolding(crate::specs::Picture::name_drawn, crate::specs::Drawn::written, crate::specs::Xml::element_around))]
fn put_name(into: &mut Vec<u8>, i: usize, process: &BootProcess) -> Result<(), NoMemory>
    ensures { OnOk result (into.new.items ≡ into.old.items ++ name_drawn i process.now) }
{
    let p = name_at(i);
    put_opening(
        into,
        "text",
        &[
            Attribute("class", Name("q")),
            Attribute("x", Number(p.x)),
            Attribute("y", Number(p.y)),
        ],
    )?;
    put_number_and_name(into, process)?;
    put_closing(into, "text")
}

/// Writes the number of a process and its name.
fn put_number_and_name(into: &mut Vec<u8>, process: &BootProcess) -> Result<(), NoMemory>
    ensures { OnOk result (into.new.items ≡ into.old.items ++ concat (pid_word process.now.pid ∷ codes " " ∷ process.now.name ∷ [])) }
{
    put_words(into, &[Process(process.pid), Name(" ")])?;
    put_bytes(into, process.name.as_slice())
}
