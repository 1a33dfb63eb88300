//! Writing the names that the boot file gives its processes: the lines `name`.
ghost use Rattle.std.specs.Prelude.{◌≡◌, ◌++◌, IfOk, OnOk};
ghost use Rattle.dm_look.specs.Names.{name_line, names_if, text_of_names};

use dm_memory::{NoMemory, extend_from_slice, push};
use dm_onekernel::Boot;
use dm_onekernel::boot::BootProcess;
use dm_text::word::Word::Process;
use dm_text::word::put_words;
use std::alloc::Global;

/// The names of the processes of a boot file, where they are asked for: a line for each.
pub fn names_if(alloc: Global, names: bool, boot: &Boot) -> Result<Vec<u8>, NoMemory>
    ensures { IfOk result (λ text. text.items ≡ names_if names boot.now) }
{
    let mut text = Vec::new(alloc);
    if names {
        write_names(boot.processes.as_slice(), &mut text)?;
    }
    Ok(text)
}

/// Writes a line for each process.
#[tactic(auto, using(dm_chart::proofs::Pieces::flat_lemmas))]
fn write_names(processes: &[BootProcess], into: &mut Vec<u8>) -> Result<(), NoMemory>
    ensures { OnOk result (into.new.items ≡ into.old.items ++ text_of_names processes.now) }
{
    for process in processes {
        write_name(process, into)?;
    }
    Ok(())
}

/// Writes the line of a process: its number, and its name.
fn write_name(process: &BootProcess, into: &mut Vec<u8>) -> Result<(), NoMemory>
    ensures { OnOk result (into.new.items ≡ into.old.items ++ name_line process.now) }
{
    extend_from_slice(into, b"name")?;
    put_words(into, &[Process(process.pid)])?;
    push(into, b' ')?;
    extend_from_slice(into, process.name.as_slice())?;
    push(into, b'\n')?;
    Ok(())
}
