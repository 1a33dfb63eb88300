//! The messages that machines hold at the end of a run for processes and servers that leave or come.
ghost use Rattle.std.specs.Prelude.{◌≡◌, ◌<◌, ◌++◌, OnOk, length};
ghost use Rattle.dm_records.specs.Records.{at};
ghost use Rattle.dm_line.specs.Ends.{joined_below, home_with, list_line};
ghost use Rattle.dm_line.specs.declared.end_line.EndLine.TheVariants as end;
ghost use Rattle.dm_world.specs.Ends.{MayEnd, held_for, held_line, held_lines, names_of};
ghost use Rattle.dm_world.specs.Meets.{IsWorld, world_state};

use crate::end_messages::ids_of_held;
use crate::world::World;
use dm_line::end_line::EndLine;
use dm_link::{FIRST_NUMBER, MANAGER, Pid, SWITCHBOARD};
use dm_memory::{NoMemory, push};
use dm_message::Message;
use dm_node::Node;
use dm_records::Record;
use std::alloc::Global;

impl World {
    /// What each machine holds.
    pub(crate) fn say_holding(&self, lines: &mut Vec<EndLine>) -> Result<(), NoMemory>
        requires world { IsWorld self.now }
        requires may { MayEnd (length self.now.boot.machines) (world_state self.now) }
        ensures { OnOk result (lines.new.items ≡ lines.old.items ++
            joined_below (held_lines (length self.now.boot.machines) (world_state self.now)) (length self.now.boot.machines)) }
    {
        for m in 0..self.machines() {
            self.say_holding_on(m, lines)?;
        }
        Ok(())
    }

    /// What machine `m` holds: for the servers, and by the process's home and number.
    fn say_holding_on(&self, m: u8, lines: &mut Vec<EndLine>) -> Result<(), NoMemory>
        requires world { IsWorld self.now }
        requires may { MayEnd (length self.now.boot.machines) (world_state self.now) }
        requires within { m < length self.now.boot.machines }
        ensures { OnOk result (lines.new.items ≡ lines.old.items ++
            held_lines (length self.now.boot.machines) (world_state self.now) m) }
    {
        self.say_held(m, SWITCHBOARD, lines)?;
        self.say_held(m, MANAGER, lines)?;
        for home in 0..self.machines() {
            self.say_holding_of(m, home, lines)?;
        }
        Ok(())
    }

    /// What machine `m` holds for processes of a home.
    fn say_holding_of(&self, m: u8, home: u8, lines: &mut Vec<EndLine>) -> Result<(), NoMemory>
        requires world { IsWorld self.now }
        requires may { MayEnd (length self.now.boot.machines) (world_state self.now) }
        requires within { m < length self.now.boot.machines }
        requires home { home < length self.now.boot.machines }
        ensures { OnOk result (lines.new.items ≡ lines.old.items ++
            home_with (held_line (world_state self.now) m) home ((world_state self.now).nodes home).kernel.made) }
    {
        for place in 0..self.made(home) {
            let pid = Pid {
                home,
                num: FIRST_NUMBER + place,
            };
            self.say_held(m, pid, lines)?;
        }
        Ok(())
    }

    /// What machine `m` holds for a process or a server.
    fn say_held(&self, m: u8, pid: Pid, lines: &mut Vec<EndLine>) -> Result<(), NoMemory>
        requires world { IsWorld self.now }
        requires within { m < length self.now.boot.machines }
        ensures { OnOk result (lines.new.items ≡ lines.old.items ++ held_line (world_state self.now) m pid) }
    {
        say_held_here(self.machine(m), m, pid, lines)
    }
}

/// What a machine holds for a process or a server.
fn say_held_here(
    node: &Node,
    machine: u8,
    pid: Pid,
    lines: &mut Vec<EndLine>,
) -> Result<(), NoMemory>
    ensures { OnOk result (lines.new.items ≡ lines.old.items ++ list_line (end.Holding machine pid) (names_of (held_for (at node.now.kernel.records pid)))) }
{
    match node.kernel().records().get(pid) {
        Some(Record::Frozen(leaving)) => {
            say_messages(node.alloc(), machine, pid, leaving.held(), lines)
        }
        Some(Record::Incoming(arriving)) => {
            say_messages(node.alloc(), machine, pid, arriving.held(), lines)
        }
        _ => Ok(()),
    }
}

/// Messages that are held, if there are any.
fn say_messages(
    alloc: Global,
    machine: u8,
    pid: Pid,
    held: &[Message],
    lines: &mut Vec<EndLine>,
) -> Result<(), NoMemory>
    ensures { OnOk result (lines.new.items ≡ lines.old.items ++ list_line (end.Holding machine pid) (names_of held.now)) }
{
    let ids = ids_of_held(alloc, held)?;
    if ids.len() > 0 {
        push(lines, EndLine::Holding { machine, pid, ids })?;
    }
    Ok(())
}
