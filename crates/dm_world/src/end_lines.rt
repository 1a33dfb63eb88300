//! The lines at the end of a run.
ghost use Rattle.std.specs.Prelude.{◌≡◌, ◌<◌, ◌≤◌, ◌+◌, ◌^◌, ◌++◌, IfOk, OnOk, length};
ghost use Rattle.dm_records.specs.Records.{at};
ghost use Rattle.dm_onekernel.specs.Boot.{IsValid};
ghost use Rattle.dm_resident.specs.Residents as residents;
ghost use Rattle.dm_node.specs.Meets as node;
ghost use Rattle.dm_node.specs.Meets.{HasStreams};
ghost use Rattle.dm_line.specs.Ends.{joined_below, home_with, list_line};
ghost use Rattle.dm_line.specs.declared.end_line.EndLine.TheVariants as end;
ghost use Rattle.dm_world.specs.Ends.{MayEnd, SaysSome, awaited_lines, end_lines, first_awaited, first_had, homes_with, living_lines, names_of, process_lines, queue_of, record_lines, record_queue, resident_lines, stream_line};
ghost use Rattle.dm_world.specs.Meets.{IsWorld, world_state};

use crate::end_messages::{ids_of, ids_of_inbox, untaken_ids};
use crate::end_process::{say_alive, say_arriving};
use crate::end_servers::say_server;
use crate::world::World;
use dm_line::end_line::{EndLine, Standing};
use dm_link::{FIRST_NUMBER, Pid};
use dm_lists::Parcels;
use dm_memory::{NoMemory, push};
use dm_message::Message;
use dm_node::Node;
use dm_onekernel::Boot;
use dm_records::Record;
use dm_resident::Resident;
use std::alloc::Global;

impl World {
    /// The lines at the end of a run: where everything stands then.
    pub fn end_lines(&self) -> Result<Vec<EndLine>, NoMemory>
        requires world { IsWorld self.now }
        requires may { MayEnd (length self.now.boot.machines) (world_state self.now) }
        ensures { IfOk result (λ lines. lines.items ≡ end_lines self.now.boot (world_state self.now)) }
    {
        let mut lines = Vec::new(self.alloc);
        push(&mut lines, EndLine::Final)?;
        self.say_processes(&mut lines)?;
        self.say_servers(&mut lines)?;
        self.say_queues(&mut lines)?;
        self.say_holding(&mut lines)?;
        self.say_inboxes(&mut lines)?;
        self.say_streams(&mut lines)?;
        push(&mut lines, EndLine::Groups(self.groups))?;
        Ok(lines)
    }

    /// A machine.
    pub fn machine(&self, m: u8) -> &Node
        requires world { IsWorld self.now }
        requires within { m < length self.now.boot.machines }
        ensures state { node.node_state result.now ≡ (world_state self.now).nodes m }
        ensures streams { HasStreams result.now }
    {
        &self.nodes[usize::from(m)]
    }

    /// How many processes a machine made.
    pub fn made(&self, home: u8) -> u32
        requires world { IsWorld self.now }
        requires may { MayEnd (length self.now.boot.machines) (world_state self.now) }
        requires within { home < length self.now.boot.machines }
        ensures all { result ≡ ((world_state self.now).nodes home).kernel.made }
        ensures numbered { FIRST_NUMBER + result ≤ 2 ^ 32 }
    {
        self.machine(home).kernel().count_made()
    }

    /// The lines of each process that was ever made, by home and by number.
    fn say_processes(&self, lines: &mut Vec<EndLine>) -> Result<(), NoMemory>
        requires world { IsWorld self.now }
        requires may { MayEnd (length self.now.boot.machines) (world_state self.now) }
        ensures { OnOk result (lines.new.items ≡ lines.old.items ++
            homes_with (world_state self.now) (process_lines self.now.boot (world_state self.now)) (length self.now.boot.machines)) }
    {
        for home in 0..self.machines() {
            self.say_home(home, lines)?;
        }
        Ok(())
    }

    /// The lines of each process that a machine made.
    fn say_home(&self, home: u8, lines: &mut Vec<EndLine>) -> Result<(), NoMemory>
        requires world { IsWorld self.now }
        requires may { MayEnd (length self.now.boot.machines) (world_state self.now) }
        requires within { home < length self.now.boot.machines }
        ensures { OnOk result (lines.new.items ≡ lines.old.items ++
            home_with (process_lines self.now.boot (world_state self.now)) home ((world_state self.now).nodes home).kernel.made) }
    {
        for place in 0..self.made(home) {
            let pid = Pid {
                home,
                num: FIRST_NUMBER + place,
            };
            self.say_process(pid, lines)?;
        }
        Ok(())
    }

    /// The lines of a process: why it ended, or where it is.
    #[tactic(auto, unfolding(crate::specs::Meets::ended_in))]
    fn say_process(&self, pid: Pid, lines: &mut Vec<EndLine>) -> Result<(), NoMemory>
        requires { IsWorld self.now }
        ensures { OnOk result (lines.new.items ≡ lines.old.items ++ process_lines self.now.boot (world_state self.now) pid) }
    {
        match self.ended.get(&pid) {
            Some(why) => push(lines, EndLine::Ended { pid, why: *why }),
            None => self.say_living(pid, lines),
        }
    }

    /// The lines of a process or a server, by the first machine that has it, or else by the first that awaits it.
    pub(crate) fn say_living(&self, pid: Pid, lines: &mut Vec<EndLine>) -> Result<(), NoMemory>
        requires { IsWorld self.now }
        ensures { OnOk result (lines.new.items ≡ lines.old.items ++ living_lines self.now.boot (world_state self.now) pid) }
    {
        if self.say_had(pid, lines)? {
            return Ok(());
        }
        self.say_awaited(pid, lines)?;
        Ok(())
    }

    /// The lines of a process or a server, by the first machine that has it; whether there is one.
    fn say_had(&self, pid: Pid, lines: &mut Vec<EndLine>) -> Result<bool, NoMemory>
        requires { IsWorld self.now }
        ensures { IfOk result (λ said. SaysSome said lines.old.items lines.new.items (first_had (length self.now.boot.machines) (world_state self.now) pid)) }
    {
        for m in 0..self.machines() {
            if say_known(self.machine(m), m, pid, lines)? {
                return Ok(true);
            }
        }
        Ok(false)
    }

    /// The lines of a process or a server, by the first machine that awaits it; whether there is one.
    fn say_awaited(&self, pid: Pid, lines: &mut Vec<EndLine>) -> Result<bool, NoMemory>
        requires { IsWorld self.now }
        ensures { IfOk result (λ said. SaysSome said lines.old.items lines.new.items
            (first_awaited self.now.boot (world_state self.now) pid)) }
    {
        for m in 0..self.machines() {
            if say_expected(self.machine(m), m, &self.boot, pid, lines)? {
                return Ok(true);
            }
        }
        Ok(false)
    }

    /// The queue of each process that was ever made, by home and by number.
    fn say_queues(&self, lines: &mut Vec<EndLine>) -> Result<(), NoMemory>
        requires world { IsWorld self.now }
        requires may { MayEnd (length self.now.boot.machines) (world_state self.now) }
        ensures { OnOk result (lines.new.items ≡ lines.old.items ++
            homes_with (world_state self.now) (queue_of (length self.now.boot.machines) (world_state self.now)) (length self.now.boot.machines)) }
    {
        for home in 0..self.machines() {
            self.say_home_queues(home, lines)?;
        }
        Ok(())
    }

    /// The queue of each process that a machine made.
    fn say_home_queues(&self, home: u8, lines: &mut Vec<EndLine>) -> Result<(), NoMemory>
        requires world { IsWorld self.now }
        requires may { MayEnd (length self.now.boot.machines) (world_state self.now) }
        requires within { home < length self.now.boot.machines }
        ensures { OnOk result (lines.new.items ≡ lines.old.items ++
            home_with (queue_of (length self.now.boot.machines) (world_state self.now)) home ((world_state self.now).nodes home).kernel.made) }
    {
        for place in 0..self.made(home) {
            let pid = Pid {
                home,
                num: FIRST_NUMBER + place,
            };
            self.say_queue(pid, lines)?;
        }
        Ok(())
    }

    /// The queue of a process, on the machine where it is.
    fn say_queue(&self, pid: Pid, lines: &mut Vec<EndLine>) -> Result<(), NoMemory>
        requires { IsWorld self.now }
        ensures { OnOk result (lines.new.items ≡ lines.old.items ++ queue_of (length self.now.boot.machines) (world_state self.now) pid) }
    {
        for m in 0..self.machines() {
            if say_known_queue(self.machine(m), pid, lines)? {
                return Ok(());
            }
        }
        Ok(())
    }

    /// The inbox of each machine.
    fn say_inboxes(&self, lines: &mut Vec<EndLine>) -> Result<(), NoMemory>
        requires { IsWorld self.now }
        ensures { OnOk result (lines.new.items ≡ lines.old.items ++
            joined_below (λ m. list_line (end.Inbox m) (names_of ((world_state self.now).nodes m).kernel.inbox)) (length self.now.boot.machines)) }
    {
        for m in 0..self.machines() {
            say_inbox(self.machine(m), m, lines)?;
        }
        Ok(())
    }

    /// What was given to each stream and not taken yet.
    fn say_streams(&self, lines: &mut Vec<EndLine>) -> Result<(), NoMemory>
        requires { IsWorld self.now }
        ensures { OnOk result (lines.new.items ≡ lines.old.items ++
            joined_below (λ a. joined_below (λ c. stream_line (world_state self.now) a c) (length self.now.boot.machines)) (length self.now.boot.machines)) }
    {
        for from in 0..self.machines() {
            self.say_streams_from(from, lines)?;
        }
        Ok(())
    }

    /// What a machine gave to its streams and was not taken yet.
    fn say_streams_from(&self, from: u8, lines: &mut Vec<EndLine>) -> Result<(), NoMemory>
        requires world { IsWorld self.now }
        requires within { from < length self.now.boot.machines }
        ensures { OnOk result (lines.new.items ≡ lines.old.items ++
            joined_below (λ c. stream_line (world_state self.now) from c) (length self.now.boot.machines)) }
    {
        for to in 0..self.machines() {
            self.say_stream(from, to, lines)?;
        }
        Ok(())
    }

    /// What was given to a stream and not taken yet.
    fn say_stream(&self, from: u8, to: u8, lines: &mut Vec<EndLine>) -> Result<(), NoMemory>
        requires world { IsWorld self.now }
        requires from { from < length self.now.boot.machines }
        requires to { to < length self.now.boot.machines }
        ensures { OnOk result (lines.new.items ≡ lines.old.items ++ stream_line (world_state self.now) from to) }
    {
        if from == to {
            return Ok(());
        }
        let ids = untaken_ids(self.machine(from), self.machine(to), from, to)?;
        if ids.len() > 0 {
            push(lines, EndLine::Stream { from, to, ids })?;
        }
        Ok(())
    }
}

/// The lines of a process or a server on machine `m`, if it says something of it; whether it does.
fn say_known(node: &Node, m: u8, pid: Pid, lines: &mut Vec<EndLine>) -> Result<bool, NoMemory>
    ensures { IfOk result (λ said. SaysSome said lines.old.items lines.new.items (record_lines m pid (at node.now.kernel.records pid))) }
{
    match node.kernel().records().get(pid) {
        Some(Record::Here(resident)) => {
            say_resident(m, pid, Standing::Here, resident, lines)?;
            Ok(true)
        }
        Some(Record::Frozen(leaving)) => {
            say_resident(m, pid, Standing::Leaving, leaving.resident(), lines)?;
            Ok(true)
        }
        _ => Ok(false),
    }
}

/// The lines of a process or a server that machine `m` has.
pub(crate) fn say_resident(
    m: u8,
    pid: Pid,
    standing: Standing,
    resident: &Resident,
    lines: &mut Vec<EndLine>,
) -> Result<(), NoMemory>
    ensures { OnOk result (lines.new.items ≡ lines.old.items ++ resident_lines m pid standing resident.now) }
{
    match resident {
        Resident::Process(process) => say_alive(m, pid, standing, process, lines),
        Resident::Board(board) => say_server(m, pid, standing, board.sent(), lines),
        Resident::Manager(manager) => say_server(m, pid, standing, manager.sent(), lines),
    }
}

/// The queue of a process, if it is on this machine; whether it is.
fn say_known_queue(node: &Node, pid: Pid, lines: &mut Vec<EndLine>) -> Result<bool, NoMemory>
    ensures { IfOk result (λ said. SaysSome said lines.old.items lines.new.items (record_queue pid (at node.now.kernel.records pid))) }
{
    match node.kernel().records().get(pid) {
        Some(Record::Here(resident)) => {
            say_waiting(node.alloc(), pid, resident, lines)?;
            Ok(true)
        }
        Some(Record::Frozen(leaving)) => {
            say_waiting(node.alloc(), pid, leaving.resident(), lines)?;
            Ok(true)
        }
        _ => Ok(false),
    }
}

/// The messages that wait for a process; a server has no queue.
fn say_waiting(
    alloc: Global,
    pid: Pid,
    resident: &Resident,
    lines: &mut Vec<EndLine>,
) -> Result<(), NoMemory>
    ensures { OnOk result (lines.new.items ≡ lines.old.items ++ list_line (end.Queue pid) (names_of (residents.queue_of resident.now))) }
{
    match resident.process() {
        Some(process) => {
            say_messages(alloc, pid, process.queue.messages(), lines)?;
            Ok(())
        }
        None => Ok(()),
    }
}

/// The queue of a process.
fn say_messages(
    alloc: Global,
    pid: Pid,
    queue: &Parcels<Message>,
    lines: &mut Vec<EndLine>,
) -> Result<(), NoMemory>
    ensures { OnOk result (lines.new.items ≡ lines.old.items ++ list_line (end.Queue pid) (names_of queue.now)) }
{
    let ids = ids_of(alloc, queue)?;
    if ids.len() > 0 {
        push(lines, EndLine::Queue { pid, ids })?;
    }
    Ok(())
}

/// The lines of a process or a server that comes to this machine; whether there are any.
fn say_expected(
    node: &Node,
    m: u8,
    boot: &Boot,
    pid: Pid,
    lines: &mut Vec<EndLine>,
) -> Result<bool, NoMemory>
    requires { IsValid boot.now }
    ensures { IfOk result (λ said. SaysSome said lines.old.items lines.new.items (awaited_lines boot.now m pid (at node.now.kernel.records pid))) }
{
    match node.kernel().records().get(pid) {
        Some(Record::Incoming(arriving)) => {
            say_arriving(node.alloc(), m, boot, pid, arriving, lines)
        }
        _ => Ok(false),
    }
}

/// The inbox of a machine.
fn say_inbox(node: &Node, machine: u8, lines: &mut Vec<EndLine>) -> Result<(), NoMemory>
    ensures { OnOk result (lines.new.items ≡ lines.old.items ++ list_line (end.Inbox machine) (names_of node.now.kernel.inbox)) }
{
    let ids = ids_of_inbox(node.alloc(), node.kernel().inbox())?;
    if ids.len() > 0 {
        push(lines, EndLine::Inbox { machine, ids })?;
    }
    Ok(())
}
