//! The lines of the servers at the end of a run.
ghost use Rattle.std.specs.Prelude.{◌≡◌, ◌<◌, ◌≤◌, ◌^◌, [], ◌∷◌, ◌++◌, IfOk, OnOk, Some, false, length, option_map};
ghost use Rattle.std.specs.Option.{IfSome};
ghost use Rattle.dm_records.specs.Records.{at};
ghost use Rattle.dm_onekernel.specs.Boot.{IsValid};
ghost use Rattle.dm_switchboard.specs.Lawful.{IsLawfulBoard};
ghost use Rattle.dm_migrate.specs.Arrival.{is_process_coming, restarted};
ghost use Rattle.dm_line.specs.declared.end_line.EndLine.TheVariants as end;
ghost use Rattle.dm_world.specs.Ends.{HasPlainEnd, KnownHasPlainEnd, MayEnd, SaysSome, awaited_kept, child_lines, first_says, kept_lines, lists_of, name_lines, pending_lines, record_kept, sent_lines, server_come, server_lines};
ghost use Rattle.dm_world.specs.Meets.{IsWorld, world_state};

use crate::world::World;
use arrayvec::ArrayVec;
use dm_line::end_line::{EndLine, Standing};
use dm_link::{Addr, Link, MANAGER, Pid, SWITCHBOARD};
use dm_memory::{NoMemory, push};
use dm_message::MsgId;
use dm_migrate::{Arriving, Wanted};
use dm_node::Node;
use dm_onekernel::Boot;
use dm_procman::Pending;
use dm_records::Record;
use dm_resident::Resident;
use dm_switchboard::Switchboard;

impl World {
    /// The lines of the servers: how many messages each has sent and where it is, then what the switchboard keeps, and the manager.
    pub(crate) fn say_servers(&self, lines: &mut Vec<EndLine>) -> Result<(), NoMemory>
        requires world { IsWorld self.now }
        requires may { MayEnd (length self.now.boot.machines) (world_state self.now) }
        ensures { OnOk result (lines.new.items ≡ lines.old.items ++ server_lines self.now.boot (world_state self.now)) }
    {
        self.say_living(SWITCHBOARD, lines)?;
        self.say_living(MANAGER, lines)?;
        self.say_kept(SWITCHBOARD, lines)?;
        self.say_kept(MANAGER, lines)?;
        Ok(())
    }

    /// What a server keeps, by the first machine that has it, or else by the first that awaits it.
    fn say_kept(&self, pid: Pid, lines: &mut Vec<EndLine>) -> Result<(), NoMemory>
        requires world { IsWorld self.now }
        requires may { MayEnd (length self.now.boot.machines) (world_state self.now) }
        ensures { OnOk result (lines.new.items ≡ lines.old.items ++ kept_lines self.now.boot (world_state self.now) pid) }
    {
        if self.say_kept_had(pid, lines)? {
            return Ok(());
        }
        self.say_kept_awaited(pid, lines)?;
        Ok(())
    }

    /// What a server keeps, by the first machine that has it; whether there is one.
    fn say_kept_had(&self, pid: Pid, lines: &mut Vec<EndLine>) -> Result<bool, NoMemory>
        requires world { IsWorld self.now }
        requires may { MayEnd (length self.now.boot.machines) (world_state self.now) }
        ensures { IfOk result (λ said. SaysSome said lines.old.items lines.new.items
            (first_says (λ m. record_kept (((world_state self.now).nodes m).kernel.records pid)) (length self.now.boot.machines))) }
    {
        for m in 0..self.machines() {
            if say_kept_here(self.machine(m), pid, lines)? {
                return Ok(true);
            }
        }
        Ok(false)
    }

    /// What a server keeps, by the first machine that awaits it; whether there is one.
    fn say_kept_awaited(&self, pid: Pid, lines: &mut Vec<EndLine>) -> Result<bool, NoMemory>
        requires { IsWorld self.now }
        ensures { IfOk result (λ said. SaysSome said lines.old.items lines.new.items
            (first_says (λ m. awaited_kept self.now.boot (((world_state self.now).nodes m).kernel.records pid)) (length self.now.boot.machines))) }
    {
        for m in 0..self.machines() {
            if say_kept_coming(self.machine(m), &self.boot, pid, lines)? {
                return Ok(true);
            }
        }
        Ok(false)
    }
}

/// How many messages a server has sent, and where it stands, unless it is here on machine 0.
pub fn say_server(
    m: u8,
    pid: Pid,
    standing: Standing,
    sent: u32,
    lines: &mut Vec<EndLine>,
) -> Result<(), NoMemory>
    ensures { OnOk result (lines.new.items ≡ lines.old.items ++ sent_lines m pid standing sent) }
{
    push(lines, EndLine::Server { pid, sent })?;
    if standing.is_at_home(m) {
        return Ok(());
    }
    push(
        lines,
        EndLine::Place {
            pid,
            at: m,
            standing,
        },
    )?;
    Ok(())
}

/// What a server keeps, if it is on this machine; whether it is.
fn say_kept_here(node: &Node, pid: Pid, lines: &mut Vec<EndLine>) -> Result<bool, NoMemory>
    requires { IfSome (at node.now.kernel.records pid) KnownHasPlainEnd }
    ensures { IfOk result (λ said. SaysSome said lines.old.items lines.new.items (record_kept (at node.now.kernel.records pid))) }
{
    match node.kernel().records().get(pid) {
        Some(Record::Here(resident)) => {
            say_lists(resident, lines)?;
            Ok(true)
        }
        Some(Record::Frozen(leaving)) => {
            say_lists(leaving.resident(), lines)?;
            Ok(true)
        }
        _ => Ok(false),
    }
}

/// What a server keeps that comes to this machine, if all of it has come; whether it has.
fn say_kept_coming(
    node: &Node,
    boot: &Boot,
    pid: Pid,
    lines: &mut Vec<EndLine>,
) -> Result<bool, NoMemory>
    requires { IsValid boot.now }
    ensures { IfOk result (λ said. SaysSome said lines.old.items lines.new.items (awaited_kept boot.now (at node.now.kernel.records pid))) }
{
    match node.kernel().records().get(pid) {
        Some(Record::Incoming(arriving)) => say_kept_whole(boot, arriving, lines),
        _ => Ok(false),
    }
}

/// What a server keeps that comes, if all of it has come; whether it has.
fn say_kept_whole(
    boot: &Boot,
    arriving: &Arriving,
    lines: &mut Vec<EndLine>,
) -> Result<bool, NoMemory>
    requires { IsValid boot.now }
    ensures { IfOk result (λ said. SaysSome said lines.old.items lines.new.items (option_map lists_of (server_come boot.now arriving.now arriving.now.wanted))) }
{
    match arriving.wanted() {
        Wanted::Nothing => {
            if arriving.is_process() {
                return Ok(false);
            }
            let server = server_of(boot, arriving)?;
            say_lists(&server, lines)?;
            Ok(true)
        }
        Wanted::Chunk(_) => Ok(false),
        Wanted::Block(_) => Ok(false),
    }
}

/// The server that has come whole to a machine of the system of a boot file.
pub fn server_of(boot: &Boot, arriving: &Arriving) -> Result<Resident, NoMemory>
    requires boot { IsValid boot.now }
    requires whole { arriving.now.wanted ≡ Wanted.Nothing }
    requires server { is_process_coming arriving.now ≡ false }
    ensures exact { IfOk result (λ r. restarted (length boot.now.machines) (length boot.now.images) arriving.now ≡ Some r) }
    ensures plain { IfOk result HasPlainEnd }
{
    let machines = boot.machines.len() as u8;
    let images = boot.images.len() as u16;
    arriving.server(machines, images)
}

/// What a server keeps: the switchboard its names, the manager its children and the requests without a taken answer.
fn say_lists(resident: &Resident, lines: &mut Vec<EndLine>) -> Result<(), NoMemory>
    requires { HasPlainEnd resident.now }
    ensures { OnOk result (lines.new.items ≡ lines.old.items ++ lists_of resident.now) }
{
    match resident {
        Resident::Process(_) => Ok(()),
        Resident::Board(board) => say_names(board, lines),
        Resident::Manager(manager) => {
            say_children(manager.children(), lines)?;
            let pending = manager.pending()?;
            say_pending(pending.as_slice(), lines)?;
            Ok(())
        }
    }
}

/// The names, in order of registration.
fn say_names(board: &Switchboard, lines: &mut Vec<EndLine>) -> Result<(), NoMemory>
    requires { IsLawfulBoard board.now }
    ensures { OnOk result (lines.new.items ≡ lines.old.items ++ name_lines board.now.names) }
{
    for place in 0..board.len() {
        if let Some((bytes, link)) = board.name(place) {
            say_name(bytes, link, lines)?;
        }
    }
    Ok(())
}

/// A name and its link.
fn say_name(bytes: &[u8], link: &Link, lines: &mut Vec<EndLine>) -> Result<(), NoMemory>
    requires { length bytes.now ≤ 16 }
    ensures { OnOk result (lines.new.items ≡ lines.old.items ++ (end.Name (record { items = bytes.now }) link.now) ∷ []) }
{
    let mut name = ArrayVec::new();
    let _ = name.try_extend_from_slice(bytes);
    push(lines, EndLine::Name { name, link: *link })?;
    Ok(())
}

/// The children, counted from 1.
fn say_children(children: &[Addr], lines: &mut Vec<EndLine>) -> Result<(), NoMemory>
    requires { length children.now < 2 ^ 32 }
    ensures { OnOk result (lines.new.items ≡ lines.old.items ++ child_lines 1 children.now) }
{
    for place in 0..children.len() {
        push(
            lines,
            EndLine::Child {
                number: place as u32 + 1,
                pid: children[place].pid,
                at: children[place].at,
            },
        )?;
    }
    Ok(())
}

/// The requests without a taken answer.
fn say_pending(pending: &[Pending], lines: &mut Vec<EndLine>) -> Result<(), NoMemory>
    ensures { OnOk result (lines.new.items ≡ lines.old.items ++ pending_lines pending.now) }
{
    for request in pending {
        push(
            lines,
            EndLine::Pending(MsgId {
                from: MANAGER,
                n: request.n,
                answer: false,
            }),
        )?;
    }
    Ok(())
}
