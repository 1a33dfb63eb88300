//! What is seen of the machines, for choices.
ghost use Rattle.std.specs.Prelude.{◌≡◌, ◌<◌, false, length};
ghost use Rattle.std.specs.List.{list_any};
ghost use Rattle.std.specs.Option.{option_map_or};
ghost use Rattle.dm_kernel.specs.State.{process_in};
ghost use Rattle.dm_node.specs.Meets.{node_state};
ghost use Rattle.dm_world.specs.Meets.{IsWorld, world_state};
ghost use Rattle.dm_world.specs.World.{seat_of};
ghost use Rattle.dm_explore.specs.Order.{is_away, machine_of};
ghost use Rattle.dm_explore.specs.Sights.{is_lingering, is_out, world_acts, world_lingers, world_sight, world_waits, any_below};

use dm_link::Pid;
use dm_node::Node;
use dm_process::{Process, Status};
use dm_schedule::Step;
use dm_world::World;

/// Whether a turn of this machine wouldn't be idle.
pub fn acts(world: &World, m: u8) -> bool
    requires world { IsWorld world.now }
    requires within { m < length world.now.boot.machines }
    ensures { result ≡ world_acts (world_state world.now) m }
{
    let kernel = world.machine(m).kernel();
    kernel.inbox().len() > 0 || kernel.can_serve()
}

/// Whether a message from the first machine to the second waits for an acknowledgement.
pub fn waits(world: &World, from: u8, to: u8) -> bool
    requires world { IsWorld world.now }
    requires from { from < length world.now.boot.machines }
    requires to { to < length world.now.boot.machines }
    ensures { result ≡ world_waits (world_state world.now) from to }
{
    let sender = world.machine(from).sender(to);
    sender.given() > sender.gone_out()
}

/// Whether a machine would send something again.
pub fn resends(world: &World, m: u8) -> bool
    requires world { IsWorld world.now }
    requires within { m < length world.now.boot.machines }
    ensures { result ≡ any_below (length world.now.boot.machines) (is_out (world_state world.now) m) }
{
    for to in 0..world.machines() {
        if m != to && world.machine(m).sender(to).out() > 0 {
            return true;
        }
    }
    false
}

/// The machine where the manager is; none while it is on its way.
pub fn seat(world: &World) -> Option<u8>
    requires world { IsWorld world.now }
    ensures { result ≡ seat_of (length world.now.boot.machines) (world_state world.now).nodes }
{
    for m in 0..world.machines() {
        if world.machine(m).kernel().has_manager() {
            return Some(m);
        }
    }
    None
}

/// Who acts on a directive.
#[derive(Clone, Copy)]
pub struct Actor {
    pub machine: u8,
    /// Whether the directive is a request to move, and the manager is on its way: no machine acts, and the lines are machine 0's.
    pub away: bool,
}

/// The machine that acts on a directive.
pub fn who_acts(world: &World, step: Step) -> Actor
    requires world { IsWorld world.now }
    ensures machine { result.machine ≡ machine_of (world_sight (length world.now.boot.machines) (world_state world.now)) step }
    ensures away { result.away ≡ is_away (world_sight (length world.now.boot.machines) (world_state world.now)) step }
{
    match step {
        Step::Turn(m) => at(m),
        Step::Tick(m) => at(m),
        Step::Deliver { b, .. } => at(b),
        Step::Migrate { .. } => match seat(world) {
            Some(m) => at(m),
            None => Actor {
                machine: 0,
                away: true,
            },
        },
        Step::CallOff { at: m, .. } => at(m),
    }
}

/// This machine acts.
fn at(machine: u8) -> Actor
    ensures { result ≡ record { machine = machine; away = false } }
{
    Actor {
        machine,
        away: false,
    }
}

/// Whether one of these processes is here on some machine, waits or moves data, and isn't stopped.
pub fn some_lingers(world: &World, pids: &[Pid]) -> bool
    requires world { IsWorld world.now }
    ensures { result ≡ list_any (world_lingers (length world.now.boot.machines) (world_state world.now)) pids.now }
{
    for pid in pids {
        if lingers_somewhere(world, *pid) {
            return true;
        }
    }
    false
}

/// Whether a process is here on some machine, waits or moves data, and isn't stopped.
fn lingers_somewhere(world: &World, pid: Pid) -> bool
    requires world { IsWorld world.now }
    ensures { result ≡ world_lingers (length world.now.boot.machines) (world_state world.now) pid }
{
    for m in 0..world.machines() {
        if lingers_at(world.machine(m), pid) {
            return true;
        }
    }
    false
}

/// Whether it is here on this machine, waits or moves data, and isn't stopped.
fn lingers_at(machine: &Node, pid: Pid) -> bool
    ensures { result ≡ option_map_or is_lingering (process_in ((node_state machine.now).kernel.records pid)) false }
{
    match machine.kernel().records().here(pid) {
        Some(resident) => match resident.process() {
            Some(process) => lingers(process),
            None => false,
        },
        None => false,
    }
}

/// Whether a process waits or moves data, and isn't stopped.
fn lingers(process: &Process) -> bool
    ensures { result ≡ is_lingering process.now }
{
    match process.status {
        Status::Ready => false,
        Status::Waiting { .. } => !process.stopped,
        Status::Moving { .. } => !process.stopped,
    }
}
