//! What a directive does.
ghost use Rattle.std.specs.Prelude.{◌≡◌, ◌<◌, ◌≤◌, ◌+◌, ◌^◌, ◌∷◌, IfOk, IfSome, IsOk, OnErr, OnOk, None, Ok, Some, [], false, length, option_map, true};
ghost use Rattle.dm_link.specs.declared.Pid.{Pid as ThePid};
ghost use Rattle.dm_onekernel.specs.Boot.{images_are_valid};
ghost use Rattle.dm_onekernel.specs.declared.boot.Boot.{Boot as TheBoot};
ghost use Rattle.dm_packet.specs.Packets.{packet_of};
ghost use Rattle.dm_schedule.specs.declared.Step.TheVariants as directive;
ghost use Rattle.dm_wire.specs.Sent.{bytes_at};
ghost use Rattle.dm_wire.specs.Wire.{packets_on};
ghost use Rattle.dm_kernel.specs.Carried.{FreezesWhole};
ghost use Rattle.dm_kernel.specs.Lawful.{IsLawfulState};
ghost use Rattle.dm_node.specs.Acts as node;
ghost use Rattle.dm_node.specs.May.{MayAct, MayArrivePacket, MayAskMove, MayCallOff, MayTurn};
ghost use Rattle.dm_node.specs.Meets.{OrNoMemory};
ghost use Rattle.dm_node.specs.Wired.{so_far};
ghost use Rattle.dm_line.specs.declared.line.Line.TheVariants as line;
ghost use Rattle.dm_world.specs.Local.{ActsAlone, acts_on};
ghost use Rattle.dm_world.specs.May.{MayStep};
ghost use Rattle.dm_world.specs.Meets.{ActedAt, AreNodes, IsWorld, TurnAnswers, ended_in, node_in, world_state};
ghost use Rattle.dm_world.specs.Stepped.{StepMeets};
ghost use Rattle.dm_world.specs.World.{with_over, seat_of};

use crate::world::World;
use dm_line::line::Line;
use dm_link::{MACHINES, Pid};
use dm_memory::{NoMemory, insert, list_of, push};
use dm_node::{Envelope, Node, Stop};
use dm_onekernel::Boot;
use dm_schedule::Step;
use dm_wire::Wire;
use std::alloc::Global;
use std::mem;

impl World {
    /// Does what a directive says: the lines of its group, its head first. It stops as worn exactly where a machine has
    /// a message to route to a machine to which it has routed as many as it may. A world that stops takes no further
    /// directive.
    pub fn step(&mut self, step: &Step) -> Result<Vec<Line>, Stop>
        requires world { IsWorld self.old }
        requires running { self.old.stopped ≡ false }
        requires may { MayStep self.old.boot (world_state self.old) step.now }
        requires groups { self.old.groups < 2 ^ 127 }
        ensures meets { StepMeets self.old self.new step.now result }
        ensures alone { OnOk result (ActsAlone (acts_on self.old.boot (world_state self.old) step.now) (world_state self.old) (world_state self.new)) }
        ensures running { OnOk result (self.new.stopped ≡ false) }
        ensures stopped { OnErr result (self.new.stopped ≡ true) }
    {
        match self.act(step) {
            Ok(lines) => Ok(lines),
            Err(stop) => {
                self.stopped = true;
                Err(stop)
            }
        }
    }

    /// Lets the machine of a directive act.
    fn act(&mut self, step: &Step) -> Result<Vec<Line>, Stop>
        requires world { IsWorld self.old }
        requires may { MayStep self.old.boot (world_state self.old) step.now }
        requires groups { self.old.groups < 2 ^ 127 }
        ensures meets { StepMeets self.old self.new step.now result }
        ensures stopped { self.new.stopped ≡ self.old.stopped }
    {
        match *step {
            Step::Turn(m) => self.turn(m),
            Step::Tick(m) => self.tick(m),
            Step::Deliver { a, b, k } => self.deliver(a, b, k),
            Step::Migrate { pid, to } => self.ask_move(pid, to),
            Step::CallOff { pid, at } => self.call_off(pid, at),
        }
    }

    /// A machine takes a turn.
    fn turn(&mut self, m: u8) -> Result<Vec<Line>, Stop>
        requires world { IsWorld self.old }
        requires may { MayStep self.old.boot (world_state self.old) (directive.Turn m) }
        requires groups { self.old.groups < 2 ^ 127 }
        ensures meets { StepMeets self.old self.new (directive.Turn m) result }
        ensures stopped { self.new.stopped ≡ self.old.stopped }
    {
        let mut lines = begun(self.alloc, &mut self.lines, Step::Turn(m))?;
        take_turn(&mut self.nodes, &self.boot, m, &mut self.wires, &mut lines)?;
        self.groups += 1;
        self.keep_over(m)?;
        Ok(lines)
    }

    /// Keeps who ended in the turn that machine `m` has taken, and why.
    fn keep_over(&mut self, m: u8) -> Result<(), NoMemory>
        requires within { m < length self.old.nodes.items }
        ensures ended { OnOk result ((p : ThePid) → ended_in self.new.ended p ≡ with_over (ended_in self.old.ended) (node_in self.old.boot self.old.nodes.items m).kernel.over p) }
        ensures rest { self.new ≡ record self.old { ended = self.new.ended } }
    {
        if let Some((pid, why)) = self.nodes[place_of(m)].kernel().over() {
            insert(&mut self.ended, pid, why)?;
        }
        Ok(())
    }

    /// The manager is asked to have a process or a server move, on the machine where it is here; while it is on its way nothing
    /// happens.
    fn ask_move(&mut self, pid: Pid, to: u8) -> Result<Vec<Line>, Stop>
        requires world { IsWorld self.old }
        requires may { MayStep self.old.boot (world_state self.old) (directive.Migrate pid to) }
        requires groups { self.old.groups < 2 ^ 127 }
        ensures meets { StepMeets self.old self.new (directive.Migrate pid to) result }
        ensures stopped { self.new.stopped ≡ self.old.stopped }
    {
        match seat_of(&self.nodes) {
            Some(seat) => self.ask_move_at(seat, pid, to),
            None => self.say_away(pid, to),
        }
    }

    /// The manager is on its way: nothing is told to move.
    fn say_away(&mut self, pid: Pid, to: u8) -> Result<Vec<Line>, Stop>
        requires world { IsWorld self.old }
        requires away { seat_of (length self.old.boot.machines) (node_in self.old.boot self.old.nodes.items) ≡ None }
        requires groups { self.old.groups < 2 ^ 127 }
        ensures meets { StepMeets self.old self.new (directive.Migrate pid to) result }
        ensures stopped { self.new.stopped ≡ self.old.stopped }
    {
        let lines = list_of(
            self.alloc,
            [Line::Head(Step::Migrate { pid, to }), Line::Away],
        )?;
        self.groups += 1;
        Ok(lines)
    }

    /// The manager is asked to have a process or a server move, on the machine where it is.
    fn ask_move_at(&mut self, seat: u8, pid: Pid, to: u8) -> Result<Vec<Line>, Stop>
        requires world { IsWorld self.old }
        requires seat { seat_of (length self.old.boot.machines) (node_in self.old.boot self.old.nodes.items) ≡ Some seat }
        requires may { MayStep self.old.boot (world_state self.old) (directive.Migrate pid to) }
        requires groups { self.old.groups < 2 ^ 127 }
        ensures meets { StepMeets self.old self.new (directive.Migrate pid to) result }
        ensures stopped { self.new.stopped ≡ self.old.stopped }
    {
        let mut lines = begun(self.alloc, &mut self.lines, Step::Migrate { pid, to })?;
        ask_manager(
            &mut self.nodes,
            &self.boot,
            seat,
            pid,
            to,
            &mut self.wires,
            &mut lines,
        )?;
        self.groups += 1;
        Ok(lines)
    }

    /// The migration of a process to a machine is called off there.
    fn call_off(&mut self, pid: Pid, m: u8) -> Result<Vec<Line>, Stop>
        requires world { IsWorld self.old }
        requires may { MayStep self.old.boot (world_state self.old) (directive.CallOff pid m) }
        requires groups { self.old.groups < 2 ^ 127 }
        ensures meets { StepMeets self.old self.new (directive.CallOff pid m) result }
        ensures stopped { self.new.stopped ≡ self.old.stopped }
    {
        let mut lines = begun(self.alloc, &mut self.lines, Step::CallOff { pid, at: m })?;
        call_off(
            &mut self.nodes,
            &self.boot,
            pid,
            m,
            &mut self.wires,
            &mut lines,
        )?;
        self.groups += 1;
        Ok(lines)
    }

    /// A machine sends again what is out and not acknowledged.
    fn tick(&mut self, m: u8) -> Result<Vec<Line>, Stop>
        requires world { IsWorld self.old }
        requires may { MayStep self.old.boot (world_state self.old) (directive.Tick m) }
        requires groups { self.old.groups < 2 ^ 127 }
        ensures meets { StepMeets self.old self.new (directive.Tick m) result }
        ensures stopped { self.new.stopped ≡ self.old.stopped }
    {
        let mut lines = begun(self.alloc, &mut self.lines, Step::Tick(m))?;
        send_again(&self.boot, &self.nodes, m, &mut self.wires, &mut lines)?;
        self.groups += 1;
        Ok(lines)
    }

    /// A packet arrives, if there is one with this number.
    fn deliver(&mut self, a: u8, b: u8, k: u64) -> Result<Vec<Line>, Stop>
        requires world { IsWorld self.old }
        requires may { MayStep self.old.boot (world_state self.old) (directive.Deliver a b k) }
        requires groups { self.old.groups < 2 ^ 127 }
        ensures meets { StepMeets self.old self.new (directive.Deliver a b k) result }
        ensures stopped { self.new.stopped ≡ self.old.stopped }
    {
        match read(self.alloc, &self.wires, a, b, k)? {
            Some(packet) => self.take(a, b, k, packet),
            None => self.find_nothing(a, b, k),
        }
    }

    /// The packet with this number arrives.
    fn take(&mut self, a: u8, b: u8, k: u64, packet: Envelope) -> Result<Vec<Line>, Stop>
        requires world { IsWorld self.old }
        requires may { MayStep self.old.boot (world_state self.old) (directive.Deliver a b k) }
        requires groups { self.old.groups < 2 ^ 127 }
        requires packet { option_map packet_of (bytes_at (packets_on self.old.wires a b) k) ≡ Some (Ok packet) }
        ensures meets { StepMeets self.old self.new (directive.Deliver a b k) result }
        ensures stopped { self.new.stopped ≡ self.old.stopped }
    {
        let mut lines = begun(self.alloc, &mut self.lines, Step::Deliver { a, b, k })?;
        self.wires.mark(a, b, k);
        receive(
            &mut self.nodes,
            &self.boot,
            b,
            packet,
            &mut self.wires,
            &mut lines,
        )?;
        self.groups += 1;
        Ok(lines)
    }

    /// There is no packet with this number.
    fn find_nothing(&mut self, a: u8, b: u8, k: u64) -> Result<Vec<Line>, Stop>
        requires world { IsWorld self.old }
        requires groups { self.old.groups < 2 ^ 127 }
        requires none { bytes_at (packets_on self.old.wires a b) k ≡ None }
        ensures meets { StepMeets self.old self.new (directive.Deliver a b k) result }
        ensures stopped { self.new.stopped ≡ self.old.stopped }
    {
        let lines = list_of(
            self.alloc,
            [Line::Head(Step::Deliver { a, b, k }), Line::Nothing],
        )?;
        self.groups += 1;
        Ok(lines)
    }

    /// Takes the memory of lines that were printed, for those of the next directive.
    pub fn keep(&mut self, lines: Vec<Line>)
        ensures { self.new ≡ record self.old { lines = lines } }
    {
        self.lines = lines;
    }
}

/// The lines of a group, so far its head alone, in the memory of lines that were kept.
fn begun(alloc: Global, kept: &mut Vec<Line>, head: Step) -> Result<Vec<Line>, NoMemory>
    ensures { IfOk result (λ lines. lines.items ≡ line.Head head ∷ []) }
{
    let mut lines = mem::replace(kept, Vec::new(alloc));
    lines.clear();
    push(&mut lines, Line::Head(head))?;
    Ok(lines)
}

/// Machine `m` takes a turn: its packets go on the wires, and its lines come behind those that were said.
fn take_turn(
    nodes: &mut [Node],
    boot: &Boot,
    m: u8,
    wires: &mut Wire,
    lines: &mut Vec<Line>,
) -> Result<(), Stop>
    requires within { m < length nodes.old }
    requires nodes { AreNodes nodes.old }
    requires may { MayTurn boot.now (node_in boot.now nodes.old m) }
    requires images { images_are_valid boot.now.images ≡ true }
    requires lawful { IsLawfulState (node_in boot.now nodes.old m).kernel }
    ensures answers { TurnAnswers result boot.now nodes.old nodes.new m (so_far wires.old lines.old.items) (so_far wires.new lines.new.items)
        (node.turn boot.now (node_in boot.now nodes.old m)) }
    ensures whole { OrNoMemory result (FreezesWhole (node_in boot.now nodes.old m).kernel (node_in boot.now nodes.old m).kernel.inbox) }
{
    nodes[place_of(m)].turn(boot, wires, lines)
}

/// The place of a machine among all.
fn place_of(m: u8) -> usize
    ensures { result ≡ m }
{
    usize::from(m)
}

/// The machine where the manager is here, if it is here on one.
fn seat_of(nodes: &[Node]) -> Option<u8>
    requires { length nodes.now ≤ MACHINES }
    ensures { (b : TheBoot) → result ≡ seat_of (length nodes.now) (node_in b nodes.now) }
{
    for place in 0..nodes.len() {
        if nodes[place].kernel().has_manager() {
            return Some(place as u8);
        }
    }
    None
}

/// Machine `m`, where the manager is, is asked to have a process or a server move. It speaks as in a turn.
fn ask_manager(
    nodes: &mut [Node],
    boot: &Boot,
    m: u8,
    pid: Pid,
    to: u8,
    wires: &mut Wire,
    lines: &mut Vec<Line>,
) -> Result<(), Stop>
    requires within { m < length nodes.old }
    requires nodes { AreNodes nodes.old }
    requires may { MayAskMove (node_in boot.now nodes.old m) }
    requires to { to < MACHINES }
    requires lawful { IsLawfulState (node_in boot.now nodes.old m).kernel }
    ensures { TurnAnswers result boot.now nodes.old nodes.new m (so_far wires.old lines.old.items) (so_far wires.new lines.new.items)
        (node.asks_move (node_in boot.now nodes.old m) pid to) }
{
    nodes[place_of(m)].ask_move(pid, to, wires, lines)
}

/// Machine `m` calls the migration of a process off. It speaks as in a turn.
fn call_off(
    nodes: &mut [Node],
    boot: &Boot,
    pid: Pid,
    m: u8,
    wires: &mut Wire,
    lines: &mut Vec<Line>,
) -> Result<(), Stop>
    requires within { m < length nodes.old }
    requires nodes { AreNodes nodes.old }
    requires may { MayCallOff (node_in boot.now nodes.old m) pid }
    requires lawful { IsLawfulState (node_in boot.now nodes.old m).kernel }
    ensures { TurnAnswers result boot.now nodes.old nodes.new m (so_far wires.old lines.old.items) (so_far wires.new lines.new.items)
        (node.calls_off (node_in boot.now nodes.old m) pid) }
{
    nodes[place_of(m)].call_off(pid, wires, lines)
}

/// Machine `m` sends again what is out and not acknowledged. It speaks as in a turn.
fn send_again(
    boot: &Boot,
    nodes: &[Node],
    m: u8,
    wires: &mut Wire,
    lines: &mut Vec<Line>,
) -> Result<(), NoMemory>
    requires within { m < length nodes.now }
    requires nodes { AreNodes nodes.now }
    requires may { MayAct (node_in boot.now nodes.now m) }
    ensures { OnOk result (ActedAt boot.now nodes.now nodes.now m (so_far wires.old lines.old.items) (so_far wires.new lines.new.items)
        (node.tick (node_in boot.now nodes.now m))) }
{
    nodes[usize::from(m)].tick(wires, lines)
}

/// A packet comes to machine `m`, which speaks as in a turn.
fn receive(
    nodes: &mut [Node],
    boot: &Boot,
    m: u8,
    packet: Envelope,
    wires: &mut Wire,
    lines: &mut Vec<Line>,
) -> Result<(), NoMemory>
    requires within { m < length nodes.old }
    requires nodes { AreNodes nodes.old }
    requires may { MayArrivePacket (node_in boot.now nodes.old m) packet }
    ensures { OnOk result (ActedAt boot.now nodes.old nodes.new m (so_far wires.old lines.old.items) (so_far wires.new lines.new.items)
        (node.arrives_packet (node_in boot.now nodes.old m) packet)) }
{
    nodes[usize::from(m)].arrive(packet, wires, lines)
}

/// The packet with this number on the wire from `a` to `b`.
fn read(alloc: Global, wires: &Wire, a: u8, b: u8, k: u64) -> Result<Option<Envelope>, NoMemory>
    requires machines { (a < MACHINES) × (b < MACHINES) }
    requires reads { IfSome (bytes_at (packets_on wires.now a b) k) (λ bytes. IsOk (packet_of bytes)) }
    ensures { IfOk result (λ found. option_map packet_of (bytes_at (packets_on wires.now a b) k) ≡ option_map Ok found) }
{
    match wires.packet(a, b, k) {
        Some(bytes) => Ok(Some(Envelope::read(alloc, bytes)?)),
        None => Ok(None),
    }
}
