//! All machines and the wires between them.
ghost use Rattle.std.specs.Prelude.{◌≡◌, ◌<◌, ◌≤◌, ℕ, IfOk, OnOk, Some, false, length, slice_get};
ghost use Rattle.dm_onekernel.specs.Boot.{IsValid};
ghost use Rattle.dm_node.specs.declared.node.Node.{Node as TheNode};
ghost use Rattle.dm_node.specs.Meets as node;
ghost use Rattle.dm_node.specs.State.{node_opened};
ghost use Rattle.dm_world.specs.Meets.{AreNodes, IsWorld, world_state};
ghost use Rattle.dm_world.specs.World.{first_world};

use dm_line::line::Line;
use dm_link::{MACHINES, Pid};
use dm_memory::{NoMemory, push};
use dm_node::Node;
use dm_onekernel::{Boot, Why};
use dm_wire::Wire;
use std::alloc::Global;
use std::collections::BTreeMap;

/// A system that runs.
#[derive(Drop)]
pub struct World {
    pub(crate) alloc: Global,
    pub(crate) boot: Boot,
    /// The machines of the boot file.
    pub(crate) nodes: Vec<Node>,
    pub(crate) wires: Wire,
    /// Why each process ended that has.
    pub(crate) ended: BTreeMap<Pid, Why>,
    /// Lines that were printed, kept for their memory.
    pub(crate) lines: Vec<Line>,
    /// How many directives there were.
    pub(crate) groups: u128,
    /// A world that stopped before the end of a directive takes no further one.
    pub(crate) stopped: bool,
}

impl World {
    /// The system of a boot file, before its first directive.
    pub fn boot(alloc: Global, boot: Boot) -> Result<World, NoMemory>
        requires { IsValid boot }
        ensures state { IfOk result (λ w. world_state w ≡ first_world boot) }
        ensures world { IfOk result IsWorld }
        ensures boot { IfOk result (λ w. w.boot ≡ boot) }
        ensures running { IfOk result (λ w. w.stopped ≡ false) }
    {
        let nodes = open_all(alloc, &boot)?;
        Ok(World {
            alloc,
            boot,
            nodes,
            wires: Wire::new(alloc),
            ended: BTreeMap::new(alloc),
            lines: Vec::new(alloc),
            groups: 0,
            stopped: false,
        })
    }

    /// The system of its boot file once more, before its first directive. It may have stopped. Where memory lacks it is as it was.
    pub fn restart(&mut self) -> Result<(), NoMemory>
        requires { IsValid self.old.boot }
        ensures state { OnOk result (world_state self.new ≡ first_world self.old.boot) }
        ensures world { OnOk result (IsWorld self.new) }
        ensures boot { self.new.boot ≡ self.old.boot }
        ensures running { OnOk result (self.new.stopped ≡ false) }
    {
        self.nodes = open_all(self.alloc, &self.boot)?;
        self.wires = Wire::new(self.alloc);
        self.ended = BTreeMap::new(self.alloc);
        self.groups = 0;
        self.stopped = false;
        Ok(())
    }

    /// Whether it stopped before the end of a directive.
    pub fn stopped(&self) -> bool
        ensures { result ≡ self.now.stopped }
    {
        self.stopped
    }

    /// How many machines there are.
    pub fn machines(&self) -> u8
        requires { IsWorld self.now }
        ensures all { result ≡ length self.now.boot.machines }
        ensures few { result ≤ MACHINES }
    {
        self.boot.machines.len() as u8
    }
}

/// The machines as the boot file has them.
fn open_all(alloc: Global, boot: &Boot) -> Result<Vec<Node>, NoMemory>
    requires { IsValid boot.now }
    ensures size { IfOk result (λ nodes. length nodes.items ≡ length boot.now.machines) }
    ensures nodes { IfOk result (λ nodes. AreNodes nodes.items) }
    ensures opened { IfOk result (λ nodes. (m : ℕ) (n : TheNode) → slice_get nodes.items m ≡ Some n → node.node_state n ≡ node_opened boot.now m) }
{
    let machines = boot.machines.len() as u8;
    let mut nodes = Vec::new(alloc);
    for here in 0..machines {
        push(&mut nodes, Node::new(alloc, boot, here)?)?;
    }
    Ok(nodes)
}
