//! Whether anything is on its way, and whether all is at rest.
ghost use Rattle.std.specs.Prelude.{◌≡◌, ◌<◌, ◌==◌, length, not};
ghost use Rattle.dm_line.specs.Each.{all_below};
ghost use Rattle.dm_line.specs.Todo.{at_rest};
ghost use Rattle.dm_world.specs.Meets.{IsWorld, world_state};
ghost use Rattle.dm_world.specs.Next.{all_heard, world_has_mail, world_is_quiet, world_seen, world_serves};

use crate::world::World;

impl World {
    /// Whether nothing is on its way: no inbox has a message, and each message that was routed to another machine is
    /// acknowledged. It looks at each inbox and each stream once, and takes no memory.
    pub fn is_quiet(&self) -> bool
        requires { IsWorld self.now }
        ensures { result ≡ world_is_quiet (length self.now.boot.machines) (world_state self.now) }
    {
        for m in 0..self.machines() {
            if self.has_mail(m) || !self.all_heard(m) {
                return false;
            }
        }
        true
    }

    /// Whether all is at rest: nothing is on its way, and no machine has a process that can be served. It takes no memory.
    pub fn is_at_rest(&self) -> bool
        requires { IsWorld self.now }
        ensures { result ≡ at_rest (length self.now.boot.machines) (world_seen (length self.now.boot.machines) (world_state self.now)) }
    {
        self.is_quiet() && self.none_is_served()
    }

    /// Whether no machine has a process that can be served.
    fn none_is_served(&self) -> bool
        requires { IsWorld self.now }
        ensures { result ≡ all_below (length self.now.boot.machines) (λ m. not (world_serves (world_state self.now) m)) }
    {
        for m in 0..self.machines() {
            if self.can_serve(m) {
                return false;
            }
        }
        true
    }

    /// Whether a machine has a process that can be served.
    pub(crate) fn can_serve(&self, m: u8) -> bool
        requires world { IsWorld self.now }
        requires within { m < length self.now.boot.machines }
        ensures { result ≡ world_serves (world_state self.now) m }
    {
        self.machine(m).kernel().can_serve()
    }

    /// Whether the inbox of a machine has a message.
    pub(crate) fn has_mail(&self, m: u8) -> bool
        requires world { IsWorld self.now }
        requires within { m < length self.now.boot.machines }
        ensures { result ≡ world_has_mail (world_state self.now) m }
    {
        self.machine(m).kernel().inbox().len() > 0
    }

    /// Whether all that a machine routed to others is acknowledged.
    fn all_heard(&self, m: u8) -> bool
        requires world { IsWorld self.now }
        requires within { m < length self.now.boot.machines }
        ensures { result ≡ all_below (length self.now.boot.machines) (all_heard (world_state self.now) m) }
    {
        for to in 0..self.machines() {
            if m != to && !self.is_heard(m, to) {
                return false;
            }
        }
        true
    }

    /// Whether all that a machine routed to this other one is acknowledged.
    fn is_heard(&self, m: u8, to: u8) -> bool
        requires world { IsWorld self.now }
        requires within { m < length self.now.boot.machines }
        requires to { to < length self.now.boot.machines }
        ensures { result ≡ (length (((world_state self.now).nodes m).senders to).unacked == 0) }
    {
        let sender = self.machine(m).sender(to);
        sender.given() == sender.acknowledged()
    }
}
