//! How far a directive has come, and which elementary one comes next.
ghost use Rattle.std.specs.Prelude.{◌≡◌, ◌+◌, ◌<◌, List, None, Some, IfSome, length, false, true};
ghost use Rattle.dm_schedule.specs.declared.Directive.{Directive as TheDirective};
ghost use Rattle.dm_line.specs.Todo.{Two, is_over, takes_turn};
ghost use Rattle.dm_world.specs.Cursor.{Falls, FirstIs, FirstTurnIs, InPassIs, IsFresh, NextIs, NextPassIs, RoundGoes, RowIs, TakesTurn, found, pairs_at};
ghost use Rattle.dm_world.specs.Meets.{IsWorld, world_state};
ghost use Rattle.dm_world.specs.Next.{world_seen};

use crate::world::World;
use dm_line::pass::Pass;
use dm_schedule::Step;

/// How far a directive has come.
#[derive(Clone, Copy)]
pub enum Cursor {
    /// This elementary directive is left of it.
    One(Step),
    /// A pass, and those behind it.
    Passing { pass: Pass, place: Place },
}

/// How far a pass has come.
#[derive(Clone, Copy)]
pub enum Place {
    /// The packets of the pairs from this one on are left, and then all turns.
    Packets { from: u8, to: u8 },
    /// The turns of the machines from this one on.
    Turns(u8),
    /// Nothing.
    End,
}

impl Cursor {
    /// Only what comes behind a pass is left.
    fn behind(pass: Pass) -> Cursor
        ensures { result ≡ Cursor.Passing pass Place.End }
    {
        Cursor::Passing {
            pass,
            place: Place::End,
        }
    }
}

impl World {
    /// The elementary directive that comes next, and the cursor goes as far as the directive has come with it; none where it
    /// is over, and the cursor stays. In a pass each ordered pair of machines is passed once, ascending, and no packet is
    /// looked at that was delivered. A settle looks each time whether anything is on its way, and a rest whether anything is
    /// or can be served. It takes no memory.
    pub fn next(&self, cursor: &mut Cursor, step: &mut Step) -> bool
        requires { IsWorld self.now }
        ensures next { (ds : List TheDirective) → NextIs (length self.now.boot.machines) (world_state self.now) cursor.old ds (found result step.new cursor.new) }
        // At most so many steps are left as `left` says; a settle delivers new packets, and lets machines with mail act.
        ensures falls { result ≡ true → Falls (length self.now.boot.machines) (world_state self.now) cursor.old step.new cursor.new }
        ensures stays { result ≡ false → cursor.new ≡ cursor.old }
    {
        match *cursor {
            Cursor::One(one) => {
                *cursor = Cursor::behind(Pass::Round(0));
                *step = one;
                true
            }
            Cursor::Passing { pass, place } => self.next_of(pass, place, cursor, step),
        }
    }

    /// What comes next of a pass from this place on, and of those behind it.
    fn next_of(&self, pass: Pass, place: Place, cursor: &mut Cursor, step: &mut Step) -> bool
        requires { IsWorld self.now }
        ensures next { (ds : List TheDirective) → NextIs (length self.now.boot.machines) (world_state self.now) (Cursor.Passing pass place) ds (found result step.new cursor.new) }
        ensures falls { result ≡ true → Falls (length self.now.boot.machines) (world_state self.now) (Cursor.Passing pass place) step.new cursor.new }
        ensures stays { result ≡ false → cursor.new ≡ cursor.old }
    {
        if self.is_over(pass) {
            return false;
        }
        self.next_at(pass, place, cursor, step) || self.next_pass(pass, cursor, step)
    }

    /// Whether the directive of a pass is over in the midst of it: a settle is where nothing is on its way, and a rest where
    /// all is at rest.
    fn is_over(&self, pass: Pass) -> bool
        requires { IsWorld self.now }
        ensures { result ≡ is_over (length self.now.boot.machines) (world_seen (length self.now.boot.machines) (world_state self.now)) pass }
    {
        match pass {
            Pass::Round(_) => false,
            Pass::Settle => self.is_quiet(),
            Pass::Rest(_) => self.is_at_rest(),
        }
    }

    /// What comes next where a pass is over, of those behind it.
    fn next_pass(&self, pass: Pass, cursor: &mut Cursor, step: &mut Step) -> bool
        requires { IsWorld self.now }
        ensures next { (ds : List TheDirective) → NextPassIs (length self.now.boot.machines) (world_state self.now) pass ds (found result step.new cursor.new) }
        ensures falls { result ≡ true → Falls (length self.now.boot.machines) (world_state self.now) (Cursor.Passing pass Place.End) step.new cursor.new }
        ensures stays { result ≡ false → cursor.new ≡ cursor.old }
    {
        match pass {
            Pass::Round(rounds) => self.next_round(rounds, cursor, step),
            Pass::Settle => self.next_packet(Pass::Settle, 0, 0, cursor, step),
            Pass::Rest(passes) => self.next_rest(passes, cursor, step),
        }
    }

    /// What comes next where so many rounds are left.
    fn next_round(&self, rounds: u32, cursor: &mut Cursor, step: &mut Step) -> bool
        requires { IsWorld self.now }
        ensures next { (ds : List TheDirective) →
            NextPassIs (length self.now.boot.machines) (world_state self.now) (Pass.Round rounds) ds (found result step.new cursor.new) }
        ensures falls { result ≡ true → Falls (length self.now.boot.machines) (world_state self.now) (Cursor.Passing (Pass.Round rounds) Place.End) step.new cursor.new }
        ensures stays { result ≡ false → cursor.new ≡ cursor.old }
    {
        if rounds == 0 {
            false
        } else {
            self.next_packet(Pass::Round(rounds - 1), 0, 0, cursor, step)
        }
    }

    /// What comes next where so many passes of a rest are left.
    fn next_rest(&self, passes: u32, cursor: &mut Cursor, step: &mut Step) -> bool
        requires { IsWorld self.now }
        ensures next { (ds : List TheDirective) →
            NextPassIs (length self.now.boot.machines) (world_state self.now) (Pass.Rest passes) ds (found result step.new cursor.new) }
        ensures falls { result ≡ true → Falls (length self.now.boot.machines) (world_state self.now) (Cursor.Passing (Pass.Rest passes) Place.End) step.new cursor.new }
        ensures stays { result ≡ false → cursor.new ≡ cursor.old }
    {
        if passes == 0 {
            false
        } else {
            self.next_packet(Pass::Rest(passes - 1), 0, 0, cursor, step)
        }
    }

    /// What comes next of a pass from this place on.
    fn next_at(&self, pass: Pass, place: Place, cursor: &mut Cursor, step: &mut Step) -> bool
        requires { IsWorld self.now }
        ensures next { (ds : List TheDirective) → InPassIs (length self.now.boot.machines) (world_state self.now) pass place ds (found result step.new cursor.new) }
        ensures falls { result ≡ true → Falls (length self.now.boot.machines) (world_state self.now) (Cursor.Passing pass place) step.new cursor.new }
        ensures stays { result ≡ false → cursor.new ≡ cursor.old }
    {
        match place {
            Place::Packets { from, to } => self.next_packet(pass, from, to, cursor, step),
            Place::Turns(m) => self.next_turn(pass, m, cursor, step),
            Place::End => false,
        }
    }

    /// What comes next of a pass from this pair on.
    fn next_packet(
        &self,
        pass: Pass,
        from: u8,
        to: u8,
        cursor: &mut Cursor,
        step: &mut Step,
    ) -> bool
        requires { IsWorld self.now }
        ensures next { (ds : List TheDirective) →
            InPassIs (length self.now.boot.machines) (world_state self.now) pass (Place.Packets from to) ds (found result step.new cursor.new) }
        ensures goes { RoundGoes pass (found result step.new cursor.new) }
        ensures falls { result ≡ true → Falls (length self.now.boot.machines) (world_state self.now) (Cursor.Passing pass (Place.Packets from to)) step.new cursor.new }
        ensures stays { result ≡ false → cursor.new ≡ cursor.old }
    {
        match self.first_packet(from, to) {
            Some((a, b, k)) => {
                *cursor = Cursor::Passing {
                    pass,
                    place: Place::Packets { from: a, to: b },
                };
                *step = Step::Deliver { a, b, k };
                true
            }
            None => self.next_turn(pass, 0, cursor, step),
        }
    }

    /// What comes next of a pass where the machines from `m` on are left.
    fn next_turn(&self, pass: Pass, m: u8, cursor: &mut Cursor, step: &mut Step) -> bool
        requires { IsWorld self.now }
        ensures next { (ds : List TheDirective) → InPassIs (length self.now.boot.machines) (world_state self.now) pass (Place.Turns m) ds (found result step.new cursor.new) }
        ensures goes { m < length self.now.boot.machines → RoundGoes pass (found result step.new cursor.new) }
        ensures falls { result ≡ true → Falls (length self.now.boot.machines) (world_state self.now) (Cursor.Passing pass (Place.Turns m)) step.new cursor.new }
        ensures stays { result ≡ false → cursor.new ≡ cursor.old }
    {
        match self.first_turn(pass, m) {
            Some(turn) => {
                *cursor = Cursor::Passing {
                    pass,
                    place: Place::Turns(turn + 1),
                };
                *step = Step::Turn(turn);
                true
            }
            None => false,
        }
    }

    /// The first machine from `m` on that takes its turn in a pass.
    fn first_turn(&self, pass: Pass, m: u8) -> Option<u8>
        requires { IsWorld self.now }
        ensures first { FirstTurnIs (length self.now.boot.machines) (world_state self.now) pass m result }
        ensures goes { m < length self.now.boot.machines → RoundGoes pass result }
        ensures takes { IfSome result (λ k. TakesTurn (length self.now.boot.machines) (world_state self.now) pass m k) }
    {
        for k in m..self.machines() {
            if self.takes_turn(pass, k) {
                return Some(k);
            }
        }
        None
    }

    /// Whether a machine takes its turn in a pass.
    fn takes_turn(&self, pass: Pass, m: u8) -> bool
        requires world { IsWorld self.now }
        requires within { m < length self.now.boot.machines }
        ensures { result ≡ takes_turn pass (world_seen (length self.now.boot.machines) (world_state self.now)) m }
    {
        match pass {
            Pass::Round(_) => true,
            Pass::Settle => self.has_mail(m),
            Pass::Rest(_) => self.has_mail(m) || self.can_serve(m),
        }
    }

    /// The first packet that was never delivered, of the pairs from this one on: its pair and its number.
    fn first_packet(&self, from: u8, to: u8) -> Option<(u8, u8, u64)>
        requires { IsWorld self.now }
        ensures first { FirstIs (length self.now.boot.machines) (world_state self.now) (pairs_at (length self.now.boot.machines) from to) result }
        ensures fresh { IfSome result (λ p. IsFresh (length self.now.boot.machines) (world_state self.now) p.0 p.1 p.2) }
    {
        let machines = self.machines();
        let mut a = from;
        let mut to = to;
        while a < machines {
            if let Some((b, k)) = self.first_in_row(a, to) {
                return Some((a, b, k));
            }
            a = self.wires.first_sender(a + 1)?;
            to = 0;
        }
        None
    }

    /// The same of the pairs from machine `from` to the machines from `to` on: the machine, and the number.
    fn first_in_row(&self, from: u8, to: u8) -> Option<(u8, u64)>
        requires world { IsWorld self.now }
        requires from { from < length self.now.boot.machines }
        ensures first { (rest : List Two) → RowIs (length self.now.boot.machines) (world_state self.now) from to rest result }
        ensures fresh { IfSome result (λ p. IsFresh (length self.now.boot.machines) (world_state self.now) from p.0 p.1) }
    {
        let first = self.wires.first_open(from, to)?;
        for b in first..self.machines() {
            if from != b {
                if let Some(k) = self.wires.unseen(from, b) {
                    return Some((b, k));
                }
            }
        }
        None
    }
}
