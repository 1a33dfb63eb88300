//! What the directives so far have done.
ghost use Rattle.std.specs.Prelude.{◌≡◌, ◌∷◌, ◌++◌, List, [], OnOk};
ghost use Rattle.dm_explore.specs.Past.{Did, acknowledges, comes_again, delivers, puts_in, was_delivered};
ghost use Rattle.dm_explore.specs.Noted.{IsPast, noted};

use dm_line::line::{Line, Load};
use dm_memory::{NoMemory, push};
use dm_schedule::Step;
use std::alloc::Global;

/// A directive that was done.
#[derive(Clone, Copy)]
pub struct Done {
    pub step: Step,
    /// The machine that acted.
    pub machine: u8,
    /// Whether it is a request to move that found the manager on its way.
    pub away: bool,
    /// Whether it delivered a packet that was delivered before.
    pub again: bool,
    /// The packets that it put: those from the first of these places on, before the second.
    pub first: usize,
    pub behind: usize,
}

/// A packet that was put.
#[derive(Clone, Copy)]
pub struct Put {
    pub from: u8,
    pub to: u8,
    pub k: u64,
    /// Whether it acknowledges.
    pub acks: bool,
}

/// The directives so far, and the packets that they put, each in order.
#[derive(Drop)]
pub struct Past {
    done: Vec<Done>,
    puts: Vec<Put>,
}

impl Past {
    /// Nothing is done yet.
    pub fn new(alloc: Global) -> Past
        ensures { IsPast result [] }
    {
        Past {
            done: Vec::new(alloc),
            puts: Vec::new(alloc),
        }
    }

    /// The directives that were done.
    pub fn done(&self) -> &[Done]
        ensures { result.now ≡ self.now.done.items }
    {
        self.done.as_slice()
    }

    /// The packets that were put.
    pub fn puts(&self) -> &[Put]
        ensures { result.now ≡ self.now.puts.items }
    {
        self.puts.as_slice()
    }

    /// A directive was done, by this machine, and has printed these lines.
    pub fn add(
        &mut self,
        step: Step,
        machine: u8,
        away: bool,
        lines: &[Line],
    ) -> Result<(), NoMemory>
        ensures { OnOk result ((ds : List Did) → IsPast self.old ds →
            IsPast self.new (record { step = step; machine = machine; away = away; lines = lines.now } ∷ ds)) }
    {
        let first = self.puts.len();
        let again = comes_again(self.done.as_slice(), step);
        add_puts(lines, &mut self.puts)?;
        let behind = self.puts.len();
        push(
            &mut self.done,
            Done {
                step,
                machine,
                away,
                again,
                first,
                behind,
            },
        )
    }

    /// The last directive is taken back.
    pub fn take_back(&mut self)
        ensures { (d : Did) (ds : List Did) → IsPast self.old (d ∷ ds) → IsPast self.new ds }
    {
        if let Some(last) = self.done.pop() {
            self.puts.truncate(last.first);
        }
    }
}

/// Whether a directive delivers a packet that was delivered before.
fn comes_again(done: &[Done], step: Step) -> bool
    ensures { (ds : List Did) → done.now ≡ noted ds → result ≡ comes_again ds step }
{
    match step {
        Step::Deliver { a, b, k } => was_delivered(done, a, b, k),
        _ => false,
    }
}

/// Whether packet `k` from `a` to `b` was delivered.
pub fn was_delivered(done: &[Done], a: u8, b: u8, k: u64) -> bool
    ensures { (ds : List Did) → done.now ≡ noted ds → result ≡ was_delivered ds a b k }
{
    for each in done {
        if delivers(each.step, a, b, k) {
            return true;
        }
    }
    false
}

/// Whether a directive delivers packet `k` from `a` to `b`.
fn delivers(step: Step, a: u8, b: u8, k: u64) -> bool
    ensures { result ≡ delivers a b k step }
{
    match step {
        Step::Deliver {
            a: from,
            b: to,
            k: n,
        } => a == from && b == to && k == n,
        _ => false,
    }
}

/// Adds the packets that these lines say were put.
fn add_puts(lines: &[Line], puts: &mut Vec<Put>) -> Result<(), NoMemory>
    ensures { OnOk result (puts.new.items ≡ puts.old.items ++ puts_in lines.now) }
{
    for line in lines {
        if let Line::Packet { from, to, k, load } = *line {
            let acks = acknowledges(load);
            push(puts, Put { from, to, k, acks })?;
        }
    }
    Ok(())
}

/// Whether a packet acknowledges.
fn acknowledges(load: Load) -> bool
    ensures { result ≡ acknowledges load }
{
    match load {
        Load::Data(_) => false,
        Load::Ack(_) => true,
    }
}
