//! How far a picture has come with the lines.
ghost use Rattle.std.specs.Prelude.{◌≡◌, ◌≤◌, if◌then◌else◌};
ghost use Rattle.dm_link.specs.Names.{pid_eq};
ghost use Rattle.dm_onekernel.specs.Boot.{manager};
ghost use Rattle.dm_chart.specs.Spots.{acting_machine, first_spot, hidden_after, next_spot, one_less, one_row_more, seated, shown_spot, spot_after, with_row, without_row};

use crate::role::{Life, Role, role_of};
use dm_line::line::Line;
use dm_link::{MANAGER, Pid};
use dm_schedule::Step;

/// The most rows of a picture.
pub const MOST_ROWS: u32 = 1200;

/// Where a picture stands behind some lines.
#[derive(Clone, Copy)]
pub struct Spot {
    /// How many rows there are so far; the last one is the line's.
    pub row: u32,
    /// How many groups have begun.
    pub groups: u32,
    /// The directive of the group, and the machine that acts on it.
    pub step: Step,
    pub machine: u8,
    /// The machine where the process manager is, or was last.
    pub seat: u8,
    /// The group has a row.
    pub begun: bool,
    /// The last line put a message.
    pub own: bool,
    /// How many more lines stand before the first group that is shown.
    pub hidden: u64,
}

/// Before the first line, where so many lines stand before the first group that is shown.
pub fn first_spot(hidden: u64) -> Spot
    ensures { result ≡ first_spot hidden }
{
    Spot {
        row: 0,
        groups: 0,
        step: Step::Turn(0),
        machine: 0,
        seat: 0,
        begun: false,
        own: false,
        hidden,
    }
}

/// Behind one more line.
#[tactic(auto, unfolding(crate::specs::Spots::next_spot))]
pub fn next_spot(spot: Spot, line: &Line) -> Spot
    ensures spot { result ≡ next_spot spot line.now }
    ensures most { spot.row ≤ MOST_ROWS → result.row ≤ MOST_ROWS }
{
    if spot.hidden == 0 {
        shown_spot(spot, line)
    } else {
        hidden_after(spot, role_of(line))
    }
}

/// Behind one more line of a group that is shown.
#[tactic(auto, unfolding(crate::specs::Spots::shown_spot))]
pub fn shown_spot(spot: Spot, line: &Line) -> Spot
    ensures spot { result ≡ shown_spot spot line.now }
    ensures most { spot.row ≤ MOST_ROWS → result.row ≤ MOST_ROWS }
{
    spot_after(spot, role_of(line))
}

/// Behind a line of this role that stands before the first group that is shown: it has no row.
fn hidden_after(spot: Spot, role: Role) -> Spot
    ensures spot { result ≡ hidden_after spot role }
    ensures same { result.row ≡ spot.row }
{
    let less = one_less(spot);
    match role {
        Role::Head(step) => Spot {
            step,
            machine: machine_of(spot.seat, step),
            ..less
        },
        Role::Put(_) => Spot { own: true, ..less },
        Role::Note(life) => seated(less, life),
        Role::Packet { .. }
        | Role::Taken { .. }
        | Role::Early { .. }
        | Role::Again { .. }
        | Role::Unseen => less,
    }
}

/// One line less stands before the first group that is shown.
fn one_less(spot: Spot) -> Spot
    ensures { result ≡ one_less spot }
{
    Spot {
        own: false,
        hidden: spot.hidden.saturating_sub(1),
        ..spot
    }
}

/// Behind a line of this role.
pub fn spot_after(spot: Spot, role: Role) -> Spot
    ensures spot { result ≡ spot_after spot role }
    ensures most { spot.row ≤ MOST_ROWS → result.row ≤ MOST_ROWS }
{
    match role {
        Role::Head(step) => Spot {
            row: spot.row,
            groups: more(spot.groups),
            step,
            machine: machine_of(spot.seat, step),
            seat: spot.seat,
            begun: false,
            own: false,
            hidden: spot.hidden,
        },
        Role::Put(_) => with_row(spot, true),
        Role::Taken { .. } | Role::Early { .. } | Role::Again { .. } => with_row(spot, false),
        Role::Note(life) => with_row(seated(spot, life), false),
        Role::Packet { .. } => {
            if spot.begun {
                without_row(spot)
            } else {
                with_row(spot, false)
            }
        }
        Role::Unseen => without_row(spot),
    }
}

/// One row more.
fn with_row(spot: Spot, own: bool) -> Spot
    ensures spot { result ≡ with_row own spot }
    ensures most { result.row ≤ MOST_ROWS }
{
    Spot {
        row: more(spot.row),
        groups: spot.groups,
        step: spot.step,
        machine: spot.machine,
        seat: spot.seat,
        begun: true,
        own,
        hidden: spot.hidden,
    }
}

/// No row more.
fn without_row(spot: Spot) -> Spot
    ensures spot { result ≡ without_row spot }
    ensures same { result.row ≡ spot.row }
{
    Spot {
        row: spot.row,
        groups: spot.groups,
        step: spot.step,
        machine: spot.machine,
        seat: spot.seat,
        begun: spot.begun,
        own: false,
        hidden: spot.hidden,
    }
}

/// One more of what a picture has at most so many of.
pub fn more(n: u32) -> u32
    ensures more { result ≡ one_row_more n }
    ensures most { result ≤ MOST_ROWS }
{
    if n < MOST_ROWS { n + 1 } else { MOST_ROWS }
}

/// Where the process manager goes on after it moved, or stays, it is.
fn seated(spot: Spot, life: Life) -> Spot
    ensures spot { result ≡ seated life spot }
    ensures same { result.row ≡ spot.row }
{
    match life {
        Life::From(pid) => sits(spot, pid),
        Life::Same
        | Life::Made(_)
        | Life::Ends(_)
        | Life::Leaves(_)
        | Life::Served(_)
        | Life::Waits(_)
        | Life::Wakes(_) => spot,
    }
}

/// Where a process or a server goes on: the manager's seat, if it is the manager.
fn sits(spot: Spot, pid: Pid) -> Spot
    ensures spot { result ≡ record spot { seat = if pid_eq pid manager then spot.machine else spot.seat } }
    ensures same { result.row ≡ spot.row }
{
    if pid == MANAGER {
        Spot {
            seat: spot.machine,
            ..spot
        }
    } else {
        spot
    }
}

/// The machine that acts on a directive; a request to move is the process manager's, on the machine where that is.
fn machine_of(seat: u8, step: Step) -> u8
    ensures { result ≡ acting_machine seat step }
{
    match step {
        Step::Turn(m) => m,
        Step::Tick(m) => m,
        Step::Deliver { b, .. } => b,
        Step::Migrate { .. } => seat,
        Step::CallOff { at, .. } => at,
    }
}
