//! How things look: the classes of the style sheet.
ghost use Rattle.std.specs.Prelude.{◌≡◌};
ghost use Rattle.dm_chart.specs.Styles.{arrow_class, label_class, loop_name, style_again, style_of, tint};

use dm_message::MessageKind;
use dm_schedule::Step;

/// How an arrow looks.
#[derive(Clone, Copy)]
pub enum Style {
    /// A process's or a server's own message.
    User,
    /// An order to a process, a data move, or the making of a process.
    Service,
    /// A message of a migration.
    Moving,
    /// Links are told where a process is.
    Update,
    /// A message that was put before goes on: it is forwarded, or sent on.
    Onward,
    /// A message that was put before goes back, since its receiver's migration is called off.
    Back,
}

/// How the arrow of a message looks that was put before, by the directive of its group.
fn style_again(step: Step) -> Style
    ensures { result ≡ style_again step }
{
    match step {
        Step::Turn(_) | Step::Tick(_) | Step::Deliver { .. } | Step::Migrate { .. } =>
            Style::Onward,
        Step::CallOff { .. } => Style::Back,
    }
}

/// How the arrow of a message looks, by the directive of its group; `again` where it was put before.
pub fn style_of(step: Step, kind: MessageKind, again: bool) -> Style
    ensures { result ≡ style_of step kind again }
{
    if again {
        return style_again(step);
    }
    match kind {
        MessageKind::User => Style::User,
        MessageKind::Stop
        | MessageKind::Resume
        | MessageKind::Kill
        | MessageKind::Read
        | MessageKind::Write
        | MessageKind::Block
        | MessageKind::Written
        | MessageKind::Gone
        | MessageKind::Create
        | MessageKind::Created
        | MessageKind::NoRoom => Style::Service,
        MessageKind::Update => Style::Update,
        MessageKind::Migrate
        | MessageKind::Ask
        | MessageKind::Refuse
        | MessageKind::PullState
        | MessageKind::State
        | MessageKind::PullBlock
        | MessageKind::Memory
        | MessageKind::AllTaken
        | MessageKind::Restart
        | MessageKind::Move
        | MessageKind::Moved
        | MessageKind::CallOff
        | MessageKind::Bury => Style::Moving,
    }
}

/// The class of an arrow.
pub fn arrow_class(style: Style) -> &'static str
    ensures { result.now ≡ arrow_class style }
{
    match style {
        Style::User => "k0",
        Style::Service => "k1",
        Style::Moving => "k2",
        Style::Update => "k3",
        Style::Onward => "k4",
        Style::Back => "k5",
    }
}

/// The arrow of a message to its own machine.
pub fn loop_name(style: Style) -> &'static str
    ensures { result.now ≡ loop_name style }
{
    match style {
        Style::User => "#l0",
        Style::Service => "#l1",
        Style::Moving => "#l2",
        Style::Update => "#l3",
        Style::Onward => "#l4",
        Style::Back => "#l5",
    }
}

/// The class of an arrow's words.
pub fn label_class(style: Style) -> &'static str
    ensures { result.now ≡ label_class style }
{
    match style {
        Style::User => "n0",
        Style::Service => "n1",
        Style::Moving => "n2",
        Style::Update => "n3",
        Style::Onward => "n4",
        Style::Back => "n5",
    }
}

/// The colour of a process, by its lane: each of the twelve has its own.
pub fn tint(lane: usize) -> &'static str
    ensures { result.now ≡ tint lane }
{
    match lane {
        0 => "#5c6bc0",
        1 => "#ef6c00",
        2 => "#26a69a",
        3 => "#ec407a",
        4 => "#8d6e63",
        5 => "#7cb342",
        6 => "#ffb300",
        7 => "#546e7a",
        8 => "#ab47bc",
        9 => "#29b6f6",
        10 => "#c0ca33",
        _ => "#d32f2f",
    }
}
