//! The kinds of message: one table of their words and numbers.
ghost use Rattle.std.specs.Prelude.{◌≡◌};
ghost use Rattle.dm_message.specs.Kinds.{IsKindOfPlain, kind_numbered, kind_of, number_of, word_of};
ghost use Rattle.dm_message.specs.Plain.{plain_what};

use crate::What;

/// What kind of message it is.
#[derive(Clone, Copy)]
pub enum MessageKind {
    User,
    Stop,
    Resume,
    Kill,
    Read,
    Write,
    Block,
    Written,
    Gone,
    Create,
    Created,
    NoRoom,
    Migrate,
    Update,
    Ask,
    Refuse,
    PullState,
    State,
    PullBlock,
    Memory,
    AllTaken,
    Restart,
    Move,
    Moved,
    CallOff,
    Bury,
}

impl MessageKind {
    /// The word that stands for the kind in printed lines.
    pub fn word(self) -> &'static str
        ensures { result.now ≡ word_of self }
    {
        match self {
            MessageKind::User => "user",
            MessageKind::Stop => "stop",
            MessageKind::Resume => "resume",
            MessageKind::Kill => "kill",
            MessageKind::Read => "read",
            MessageKind::Write => "write",
            MessageKind::Block => "block",
            MessageKind::Written => "written",
            MessageKind::Gone => "gone",
            MessageKind::Create => "create",
            MessageKind::Created => "created",
            MessageKind::NoRoom => "noroom",
            MessageKind::Migrate => "migrate",
            MessageKind::Update => "update",
            MessageKind::Ask => "ask",
            MessageKind::Refuse => "refuse",
            MessageKind::PullState => "pullstate",
            MessageKind::State => "state",
            MessageKind::PullBlock => "pullblock",
            MessageKind::Memory => "memory",
            MessageKind::AllTaken => "alltaken",
            MessageKind::Restart => "restart",
            MessageKind::Move => "move",
            MessageKind::Moved => "moved",
            MessageKind::CallOff => "calloff",
            MessageKind::Bury => "bury",
        }
    }

    /// The number that stands for the kind in packets, 1 to 26.
    pub fn number(self) -> u8
        ensures { result ≡ number_of self }
    {
        match self {
            MessageKind::User => 1,
            MessageKind::Stop => 2,
            MessageKind::Resume => 3,
            MessageKind::Kill => 4,
            MessageKind::Read => 5,
            MessageKind::Write => 6,
            MessageKind::Block => 7,
            MessageKind::Written => 8,
            MessageKind::Gone => 9,
            MessageKind::Create => 10,
            MessageKind::Created => 11,
            MessageKind::NoRoom => 12,
            MessageKind::Migrate => 13,
            MessageKind::Update => 14,
            MessageKind::Ask => 15,
            MessageKind::Refuse => 16,
            MessageKind::PullState => 17,
            MessageKind::State => 18,
            MessageKind::PullBlock => 19,
            MessageKind::Memory => 20,
            MessageKind::AllTaken => 21,
            MessageKind::Restart => 22,
            MessageKind::Move => 23,
            MessageKind::Moved => 24,
            MessageKind::CallOff => 25,
            MessageKind::Bury => 26,
        }
    }

    /// The kind that has this number, if one has.
    pub fn numbered(number: u8) -> Option<MessageKind>
        ensures { result ≡ kind_numbered number }
    {
        let kind = match number {
            1 => MessageKind::User,
            2 => MessageKind::Stop,
            3 => MessageKind::Resume,
            4 => MessageKind::Kill,
            5 => MessageKind::Read,
            6 => MessageKind::Write,
            7 => MessageKind::Block,
            8 => MessageKind::Written,
            9 => MessageKind::Gone,
            10 => MessageKind::Create,
            11 => MessageKind::Created,
            12 => MessageKind::NoRoom,
            13 => MessageKind::Migrate,
            14 => MessageKind::Update,
            15 => MessageKind::Ask,
            16 => MessageKind::Refuse,
            17 => MessageKind::PullState,
            18 => MessageKind::State,
            19 => MessageKind::PullBlock,
            20 => MessageKind::Memory,
            21 => MessageKind::AllTaken,
            22 => MessageKind::Restart,
            23 => MessageKind::Move,
            24 => MessageKind::Moved,
            25 => MessageKind::CallOff,
            26 => MessageKind::Bury,
            _ => return None,
        };
        Some(kind)
    }
}

impl What {
    /// The kind of what is said.
    pub fn kind(&self) -> MessageKind
        ensures kind { result ≡ kind_of self.now }
        ensures plain { IsKindOfPlain self.now (plain_what self.now) }
    {
        match self {
            What::User { .. } => MessageKind::User,
            What::Stop => MessageKind::Stop,
            What::Resume => MessageKind::Resume,
            What::Kill => MessageKind::Kill,
            What::Read { .. } => MessageKind::Read,
            What::Write { .. } => MessageKind::Write,
            What::Block { .. } => MessageKind::Block,
            What::Written => MessageKind::Written,
            What::Gone => MessageKind::Gone,
            What::Create { .. } => MessageKind::Create,
            What::Created { .. } => MessageKind::Created,
            What::NoRoom => MessageKind::NoRoom,
            What::Migrate { .. } => MessageKind::Migrate,
            What::Update { .. } => MessageKind::Update,
            What::Ask { .. } => MessageKind::Ask,
            What::Refuse { .. } => MessageKind::Refuse,
            What::PullState { .. } => MessageKind::PullState,
            What::State { .. } => MessageKind::State,
            What::PullBlock { .. } => MessageKind::PullBlock,
            What::Memory { .. } => MessageKind::Memory,
            What::AllTaken { .. } => MessageKind::AllTaken,
            What::Restart { .. } => MessageKind::Restart,
            What::Move { .. } => MessageKind::Move,
            What::Moved { .. } => MessageKind::Moved,
            What::CallOff { .. } => MessageKind::CallOff,
            What::Bury { .. } => MessageKind::Bury,
        }
    }
}
