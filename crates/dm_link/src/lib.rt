//! Names of processes, their addresses, and links.
#![tactic(auto)]

ghost use Rattle.std.specs.Prelude.{◌≡◌};
ghost use Rattle.dm_link.specs.Places.{is_behind, kernel_at, relocated, relocated_link, retargeted, retargeted_link};
ghost use Rattle.dm_link.specs.Plain.{PlainLink, plain_link};

/// How many machines a system has at most; they are numbered from 0.
pub const MACHINES: u8 = 16;

/// The number of the first process that a machine makes.
pub const FIRST_NUMBER: u32 = 3;

/// The switchboard (1977).
pub const SWITCHBOARD: Pid = Pid { home: 0, num: 1 };

/// The process manager (1977).
pub const MANAGER: Pid = Pid { home: 0, num: 2 };

/// The greatest channel; they are numbered from 0.
pub const LAST_CHANNEL: u8 = 31;

/// The name of a process: the machine that made it, and its number there. It never changes.
///
/// Number 0 is the machine's kernel; 0.1 is the switchboard and 0.2 the process manager; others count from 3.
#[derive(Clone, Copy, Default, PartialEq, Eq, PartialOrd, Ord)]
pub struct Pid {
    /// The machine, 0 to 15.
    pub home: u8,
    pub num: u32,
}

/// Where a process was last known to be (1983): the machine, and how often the process had moved when it came there.
#[derive(Clone, Copy, Default)]
pub struct Addr {
    pub pid: Pid,
    /// The machine, 0 to 15; it may be stale.
    pub at: u8,
    pub moves: u32,
}

/// A general link may be used and copied at will, a reply link serves for one message (1977).
#[derive(Clone, Copy, Default, PartialEq, Eq)]
pub enum Kind {
    #[default]
    General,
    Reply,
}

/// A part of the memory of a link's creator, and what its holder may do there (1977).
#[derive(Clone, Copy, Default, PartialEq, Eq)]
pub struct Area {
    /// The first byte's address; `base + len` is at most 65,536.
    pub base: u32,
    pub len: u32,
    pub read: bool,
    pub write: bool,
}

/// The right to send to a process, with what its creator wrote into it (1977).
#[derive(Clone, Copy, Default)]
pub struct Link {
    pub addr: Addr,
    pub kind: Kind,
    /// The message is for the kernel of the machine where the process is (1983).
    pub to_kernel: bool,
    /// The receiver gets it with each message.
    pub code: u32,
    /// 0 to 31: the receiver picks messages by it.
    pub channel: u8,
    pub area: Area,
}

/// A value that leads to a process, and means the same wherever that process is.
pub trait Placeless {
    ghost Plain: { Type 0 };

    ghost plain: { Self → Plain };

    /// Leads to the same process at another place: a machine, and the count of moves after which it came there.
    fn relocate(&mut self, at: u8, moves: u32)
        ensures { plain self.new ≡ plain self.old };
}

impl Addr {
    /// Where the kernel of a machine is, which never moves.
    pub fn of_kernel(machine: u8) -> Addr
        ensures { result ≡ kernel_at machine }
    {
        Addr {
            pid: Pid {
                home: machine,
                num: 0,
            },
            at: machine,
            moves: 0,
        }
    }

    /// Follows the process to a machine where the address knows fewer moves of it than these; whether it did.
    pub fn retarget(&mut self, about: Pid, at: u8, moves: u32) -> bool
        ensures addr { self.new ≡ retargeted about at moves self.old }
        ensures changed { result ≡ is_behind about moves self.old }
    {
        let behind = self.pid == about && self.moves < moves;
        if behind {
            self.at = at;
            self.moves = moves;
        }
        behind
    }
}

impl Link {
    /// Follows the process to a machine where the link knows fewer moves of it than these; whether it did.
    pub fn retarget(&mut self, about: Pid, at: u8, moves: u32) -> bool
        ensures link { self.new ≡ retargeted_link about at moves self.old }
        ensures changed { result ≡ is_behind about moves self.old.addr }
        ensures plain { plain_link self.new ≡ plain_link self.old }
    {
        self.addr.retarget(about, at, moves)
    }
}

impl Placeless for Addr {
    ghost use Rattle.dm_link.specs.declared.Pid.{Pid};
    ghost use Rattle.dm_link.specs.Places.{relocated};
    ghost use Rattle.std.specs.Prelude.{◌≡◌};

    ghost Plain = { Pid };

    ghost plain = { λ a. a.pid };

    fn relocate(&mut self, at: u8, moves: u32)
        ensures place { self.new ≡ relocated at moves self.old }
        ensures plain { self.new.pid ≡ self.old.pid }
    {
        self.at = at;
        self.moves = moves;
    }
}

impl Placeless for Link {
    ghost Plain = { PlainLink };

    ghost plain = { plain_link };

    fn relocate(&mut self, at: u8, moves: u32)
        ensures place { self.new ≡ relocated_link at moves self.old }
        ensures plain { plain_link self.new ≡ plain_link self.old }
    {
        self.addr.relocate(at, moves);
    }
}
