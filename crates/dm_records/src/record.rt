//! What a machine knows of one process.
ghost use Rattle.std.specs.Prelude.{◌≡◌};
ghost use Rattle.std.specs.Borrow.{sem};
ghost use Rattle.std.specs.Option.{option_copied, option_copied_mut};
ghost use Rattle.dm_records.specs.Lent.{LendsArriving, LendsLeaving, LendsProcess};
ghost use Rattle.dm_records.specs.Records.{arriving_of, leaving_of, process_of};

/// What a machine knows of a process: `H` is a process that is here, `L` one that leaves, `A` one that arrives.
#[derive(Drop)]
pub enum Record<H, L, A> {
    /// It is here.
    Here(H),
    /// It is here, but leaves, and doesn't run (1983).
    Frozen(L),
    /// Parts of it have come from another machine (1983).
    Incoming(A),
    /// It has gone on to machine `at`, 0 to 15, by its move number `moves`; that is all that is kept of it, until it ends (1983).
    Forward { at: u8, moves: u32 },
}

impl<H, L, A> Record<H, L, A> {
    /// The process, if it is here, for writing.
    pub fn here_mut(&mut self) -> Option<&mut H>
        ensures* writes_back { sem 𝓛 (LendsProcess H.row L.row A.row self.entry result) }
        ensures value { option_copied_mut result ≡ process_of self.old }
    {
        match self {
            Record::Here(process) => Some(process),
            Record::Frozen(_) => None,
            Record::Incoming(_) => None,
            Record::Forward { .. } => None,
        }
    }
    /// The process, if it leaves, for writing.
    pub fn frozen_mut(&mut self) -> Option<&mut L>
        ensures* writes_back { sem 𝓛 (LendsLeaving H.row L.row A.row self.entry result) }
        ensures value { option_copied_mut result ≡ leaving_of self.old }
    {
        match self {
            Record::Here(_) => None,
            Record::Frozen(leaving) => Some(leaving),
            Record::Incoming(_) => None,
            Record::Forward { .. } => None,
        }
    }
    /// What has come of the process, if parts have come, for writing.
    pub fn incoming_mut(&mut self) -> Option<&mut A>
        ensures* writes_back { sem 𝓛 (LendsArriving H.row L.row A.row self.entry result) }
        ensures value { option_copied_mut result ≡ arriving_of self.old }
    {
        match self {
            Record::Here(_) => None,
            Record::Frozen(_) => None,
            Record::Incoming(arriving) => Some(arriving),
            Record::Forward { .. } => None,
        }
    }

    /// The process, if it is here.
    pub fn here(&self) -> Option<&H>
        ensures { option_copied result ≡ process_of self.now }
    {
        match self {
            Record::Here(process) => Some(process),
            Record::Frozen(_) => None,
            Record::Incoming(_) => None,
            Record::Forward { .. } => None,
        }
    }

    /// The process, if it leaves.
    pub fn frozen(&self) -> Option<&L>
        ensures { option_copied result ≡ leaving_of self.now }
    {
        match self {
            Record::Here(_) => None,
            Record::Frozen(leaving) => Some(leaving),
            Record::Incoming(_) => None,
            Record::Forward { .. } => None,
        }
    }

    /// What has come of the process, if parts have come.
    pub fn incoming(&self) -> Option<&A>
        ensures { option_copied result ≡ arriving_of self.now }
    {
        match self {
            Record::Here(_) => None,
            Record::Frozen(_) => None,
            Record::Incoming(arriving) => Some(arriving),
            Record::Forward { .. } => None,
        }
    }

    /// The process, if it is here.
    pub fn into_here(self) -> Option<H>
    where
        L: Drop,
        A: Drop,
        ensures { result ≡ process_of self }
    {
        match self {
            Record::Here(process) => Some(process),
            Record::Frozen(_) => None,
            Record::Incoming(_) => None,
            Record::Forward { .. } => None,
        }
    }

    /// The process, if it leaves.
    pub fn into_frozen(self) -> Option<L>
    where
        H: Drop,
        A: Drop,
        ensures { result ≡ leaving_of self }
    {
        match self {
            Record::Here(_) => None,
            Record::Frozen(leaving) => Some(leaving),
            Record::Incoming(_) => None,
            Record::Forward { .. } => None,
        }
    }

    /// What has come of the process, if parts have come.
    pub fn into_incoming(self) -> Option<A>
    where
        H: Drop,
        L: Drop,
        ensures { result ≡ arriving_of self }
    {
        match self {
            Record::Here(_) => None,
            Record::Frozen(_) => None,
            Record::Incoming(arriving) => Some(arriving),
            Record::Forward { .. } => None,
        }
    }
}
