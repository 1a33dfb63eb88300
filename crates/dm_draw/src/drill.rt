//! What a drill is drawn from.

/// What a drill is drawn from, and whether its groups are printed.
#[derive(Clone, Copy)]
pub struct Drill {
    pub seed: u32,
    /// 2 to 16.
    pub machines: u8,
    /// How many directives, 1 to 10,000.
    pub lines: u32,
    pub trace: bool,
}

/// What is written of a drill.
#[derive(Clone, Copy)]
pub enum Shows {
    /// Its summary.
    Summary,
    /// Its groups, and behind them the summary.
    Groups,
    /// Its directives, as a schedule; nothing is run.
    Directives,
}

/// What a drill of a boot file's system is drawn from, and what is written of it.
#[derive(Clone, Copy)]
pub struct OwnDrill {
    pub seed: u32,
    /// How many directives, 1 to 10,000.
    pub lines: u32,
    pub shows: Shows,
}
