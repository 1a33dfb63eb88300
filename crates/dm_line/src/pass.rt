//! The passes that directives make over all machines.

/// A pass over all machines: of each ordered pair the packets arrive that were never delivered, and then machines take
/// their turns.
#[derive(Clone, Copy)]
pub enum Pass {
    /// Each machine takes its turn; so many rounds come behind this one.
    Round(u32),
    /// Each machine that has mail takes its turn. The passes of a settle are over where nothing is on its way any more.
    Settle,
    /// Each machine that has mail, or a process that can be served, takes its turn; at most so many passes come behind this
    /// one. They are over where all is at rest: nothing is on its way any more, and no process can be served.
    Rest(u32),
}
