//! What the process manager asks of kernels and processes.

/// What a request of the process manager asks for, one that it waits for an answer to.
#[derive(Clone, Copy)]
pub enum PendingKind {
    /// That a process be made.
    Create,
    /// That a child move to another machine.
    Move,
}
