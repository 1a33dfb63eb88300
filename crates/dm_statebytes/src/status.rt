//! What a process does when it is served, without what it needs for that.

/// Each kind of status has a number in state bytes.
#[derive(Clone, Copy)]
pub enum StatusKind {
    Ready,
    Waiting,
    Moving,
}
