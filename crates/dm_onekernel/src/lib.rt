//! The kernel without machines: its definitions, the types that they share with the program, and how a process is made of an image.
#![tactic(auto)]

pub mod boot;
mod child;
pub mod label;
pub mod request;

pub use boot::{Boot, BootImage, BootMachine, BootProcess, Format};
pub use child::child_of;
pub use label::{Label, Reply, Why};
pub use request::PendingKind;
