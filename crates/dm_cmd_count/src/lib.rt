//! The commands that count what happens: `count`, of a schedule of a boot file's system; and `drill`, of directives that are drawn from a
//! number, for a system that is drawn too or for that of a boot file.
#![tactic(auto)]

pub mod count;
pub mod drill;
pub mod own_drill;
