//! The assembler of the register machine.
#![tactic(auto)]

mod assembler;
pub mod calls;
pub mod forms;
mod image;
pub mod labels;
pub mod laws;
pub mod lines;
pub mod numbers;
mod one_label;
pub mod operands;
mod refusals;
mod statements;
mod texts;

pub use assembler::assemble;
pub use image::Image;
pub use one_label::label_address;
pub use refusals::{AssembleError, Why};
pub use texts::text_operand;
