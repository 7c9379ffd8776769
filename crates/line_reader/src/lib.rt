//! The lines of an input, read in pieces. Of a line no more is held than shows that it is too long.
#![tactic(auto)]

mod ahead;
mod fault;
mod reader;

pub use ahead::{Ahead, INPUT_LIMIT};
pub use fault::LineFault;
pub use reader::{Heard, LINE_LIMIT, next_line};
