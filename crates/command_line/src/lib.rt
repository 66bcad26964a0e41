//! The command line of the program, the texts of its help, and why words ask for nothing.
#![tactic(auto)]

mod arguments;
mod help_texts;
mod usage_fault;

pub use arguments::{Invocation, Playing, Serving, Source, command_line};
pub use usage_fault::UsageFault;
