//! Scripts: the commands that lines spell, and the lines that answer them.
#![tactic(auto)]

mod escape;
mod flags;
mod lines;
mod numbers;
mod script;

pub use escape::{Escaped, EscapedWord, law_of_escapes};
pub use lines::{ReplyLine, StatWords};
pub use script::{BadCommand, CallText, Command, command_of};
