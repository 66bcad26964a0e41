//! The files of a server: its socket, the status that it writes, and the upper that it saves.
#![tactic(auto)]

mod listening;
mod replacing;
mod saving;
mod status;

pub use listening::{acceptor_of, hold_standard, listen};
pub use saving::Saver;
pub use status::Status;
