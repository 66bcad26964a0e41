//! A mount that many threads share and that keeps no entry of its history: one lock round the core
//! and the length of a history that is there for contracts alone.
#![tactic(auto)]

mod blank;
mod book;
mod mount;
mod recorded;

pub use blank::Blank;
pub use book::{Book, BookName, Front};
pub use mount::EndlessMount;
pub use recorded::{Answered, ENTRIES_MAX, Pending, Recorded};
