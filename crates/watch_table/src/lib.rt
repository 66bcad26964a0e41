//! The watches of clients: stored callbacks, what an event asks of them, and the queues of notices.
#![tactic(auto)]

mod hook;
mod listener;
mod listeners;
mod queue;
mod subject;
mod table;
mod watch;
mod watched_objects;

pub use hook::{AnyAnswer, Asked, Callback, Hook, Rule, copies_of};
pub use listener::{HOOKS_MAX, NotAttached};
pub use subject::{Aim, IGNORED, Subject};
pub use table::WatchTable;
pub use watch::Watch;
