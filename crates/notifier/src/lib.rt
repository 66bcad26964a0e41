//! What a mount keeps and notifies for watches: the objects that watches and handles pin, what each
//! handle is on, and the watches.
#![tactic(auto)]

mod bits;
mod changes;
mod clients;
mod kept;
mod moves;
mod names;
mod opens;
mod telling;
mod uses;
mod watches;

pub use bits::{
    ACCESS, ATTRIB, CLOSE_NOWRITE, CLOSE_WRITE, CREATE, DELETE, DELETE_SELF, ISDIR, MODIFY,
    MOVE_SELF, MOVED_FROM, MOVED_TO, OPEN,
};
pub use kept::Notifier;
