//! A mount that many threads share: one lock round the core and its history, and a row of cells,
//! one for each place of the history and each set once.
#![tactic(auto)]

mod blank;
mod entry;
mod gate;
mod lock;
mod locked;
mod mount;
mod mount_name;
mod past;
mod receipt;
mod row;
mod session;

pub use blank::Blank;
pub use entry::{Deed, Entry, tags_of};
pub use gate::{Gate, Open, Pass};
pub use lock::lock_soon;
pub use locked::{Arrival, Locked, Pending};
pub use mount::Mount;
pub use mount_name::MountName;
pub use past::Past;
pub use receipt::Receipt;
pub use session::{Refused, Session};
