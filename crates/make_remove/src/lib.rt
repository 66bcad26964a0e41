//! Calls that make and remove names.
#![tactic(auto)]

mod directories;
mod freeing;
mod leaves;
mod objects;
mod removals;
mod seen;

pub use directories::mkdir;
pub use freeing::free;
pub use leaves::{create, symlink};
pub use objects::vacant;
pub use removals::{leaf_at, released, removable, rmdir, unlink};
pub use seen::{Seen, found_in, there};
