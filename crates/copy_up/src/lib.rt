//! Directories that only lower layers have, placed in the upper before it is changed in them, and files and symbolic links copied up.
#![tactic(auto)]

mod altering;
mod filling;
mod leaves;
mod needs;
mod parents;

pub use altering::alter;
pub use filling::fill;
pub use leaves::{all_at_once, insert_leaf, mark_of, place_meta};
pub use needs::{Need, need_at, place_dir};
pub use parents::{insert_directory, place_parents, placed_or};
