//! Calls that give names to what has one.
#![tactic(auto)]

mod copies;
mod entries;
mod links;
mod moves;
mod names;
mod relation;
mod renames;
mod seen;

pub use links::{link, linkable};
pub use renames::{JudgedRename, Renamed, movable, rename};
