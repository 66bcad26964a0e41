//! A manifest as the program is given it: read from its file with its blobs and what it goes on with;
//! and what a person is told where one of these, or a script's line, is at fault. It is proved safe,
//! and each of its functions returns; no contract says what is told.
#![tactic(auto)]

mod bad_line;
mod bad_manifest;
mod described;
mod explaining;
mod failure;
mod lines;
mod reading;

pub use bad_line::why_bad;
pub use described::{Described, STANDARD_INPUT, read_manifest};
pub use explaining::tell;
pub use failure::Failure;
