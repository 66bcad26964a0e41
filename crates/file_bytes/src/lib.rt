//! A file's bytes in pieces that several files share until one of them writes.
#![tactic(auto)]

mod file;
mod grid;
mod held;
mod laying;
mod patched;
mod piece;
mod stored;
mod stretch;

pub use file::FileBytes;
