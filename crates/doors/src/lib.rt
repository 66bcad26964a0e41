//! Doors of sessions, by the mount that they stand before: the calls of a session are those of one
//! of its clients.
#![tactic(auto)]

pub mod endless;
pub mod owned;
pub mod shared;
