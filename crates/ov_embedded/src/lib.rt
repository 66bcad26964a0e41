//! A mount in its embedder's own process: what a C library has for each of its calls, over values
//! and slices alone.
#![tactic(auto)]

mod answering;
mod copying;
mod given_keys;
mod going_on;
mod handle;
mod manifest;
mod mounted;
mod moving;
mod naming;
mod outcome;
mod placing;
mod saving;
mod stepping;
mod through;
mod through_jobs;
mod through_uppers;
mod unboxed;

pub use handle::Handle;
pub use mounted::Mounted;
pub use naming::blob_names;
pub use outcome::Outcome;
pub use saving::Saved;
pub use through::{
    attach_through, call_through, detach_through, mount_core_through, mount_through, reply_through,
    unmount_through,
};
pub use through_jobs::{
    begin_through, drop_through, place_through, read_through, step_through, write_through,
};
pub use through_uppers::{layer_through, mount_on_through, save_through, saved_through};
