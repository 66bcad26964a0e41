//! What clients have open, how many handles hold each file of the upper, the places in an open
//! file where its calls begin, and what each handle is on for those that watch.
#![tactic(auto)]

mod descriptors;
mod handle;
mod open_file;
mod open_files;
mod tracked_client;
mod tracked_handles;

pub use descriptors::{DESCRIPTORS_MAX, Descriptors};
pub use handle::{Handle, OpenDirectory};
pub use open_file::{FileSource, OpenFile, PLACE_MAX, fitting, sought};
pub use open_files::OpenFiles;
pub use tracked_client::{TrackedHandle, Way};
pub use tracked_handles::TrackedHandles;
