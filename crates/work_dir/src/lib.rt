//! The work directory: the open jobs with the copies that they began, and the step that a call
//! makes next.
#![tactic(auto)]

mod limits;
mod next;
mod table;
mod temp;

pub use limits::{BEGINS_MAX, CHUNK, CHUNKS_MAX, PLACINGS_MAX, SMALL_MAX, STEPS_MAX, chunk_of};
pub use next::{Lack, Next, next_after};
pub use table::{OpenJob, WorkDir};
pub use temp::Temp;
