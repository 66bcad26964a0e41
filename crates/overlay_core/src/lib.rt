//! The core: a mount with the clients on it and their watches, whose calls are steps of the plain machine.
#![tactic(auto)]

mod arm_calls;
mod attribute_notices;
mod blank_upper;
mod client_notices;
mod finishing;
mod job;
mod mount_faults;
mod mounted;
mod move_notices;
mod name_notices;
mod open_notices;
mod perform;
mod refusals;
mod run_laws;
mod schedule;
mod stepping;
mod turn;
mod use_notices;
mod waiting;
mod watch_calls;
mod watched;

pub use blank_upper::upper_over;
pub use job::{Job, Standing};
pub use mount_faults::MountFault;
pub use mounted::{Core, LOOK_UPS_KEPT, Unmounted};
pub use run_laws::{law_of_links, law_of_whole_runs};
pub use schedule::drive;
pub use turn::Turn;
pub use watched::Watched;
