//! Sessions: what a client's bytes ask for is asked of a door, and the answers go back as frames.
#![tactic(auto)]

mod door;
mod ending;
mod exchange;
mod input;
mod output;
mod serving;
mod session;

pub use door::{CallOutcome, Door};
pub use ending::Ending;
pub use exchange::Exchange;
pub use output::SessionOutput;
pub use session::session_run;
