//! The server of a mount on a Unix socket: worker threads, each of which serves one connection at a
//! time as a client of the mount.
#![tactic(auto)]

mod acceptor;
mod closing;
mod connection;
mod counts;
mod endless_service;
mod endless_serving;
mod entrance;
mod frame_place;
mod guard;
mod history_marks;
mod keeper;
mod lines;
mod queue;
mod reports;
mod requests;
mod served;
mod service;
mod serving;
mod shared_service;
mod tally;
mod threads;
mod worker;
mod workers;

pub use acceptor::Acceptor;
pub use closing::Closing;
pub use counts::{Counted, Counts};
pub use endless_serving::{serve_endless, serve_endless_on};
pub use keeper::Keeper;
pub use reports::Reports;
pub use served::Served;
pub use serving::{ServeOptions, serve_blank, serve_mount, serve_on};
