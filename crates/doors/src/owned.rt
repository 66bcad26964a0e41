//! A door over the core: the calls of a session are made by one client of a mount.
mod door;
mod running;
mod session;

pub use door::CoreDoor;
pub use running::run_session;
pub use session::CoreSession;
