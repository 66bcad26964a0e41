// What the lines of a script ask of a mount that threads share, whatever it keeps of its history.
use locked_history::{Refused, Session};
use ov_base::{Call, Errno};
use std::sync::Wait;

/// A mount that threads share, the hooks of its clients, and what it handed out for all that was
/// done on it. Where memory runs out nothing is handed out.
pub trait SharedMount {
    /// Attaches a client with copies of the hooks.
    fn attach<H: Wait>(&mut self, rt: &H) -> Result<Session, Errno>;

    /// Detaches a session's client; false where it is refused.
    fn detach<H: Wait>(&mut self, rt: &H, session: Session) -> bool;

    /// Makes a session's call, and gives the line of the reply to its client, of this number.
    fn call<H: Wait>(
        &mut self,
        rt: &H,
        session: &mut Session,
        client: u32,
        call: Call,
    ) -> Result<String, Refused>;
}
