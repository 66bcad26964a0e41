// Where workers get their connections.
use crate::acceptor::Acceptor;
use crate::connection::Connection;
use std::io;
use std::os::unix::net::UnixListener;
use std::sync::Wait;

/// A listener, and who takes its connections for the workers, if anybody does.
#[derive(Drop)]
pub(crate) struct Entrance<'a> {
    pub(crate) listener: &'a UnixListener,
    pub(crate) acceptor: Option<&'a Acceptor>,
}

impl Entrance<'_> {
    /// The next connection, once there is one for this worker.
    pub(crate) fn next(&self, rt: &impl Wait) -> io::Result<Connection> {
        match self.acceptor {
            Some(acceptor) => acceptor.next(rt),
            None => Connection::take(self.listener),
        }
    }
}
