// How a server is ended by another thread than its workers.
use ov_base::Errno;
use slab::Slab;
use std::alloc::Global;
use std::io;
use std::net::Shutdown;
use std::os::fd::OwnedFd;
use std::os::unix::net::{UnixListener, UnixStream};
use std::sync::atomic::{AtomicBool, Ordering};
use std::sync::{Mutex, Wait};

/// Ends a server: once it is closed no connection is taken any more, a call on its way is stopped at
/// its next step, and who sends nothing is detached.
#[derive(Drop)]
pub struct Closing {
    closed: AtomicBool,
    // The listener, by a descriptor of its own. Only a stream can be shut down.
    listener: UnixStream,
    // The connections that workers have, by descriptors of their own.
    connections: Mutex<Slab<UnixStream>>,
}

impl Closing {
    /// For so many workers, who take the connections of this listener.
    pub fn new(alloc: Global, listener: &UnixListener, workers: usize) -> io::Result<Closing> {
        let listener = UnixStream::from(OwnedFd::from(listener.try_clone()?));
        Ok(Closing {
            closed: AtomicBool::new(false),
            listener,
            connections: Mutex::new(Slab::with_capacity(alloc, workers)?),
        })
    }

    /// Closes the server. A worker that waits for a connection, or for its client to send something,
    /// waits no longer.
    pub fn close(&self, rt: &impl Wait) {
        self.closed.store(true, Ordering::SeqCst);
        let _ = self.listener.shutdown(Shutdown::Read);
        self.shut_down(rt, Shutdown::Read);
    }

    /// Gives up what clients haven't taken: a worker that waits for its client to read something waits
    /// no longer.
    pub fn cut(&self, rt: &impl Wait) {
        self.shut_down(rt, Shutdown::Both);
    }

    /// Whether the server is closed.
    pub(crate) fn is_closed(&self) -> bool {
        self.closed.load(Ordering::SeqCst)
    }

    /// A worker has a connection, which is kept under this key: EMFILE where there is no descriptor
    /// for it, and ENOMEM where there is no memory.
    pub(crate) fn enters(&self, rt: &impl Wait, connection: &UnixStream) -> Result<usize, Errno> {
        let Ok(connection) = connection.try_clone() else {
            return Err(Errno::EMFILE);
        };
        let mut connections = self.connections.lock(rt);
        if self.is_closed() {
            let _ = connection.shutdown(Shutdown::Read);
        }
        match connections.insert(connection) {
            Ok(key) => Ok(key),
            Err(_) => Err(Errno::ENOMEM),
        }
    }

    /// A worker hasn't the connection of this key any more.
    pub(crate) fn leaves(&self, rt: &impl Wait, key: usize) {
        let _ = self.connections.lock(rt).try_remove(key);
    }

    // Shuts all connections down.
    fn shut_down(&self, rt: &impl Wait, how: Shutdown) {
        for (_, connection) in self.connections.lock(rt).iter() {
            let _ = connection.shutdown(how);
        }
    }
}
