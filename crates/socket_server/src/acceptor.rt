// Who takes the connections of a server that turns those away for whom no worker is free.
use crate::connection::Connection;
use crate::queue::Queue;
use crate::reports::Reports;
use ov_base::Errno;
use std::alloc::Global;
use std::io;
use std::io::{Eprint, ErrorKind};
use std::net::Shutdown;
use std::os::fd::OwnedFd;
use std::os::unix::net::{UnixListener, UnixStream};
use std::sync::{Condvar, Mutex, Wait};
use std::time::{Clock, Duration};

/// How many milliseconds pass until it is looked again who waits too long.
const GLANCE: u64 = 50;

/// Takes the connections of a listener in a thread of its own, and hands them to the workers of a
/// server. Who finds no worker free for a moment is told so, by EBUSY, and closed: up to 64 wait for
/// that moment, and further ones are told at once. It serves one server, whose listener takes no
/// connection any more when that ends.
#[derive(Drop)]
pub struct Acceptor {
    // The listener, by a descriptor of its own. Only a stream can be shut down, and have a limit.
    listener: UnixStream,
    queue: Mutex<Queue>,
    for_workers: Condvar,
    for_itself: Condvar,
}

impl Acceptor {
    /// For the connections of this listener.
    pub fn new(alloc: Global, listener: &UnixListener) -> io::Result<Acceptor> {
        let listener = UnixStream::from(OwnedFd::from(listener.try_clone()?));
        Ok(Acceptor {
            listener,
            queue: Mutex::new(Queue::new(alloc)?),
            for_workers: Condvar::new(),
            for_itself: Condvar::new(),
        })
    }

    /// The next connection for a worker, once there is one; or none can be taken.
    pub(crate) fn next(&self, rt: &impl Wait) -> io::Result<Connection> {
        let mut queue = self.queue.lock(rt);
        queue.comes_free();
        self.for_itself.notify_one();
        let taken = self
            .for_workers
            .wait_while(rt, queue, |queue| queue.is_quiet())
            .take();
        self.for_itself.notify_one();
        taken
    }

    /// Takes connections until the server has ended, and turns away those that it has to.
    pub(crate) fn accept_all<H: Wait + Clock + Eprint>(
        &self,
        rt: &H,
        listener: &UnixListener,
        reports: &Reports<'_, H>,
    ) {
        for _ in rt.forever() {
            let is_wanted = self.queue.lock(rt).is_wanted();
            match self.take(rt, listener) {
                Ok(connection) => self.admit(rt, connection, reports),
                Err(error) if error.kind() == ErrorKind::WouldBlock => (),
                Err(_) => self.meet_fault(rt, is_wanted),
            }
            self.look(rt, reports);
            if self.queue.lock(rt).is_closed {
                break;
            }
        }
    }

    /// The server has ended.
    pub(crate) fn close(&self, rt: &impl Wait) {
        self.queue.lock(rt).close();
        self.for_workers.notify_all();
        self.for_itself.notify_one();
        let _ = self.listener.shutdown(Shutdown::Read);
    }

    // The next connection of the listener. Where others wait, it comes soon or not at all.
    fn take<H: Wait>(&self, rt: &H, listener: &UnixListener) -> io::Result<Connection> {
        let limit = if self.queue.lock(rt).is_empty() {
            None
        } else {
            Some(Duration::from_millis(GLANCE))
        };
        self.listener.set_read_timeout(limit)?;
        Connection::take(listener)
    }

    // Lets a connection wait for a worker.
    fn admit<H: Wait + Clock + Eprint>(
        &self,
        rt: &H,
        connection: Connection,
        reports: &Reports<'_, H>,
    ) {
        let further = self.queue.lock(rt).put(rt, connection);
        self.for_workers.notify_one();
        if let Some(connection) = further {
            turn_away(connection, reports);
        }
    }

    // Turns away who has waited too long.
    fn look<H: Wait + Clock + Eprint>(&self, rt: &H, reports: &Reports<'_, H>) {
        for _ in rt.forever() {
            let overdue = self.queue.lock(rt).overdue(rt);
            match overdue {
                Some(connection) => turn_away(connection, reports),
                None => break,
            }
        }
    }

    // No connection can be taken. Where a worker waited for one before, it is told so, as where it tried
    // that by itself. Where none did it is tried again once one does, or in a moment.
    fn meet_fault<H: Wait + Clock>(&self, rt: &H, is_wanted: bool) {
        let mut queue = self.queue.lock(rt);
        queue.is_faulty = is_wanted;
        self.for_workers.notify_one();
        let moment = Duration::from_millis(GLANCE);
        let (mut queue, _) = self
            .for_itself
            .wait_timeout_while(rt, queue, moment, |queue| queue.is_as_before(is_wanted));
        queue.is_faulty = false;
    }
}

// Tells a connection that no worker is free. It ends with that.
fn turn_away<H: Wait + Eprint>(connection: Connection, reports: &Reports<'_, H>) {
    connection.refuse(Errno::EBUSY);
    drop(connection);
    reports.turns_away();
}
