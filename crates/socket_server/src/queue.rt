// The connections that wait for a worker, where others are turned away.
use crate::connection::Connection;
use circular_buffer::HeapCircularBuffer;
use std::alloc::{AllocError, Global};
use std::io;
use std::io::ErrorKind;
use std::time::{Clock, Duration, Instant};

/// How many connections wait at most.
const WAITING_MOST: usize = 64;

/// How many milliseconds one waits for a worker: one whose client has left is free in a moment.
const PATIENCE: u64 = 200;

// A connection without a worker, and since when, if the clock could be read.
#[derive(Drop)]
struct Waiting {
    connection: Connection,
    since: Option<Instant>,
}

/// The connections that wait, how many workers do, whether no connection can be taken, which is to
/// be told to a worker, and whether no more come.
#[derive(Drop)]
pub(crate) struct Queue {
    waiting: HeapCircularBuffer<Waiting>,
    free: usize,
    pub(crate) is_faulty: bool,
    pub(crate) is_closed: bool,
}

impl Queue {
    /// An empty one.
    pub(crate) fn new(alloc: Global) -> Result<Queue, AllocError> {
        Ok(Queue {
            waiting: HeapCircularBuffer::with_capacity(alloc, WAITING_MOST)?,
            free: 0,
            is_faulty: false,
            is_closed: false,
        })
    }

    /// Whether no connection waits.
    pub(crate) fn is_empty(&self) -> bool {
        self.waiting.is_empty()
    }

    /// Whether there is nothing for a worker yet.
    pub(crate) fn is_quiet(&self) -> bool {
        self.waiting.is_empty() && !self.is_faulty && !self.is_closed
    }

    /// Whether a worker waits.
    pub(crate) fn is_wanted(&self) -> bool {
        self.free > 0
    }

    /// Whether a worker that was to be told of a fault wasn't yet, or where none waited none does.
    pub(crate) fn is_as_before(&self, was_wanted: bool) -> bool {
        if was_wanted {
            self.is_faulty && !self.is_closed
        } else {
            self.free == 0 && !self.is_closed
        }
    }

    /// A worker begins to wait.
    pub(crate) fn comes_free(&mut self) {
        self.free = self.free.saturating_add(1);
    }

    /// A worker waits no more: it has the connection that came first, or can have none.
    pub(crate) fn take(&mut self) -> io::Result<Connection> {
        self.free = self.free.saturating_sub(1);
        match self.waiting.pop_front() {
            Some(waiting) => Ok(waiting.connection),
            None => {
                self.is_faulty = false;
                Err(io::Error::from(ErrorKind::Other))
            }
        }
    }

    /// A connection came; it is handed back where too many wait, and let go where no more are to come.
    pub(crate) fn put<C: Clock>(
        &mut self,
        clock: &C,
        connection: Connection,
    ) -> Option<Connection> {
        if self.is_closed {
            drop(connection);
            return None;
        }
        let since = Instant::now(clock).ok();
        match self.waiting.try_push_back(Waiting { connection, since }) {
            Ok(()) => None,
            Err(waiting) => Some(waiting.connection),
        }
    }

    /// The connection that came first, where it has waited too long, and no worker is about to take it.
    pub(crate) fn overdue<C: Clock>(&mut self, clock: &C) -> Option<Connection> {
        if self.free > 0 || !self.waiting.front()?.is_overdue(clock) {
            return None;
        }
        Some(self.waiting.pop_front()?.connection)
    }

    /// No more come, and those that wait are let go.
    pub(crate) fn close(&mut self) {
        self.is_closed = true;
        self.waiting.clear();
    }
}

impl Waiting {
    // Whether it has waited too long.
    fn is_overdue<C: Clock>(&self, clock: &C) -> bool {
        let Some(since) = self.since else {
            return true;
        };
        match since.elapsed(clock) {
            Ok(waited) => waited >= Duration::from_millis(PATIENCE),
            Err(_) => true,
        }
    }
}
