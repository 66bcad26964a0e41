// What a server tells on standard error, and its counts.
use crate::counts::Counts;
use crate::history_marks::HistoryMarks;
use crate::lines::{Line, Waiting};
use crate::service::Places;
use ov_base::Errno;
use ov_session::Ending;
use std::alloc::{AllocError, Global};
use std::io::Eprint;
use std::sync::atomic::{AtomicBool, AtomicU64, Ordering};
use std::sync::{Condvar, Mutex, Wait};

/// How many lines wait at most to be told.
const LINES_MOST: usize = 1_024;

/// What the workers of a server tell and count. Their lines wait for a thread that tells them, so
/// that a standard error that nobody reads stops no worker; those that are too many are lost, and
/// counted. Each line is written at once, and one that can't be written is lost.
#[derive(Drop)]
pub struct Reports<'r, E: Eprint + Wait> {
    rt: &'r E,
    verbose: bool,
    waiting: Mutex<Waiting>,
    changed: Condvar,
    sessions: AtomicU64,
    calls: AtomicU64,
    turned_away: AtomicU64,
    counts: Option<&'r Counts>,
    history: HistoryMarks,
    failed: AtomicBool,
}

impl<'r, E: Eprint + Wait> Reports<'r, E> {
    /// Reports to this standard error; only a failure is told unless they are verbose.
    pub fn new(rt: &'r E, alloc: Global, verbose: bool) -> Result<Reports<'r, E>, AllocError> {
        let most = if verbose { LINES_MOST } else { 0 };
        Ok(Reports {
            rt,
            verbose,
            waiting: Mutex::new(Waiting::new(alloc, most)?),
            changed: Condvar::new(),
            sessions: AtomicU64::new(0),
            calls: AtomicU64::new(0),
            turned_away: AtomicU64::new(0),
            counts: None,
            history: HistoryMarks::new(),
            failed: AtomicBool::new(false),
        })
    }

    /// The same, which count for another thread too, if that is asked for.
    pub(crate) fn counting(self, counts: Option<&'r Counts>) -> Reports<'r, E> {
        let mut reports = self;
        reports.counts = counts;
        reports
    }

    /// The server can be connected to.
    pub fn listens(&self, socket: &str, workers: usize) {
        if self.verbose {
            let _ = self.rt.eprint(format_args!(
                "overlayd: listening on {socket}, workers: {workers}\n"
            ));
        }
    }

    /// So many workers serve, since the system gives no more threads, of those that were asked for.
    pub(crate) fn lacks(&self, serving: usize, asked: usize) {
        if self.verbose {
            let _ = self.rt.eprint(format_args!(
                "overlayd: {serving} of {asked} workers serve: the system gives no more threads\n"
            ));
        }
    }

    /// A connection came. Sessions are numbered from 1.
    pub fn comes(&self) -> u64 {
        if let Some(counts) = self.counts {
            counts.comes();
        }
        self.sessions
            .fetch_add(1, Ordering::SeqCst)
            .saturating_add(1)
    }

    /// A session began.
    pub fn begins(&self, session: u64, client: u64) {
        self.history.comes();
        if let Some(counts) = self.counts {
            counts.attaches();
        }
        self.put(Line::Begins { session, client });
    }

    /// A session's client was not attached.
    pub fn refuses(&self, session: u64, errno: Errno) {
        if let Some(counts) = self.counts {
            counts.refuses();
        }
        self.put(Line::IsNotAttached { session, errno });
    }

    /// A session ended, as it did or since its connection waited too long.
    pub fn ends(&self, session: u64, calls: u64, ending: Ending, timed_out: bool) {
        self.calls.fetch_add(calls, Ordering::SeqCst);
        self.history.goes();
        if let Some(counts) = self.counts {
            counts.ends();
        }
        self.put(Line::Ends {
            session,
            calls,
            ending,
            timed_out,
        });
    }

    /// A connection was turned away, since no worker is free.
    pub(crate) fn turns_away(&self) {
        self.turned_away.fetch_add(1, Ordering::SeqCst);
        if let Some(counts) = self.counts {
            counts.turns_away();
        }
        self.put(Line::TurnedAway);
    }

    /// A call begins.
    pub(crate) fn calls(&self) {
        if let Some(counts) = self.counts {
            counts.calls();
        }
    }

    /// A file is copied up in steps.
    pub(crate) fn copies(&self) {
        if let Some(counts) = self.counts {
            counts.copies();
        }
    }

    /// A file isn't copied up in steps any more.
    pub(crate) fn copied(&self) {
        if let Some(counts) = self.counts {
            counts.copied();
        }
    }

    /// Tells once each that nine tenths and all of a mount's history of so many places are used. A
    /// place that is kept for the detach of a client is used.
    pub(crate) fn looks<M: Places>(&self, mount: &M, places: usize) {
        if let Some(counts) = self.counts {
            counts.looks(mount, places);
        }
        if !self.verbose {
            return;
        }
        if self.history.comes_to_nine_tenths(mount, places) {
            self.put(Line::NineTenths(places));
        }
        if self.history.comes_to_all(mount, places) {
            self.put(Line::Full(places));
        }
    }

    /// Whether more is told than failures.
    pub(crate) fn is_verbose(&self) -> bool {
        self.verbose
    }

    /// A worker can't go on. It is told once by a server.
    pub fn fails(&self) {
        if !self.failed.swap(true, Ordering::SeqCst) {
            let _ = self.rt.eprint("overlayd: socket\n");
        }
    }

    /// All workers have ended, and the history has so many entries.
    pub fn sums_up(&self, entries: usize) {
        if self.verbose {
            self.tell_turned_away();
            let sessions = self.sessions.load(Ordering::SeqCst);
            let calls = self.calls.load(Ordering::SeqCst);
            let _ = self.rt.eprint(format_args!(
                "overlayd: served {sessions} sessions and {calls} calls; the history has {entries} entries\n"
            ));
        }
    }

    /// Tells the lines of the workers as they come, until they are closed.
    pub(crate) fn tell_all(&self) {
        for _ in self.rt.forever() {
            match self.next() {
                Some(line) => {
                    let _ = self.rt.eprint(line);
                }
                None => break,
            }
        }
    }

    /// The workers have ended.
    pub(crate) fn close(&self) {
        self.waiting.lock(self.rt).close();
        self.changed.notify_one();
    }

    // Tells how many were turned away, if any were.
    fn tell_turned_away(&self) {
        let count = self.turned_away.load(Ordering::SeqCst);
        if count > 0 {
            let _ = self.rt.eprint(format_args!(
                "overlayd: turned away {count} connections, since no worker was free\n"
            ));
        }
    }

    // Lets a line wait to be told.
    fn put(&self, line: Line) {
        if self.verbose {
            self.waiting.lock(self.rt).put(line);
            self.changed.notify_one();
        }
    }

    // The next line once there is one, or none where no more come.
    fn next(&self) -> Option<Line> {
        let waiting = self.waiting.lock(self.rt);
        self.changed
            .wait_while(self.rt, waiting, |waiting| waiting.is_quiet())
            .take()
    }
}
