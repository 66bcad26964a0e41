// What a server counts while it serves.
use crate::service::Places;
use std::sync::atomic::{AtomicU64, Ordering};

/// How many places of a history are found used by one look, at most.
const PLACES_A_LOOK: u32 = 64;

/// What a server counts while it serves, for another thread to look at.
#[derive(Drop)]
pub struct Counts {
    sessions: AtomicU64,
    clients: AtomicU64,
    unattached: AtomicU64,
    turned_away: AtomicU64,
    calls: AtomicU64,
    temps: AtomicU64,
    places: AtomicU64,
}

/// What was counted. Each number is of a moment of its own.
#[derive(Clone, Copy, Debug, PartialEq, Eq)]
pub struct Counted {
    /// How many connections workers took.
    pub sessions: u64,
    /// How many of these have a client now.
    pub clients: u64,
    /// How many of these were refused one.
    pub unattached: u64,
    /// How many connections were turned away, since no worker was free.
    pub turned_away: u64,
    /// How many calls were begun. One whose path text is refused isn't.
    pub calls: u64,
    /// How many files are being copied up in steps, each to a temp of its own.
    pub temps: u64,
    /// How many places of the history are known to be used, where it is kept.
    pub places: u64,
}

impl Counts {
    /// Nothing was counted.
    pub fn new() -> Counts {
        Counts {
            sessions: AtomicU64::new(0),
            clients: AtomicU64::new(0),
            unattached: AtomicU64::new(0),
            turned_away: AtomicU64::new(0),
            calls: AtomicU64::new(0),
            temps: AtomicU64::new(0),
            places: AtomicU64::new(0),
        }
    }

    /// What was counted until now.
    pub fn now(&self) -> Counted {
        Counted {
            sessions: self.sessions.load(Ordering::SeqCst),
            clients: self.clients.load(Ordering::SeqCst),
            unattached: self.unattached.load(Ordering::SeqCst),
            turned_away: self.turned_away.load(Ordering::SeqCst),
            calls: self.calls.load(Ordering::SeqCst),
            temps: self.temps.load(Ordering::SeqCst),
            places: self.places.load(Ordering::SeqCst),
        }
    }

    /// A worker took a connection.
    pub(crate) fn comes(&self) {
        self.sessions.fetch_add(1, Ordering::SeqCst);
    }

    /// A connection is refused a client.
    pub(crate) fn refuses(&self) {
        self.unattached.fetch_add(1, Ordering::SeqCst);
    }

    /// A client was attached.
    pub(crate) fn attaches(&self) {
        self.clients.fetch_add(1, Ordering::SeqCst);
    }

    /// A session ended.
    pub(crate) fn ends(&self) {
        self.clients.fetch_sub(1, Ordering::SeqCst);
    }

    /// A connection was turned away.
    pub(crate) fn turns_away(&self) {
        self.turned_away.fetch_add(1, Ordering::SeqCst);
    }

    /// A call begins.
    pub(crate) fn calls(&self) {
        self.calls.fetch_add(1, Ordering::SeqCst);
    }

    /// A file is copied up in steps.
    pub(crate) fn copies(&self) {
        self.temps.fetch_add(1, Ordering::SeqCst);
    }

    /// A file isn't copied up in steps any more.
    pub(crate) fn copied(&self) {
        self.temps.fetch_sub(1, Ordering::SeqCst);
    }

    /// Looks which of so many places of a mount's history are used further. It waits for nobody.
    pub(crate) fn looks<M: Places>(&self, mount: &M, places: usize) {
        let mut used = self.places.load(Ordering::SeqCst);
        for _ in 0..PLACES_A_LOOK {
            if used >= places as u64 || !mount.are_used(used as usize + 1) {
                break;
            }
            used += 1;
        }
        self.places.fetch_max(used, Ordering::SeqCst);
    }
}
