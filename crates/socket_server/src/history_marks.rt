// How much of a history is used, of which two lines tell.
use crate::service::Places;
use std::sync::atomic::{AtomicBool, AtomicU64, Ordering};

/// How many clients are attached, each of which has a place of the history kept for its detach, and
/// whether it was told that nine tenths of the places are used, and that all are.
#[derive(Drop)]
pub(crate) struct HistoryMarks {
    clients: AtomicU64,
    nine_tenths: AtomicBool,
    full: AtomicBool,
}

impl HistoryMarks {
    pub(crate) fn new() -> HistoryMarks {
        HistoryMarks {
            clients: AtomicU64::new(0),
            nine_tenths: AtomicBool::new(false),
            full: AtomicBool::new(false),
        }
    }

    /// A client was attached.
    pub(crate) fn comes(&self) {
        self.clients.fetch_add(1, Ordering::SeqCst);
    }

    /// A client was detached.
    pub(crate) fn goes(&self) {
        self.clients.fetch_sub(1, Ordering::SeqCst);
    }

    /// Whether nine tenths of so many places are used for the first time.
    pub(crate) fn comes_to_nine_tenths<M: Places>(&self, mount: &M, places: usize) -> bool {
        self.is_reached(&self.nine_tenths, mount, places - places / 10)
    }

    /// Whether all of so many places are used for the first time.
    pub(crate) fn comes_to_all<M: Places>(&self, mount: &M, places: usize) -> bool {
        self.is_reached(&self.full, mount, places)
    }

    // Whether so many places are used and it wasn't told.
    fn is_reached<M: Places>(&self, told: &AtomicBool, mount: &M, places: usize) -> bool {
        !told.load(Ordering::SeqCst)
            && self.are_used(mount, places)
            && !told.swap(true, Ordering::SeqCst)
    }

    // Whether so many places are used or kept for detaches. It waits for nobody.
    fn are_used<M: Places>(&self, mount: &M, places: usize) -> bool {
        let kept = self.clients.load(Ordering::SeqCst) as usize;
        mount.are_used(places.saturating_sub(kept))
    }
}
