// How long the history of a mount may be.
use toml::{Table, Value};

/// The length of a history of which the manifest says nothing.
const HISTORY: u64 = 100_000;

/// The most clients that are attached at a time.
const CLIENTS: u64 = 64;

/// How long the history of a mount may be, how many attaches, calls and detaches were finished, and how many clients are attached.
#[derive(Clone, Copy)]
pub struct History {
    length: u64,
    finished: u64,
    attached: u64,
}

impl History {
    /// What a manifest says of the history, before anything was finished.
    pub fn of(manifest: &Table) -> History {
        let told = manifest.get("history").and_then(Value::as_integer);
        History {
            length: told
                .and_then(|length| u64::try_from(length).ok())
                .unwrap_or(HISTORY),
            finished: 0,
            attached: 0,
        }
    }

    /// How many more deeds there is room for, if each attached client keeps a place for its detach.
    pub fn room(&self) -> u64 {
        let kept = self.finished.saturating_add(self.attached);
        self.length.saturating_sub(kept)
    }

    /// Whether places alone keep a further client away: it wants one, and one for its detach.
    pub fn refuses_attach(&self) -> bool {
        self.attached < CLIENTS && self.room() < 2
    }

    /// A client was attached.
    pub fn attach(&mut self) {
        self.finish();
        self.attached = self.attached.saturating_add(1);
    }

    /// A client was detached.
    pub fn detach(&mut self) {
        self.finish();
        self.attached = self.attached.saturating_sub(1);
    }

    /// A call had its reply.
    pub fn finish(&mut self) {
        self.finished = self.finished.saturating_add(1);
    }
}
