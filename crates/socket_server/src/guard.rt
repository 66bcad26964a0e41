// What is seen to before each call of a session.
ghost use Rattle.std.specs.Prelude.{◌≡◌, IsSome, IsTrue, None, false};

use crate::closing::Closing;
use crate::reports::Reports;
use crate::service::{Awaits, Places};
use locked_history::{Gate, Pass};
use ov_base::Errno;
use std::io::Eprint;
use std::os::unix::net::UnixStream;
use std::sync::Wait;
use std::sync::atomic::{AtomicBool, Ordering};

/// A mount that is served, how many places its history has, the reports that tell when these are
/// used, what ends the server, if anything does, and whether a call of its client is in steps.
#[derive(Drop)]
pub(crate) struct Guard<'a, 'r, M: Places, H: Eprint + Wait> {
    pub(crate) mount: &'a M,
    pub(crate) places: usize,
    pub(crate) reports: &'a Reports<'r, H>,
    pub(crate) closing: Option<&'a Closing>,
    pub(crate) in_steps: AtomicBool,
}

impl<M: Places, H: Eprint + Wait> Guard<'_, '_, M, H> {
    /// Tells of the history where that is due.
    pub(crate) fn look(&self) {
        self.reports.looks(self.mount, self.places);
    }

    /// Whether the server is closed.
    pub(crate) fn is_closed(&self) -> bool
        ensures never { self.now.closing ≡ None → result ≡ false }
        ensures some { IsTrue result → IsSome self.now.closing }
    {
        match self.closing {
            Some(closing) => closing.is_closed(),
            None => false,
        }
    }

    // A call wasn't made by its first step, so a file is copied up for it.
    fn goes_on(&self) {
        if !self.in_steps.swap(true, Ordering::SeqCst) {
            self.reports.copies();
        }
    }

    /// The worker has a connection, which ends where the server is closed. It is kept under this key.
    pub(crate) fn enters(&self, rt: &H, connection: &UnixStream) -> Result<Option<usize>, Errno> {
        match self.closing {
            Some(closing) => Ok(Some(closing.enters(rt, connection)?)),
            None => Ok(None),
        }
    }

    /// The worker hasn't the connection of this key any more.
    pub(crate) fn leaves(&self, rt: &H, key: Option<usize>) {
        if let (Some(closing), Some(key)) = (self.closing, key) {
            closing.leaves(rt, key);
        }
    }
}

impl<M: Places, H: Eprint + Wait> Gate for Guard<'_, '_, M, H> {
    ghost use Rattle.std.specs.Prelude.{IsSome};

    ghost may_stop = { λ gate client step. IsSome gate.closing };

    fn pass(&self, _client: u64, step: u64) -> Pass {
        match step {
            1 => {
                self.reports.calls();
                self.look();
            }
            2 => self.goes_on(),
            _ => {}
        }
        if self.is_closed() {
            Pass::Stop
        } else {
            Pass::On
        }
    }
}

impl<M: Places, H: Eprint + Wait> Awaits for Guard<'_, '_, M, H> {
    fn awaits(&self) {
        if self.in_steps.swap(false, Ordering::SeqCst) {
            self.reports.copied();
        }
    }
}
