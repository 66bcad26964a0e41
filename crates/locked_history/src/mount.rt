// A mount that threads share.
ghost use Rattle.std.specs.Prelude.{◌≡◌, ◌+◌, ◌<◌, ◌≤◌, ◌↔◌, All, IfErr, IfOk, IfSome, MatchResult, OnOk, count_by, false, filter, length, map, true, ℕ};
ghost use Rattle.once_cell.specs.Once.{cell_name};
ghost use Rattle.locked_history.specs.Claims.{StandsIn, is_past_end, uncounted};
ghost use Rattle.locked_history.specs.Entries.{history_of};
ghost use Rattle.overlay_core.specs.LegalHistories.{Legally};
ghost use Rattle.work_dir.specs.declared.limits.TheConstants.{STEPS_MAX};

use crate::blank::Blank;
use crate::entry::{Deed, Entry, tags_of};
use crate::gate::{Gate, Pass};
use crate::lock::lock_soon;
use crate::locked::{Arrival, Locked, Pending};
use crate::mount_name::MountName;
use crate::past::{Past, count_all, leave_past_end};
use crate::receipt::Receipt;
use crate::session::{Refused, Session};
use once_cell::race::OnceBox;
use ov_base::{Call, Errno};
use overlay_core::Job;
use std::alloc::Global;
use std::sync::{Mutex, Wait};
use watch_table::{Callback, Hook, NotAttached, Rule};
use work_dir::STEPS_MAX;

/// A mount that many threads share: the lock round its core and history, and the row of cells.
/// The calls of all threads are those of one history.
#[derive(Drop)]
pub struct Mount<N: MountName, F: Callback, R: Rule> {
    alloc: Global,
    shared: Mutex<Locked<N, F, R>>,
    row: Vec<OnceBox<Entry>>,
    ghost named: { map cell_name row.items ≡ N.cells },
}

impl<N: MountName, F: Callback, R: Rule> Mount<N, F, R> {
    ghost use Rattle.locked_history.specs.Claims.{IsAttachOf, IsCallOf, IsDetachOf};
    ghost use Rattle.locked_history.specs.Names.{IsNamed};

    /// Opens a blank under its name. It is called in a function that is generic in the name, which
    /// a program or a test calls with `std::marker::Brand`.
    pub fn open(blank: Blank<F, R>) -> Mount<N, F, R>
        requires { IsNamed N.cells N.name N.parts N.opening blank }
    {
        let Blank {
            alloc,
            core,
            row,
            notes,
            numbers,
            boxes,
            tokens,
        } = blank;
        let (book, rest) = tokens.open::<N>();
        let locked = Locked {
            core,
            notes,
            numbers,
            boxes,
            book,
            rest,
        };
        Mount {
            alloc,
            shared: Mutex::new(locked),
            row,
        }
    }

    /// Attaches a client with its hooks, which are handed back where it is refused: EINVAL exactly
    /// for over 16 hooks, then ENFILE, ENOSPC and ENOMEM.
    pub fn attach<H: Wait>(
        &self,
        rt: &H,
        hooks: Vec<Hook<F, R>>,
    ) -> Result<(Session, Receipt<N>), NotAttached<F, R>>
        ensures attach { IfOk result (λ r.
            IsAttachOf r.1.entry r.0.client (map (λ h. h.tag) hooks.items)) }
        ensures number { IfOk result (λ r. r.0.number ≡ 2) }
        ensures counted { IfOk result (λ r. r.1.counted ≡ true) }
        ensures few { OnOk result (length hooks.items ≤ 16) }
        ensures many { IfErr result (λ fault.
            (fault.errno ≡ Errno.EINVAL) ↔ (16 < length hooks.items)) }
        ensures back { IfErr result (λ fault. fault.hooks ≡ hooks) }
    {
        let room = arrival(self.alloc, hooks.as_slice());
        lock_soon(rt, &self.shared).attach(rt, self.row.as_slice(), hooks, room)
    }

    /// Detaches a session's client, and hands its hooks back. It is refused for its session alone.
    pub fn detach<H: Wait>(
        &self,
        rt: &H,
        session: Session,
    ) -> Result<(Vec<Hook<F, R>>, Receipt<N>), Refused>
        ensures detach { IfOk result (λ r.
            IsDetachOf r.1.entry session.client session.number) }
        ensures counted { IfOk result (λ r. r.1.counted ≡ true) }
        ensures refused { IfErr result (λ why. why ≡ Refused.Session) }
    {
        lock_soon(rt, &self.shared).detach(rt, self.row.as_slice(), session)
    }

    /// Makes a session's call, with the lock taken once for each of its steps, at most 66,049. Before
    /// each step the lock is free, and the gate is asked, which alone can stop it. What is refused is
    /// no entry, and leaves the session's number.
    pub fn call<H: Wait, G: Gate>(
        &self,
        rt: &H,
        session: &mut Session,
        call: Call,
        gate: &G,
    ) -> Result<Receipt<N>, Refused>
        ensures call { IfOk result (λ receipt.
            IsCallOf receipt.entry session.old.client session.old.number call) }
        ensures counted { IfOk result (λ receipt. receipt.counted ≡ true) }
        ensures session { MatchResult result
            (λ _. (session.new.client ≡ session.old.client)
            × (session.new.number ≡ session.old.number + 1))
            (λ _. session.new ≡ session.old) }
        ensures stopped { IfErr result (λ why. why ≡ Refused.Stopped →
            (step : ℕ) × (step ≤ STEPS_MAX)
            × G.may_stop gate.now session.old.client step) }
    {
        let client = session.client;
        let mut job = Job::new(client, call);
        let mut room = Box::new(self.alloc, blank_entry()).ok();
        for step in 1..=STEPS_MAX as u64 {
            if gate.pass(client, step) == Pass::Stop {
                lock_soon(rt, &self.shared).give_up(job);
                return Err(Refused::Stopped);
            }
            let row = self.row.as_slice();
            let made = lock_soon(rt, &self.shared).step(rt, row, *session, job, room);
            match made {
                Ok(receipt) => {
                    session.number += 1;
                    return Ok(receipt);
                }
                Err(Pending::Refused(why)) => return Err(why),
                Err(Pending::More(same, still)) => {
                    job = same;
                    room = Some(still);
                }
            }
        }
        unreachable!()
    }

    /// A receipt of the entry at a place, if it is there. It waits for nobody.
    pub fn event(&self, place: usize) -> Option<Receipt<N>>
        ensures { IfSome result (λ receipt.
            (receipt.place ≡ place) × (receipt.counted ≡ false)) }
    {
        if place >= self.row.len() {
            return None;
        }
        let cell = &self.row[place];
        let mut note = cell.note();
        cell.get_as(&mut note)?;
        Some(Receipt {
            place,
            note,
            share: None,
        })
    }

    /// The entry of a receipt, which is as it was. It waits for nobody.
    pub fn event_of<'a>(&'a self, receipt: &mut Receipt<N>) -> &'a Entry
        ensures entry { result.now ≡ receipt.old.entry }
        ensures same { receipt.new ≡ receipt.old }
    {
        let cell = &self.row[receipt.place];
        match cell.get_as(&mut receipt.note) {
            Some(entry) => entry,
            None => unreachable!(),
        }
    }
}

impl<N: MountName, F: Callback, R: Rule> Mount<N, F, R> {
    ghost use Rattle.locked_history.specs.Views.{core_past, entries_past};

    /// What was done, once the threads have ended, and the receipts whose place is past its end.
    /// Each other receipt stands in it, and it is at least as long as receipts were counted.
    pub fn finish(self, receipts: Vec<Receipt<N>>) -> (Past<N, F, R>, Vec<Receipt<N>>)
        ensures legal { ∥ Legally N.opening (history_of (entries_past result.0))
            (core_past result.0) ∥₁ }
        ensures stand { All (StandsIn (entries_past result.0)) receipts.items }
        ensures left { result.1.items
            ≡ filter (is_past_end (entries_past result.0)) (map uncounted receipts.items) }
        ensures counted { count_by (λ r. r.counted) receipts.items
            ≤ length (entries_past result.0) }
    {
        let Mount {
            alloc: _,
            shared,
            row,
        } = self;
        let Locked {
            core,
            mut notes,
            numbers: _,
            boxes: _,
            mut book,
            mut rest,
        } = shared.into_inner();
        let mut receipts = receipts;
        count_all(&mut book, &mut rest, &mut receipts);
        leave_past_end(&mut receipts, &mut notes);
        let past = Past {
            core,
            notes,
            row,
            book,
        };
        (past, receipts)
    }
}

// What an attach needs, or none where memory runs out.
fn arrival<F: Callback, R: Rule>(alloc: Global, hooks: &[Hook<F, R>]) -> Option<Arrival>
    ensures { IfSome result (λ arrival. arrival.tags.items ≡ map (λ h. h.tag) hooks.now) }
{
    let tags = tags_of(alloc, hooks).ok()?;
    let entry = Box::new(alloc, blank_entry()).ok()?;
    let detach = Box::new(alloc, blank_entry()).ok()?;
    Some(Arrival {
        tags,
        entry,
        detach,
    })
}

// What stands in a box before it is filled.
fn blank_entry() -> Entry {
    Entry {
        client: 0,
        number: 0,
        deed: Deed::Detached,
    }
}
