// What is left of a mount when its threads have ended.
ghost use Rattle.std.specs.Prelude.{◌≡◌, ◌<◌, ◌≤◌, All, Some, count_by, false, filter, is_some, length, map, slice_get, take, true, vec_len};
ghost use Rattle.once_cell.specs.Once.{cell_name};
ghost use Rattle.locked_history.specs.Claims.{StandsIn, is_past_end, uncounted};
ghost use Rattle.locked_history.specs.Entries.{entry_in, history_of};
ghost use Rattle.overlay_core.specs.LegalHistories.{Legally};

use crate::entry::Entry;
use crate::mount_name::MountName;
use crate::receipt::Receipt;
use once_cell::race::{Note, OnceBox};
use overlay_core::Core;
use std::sync::ledger::{Book, Share};
use watch_table::{Callback, Rule};

/// What was done, once the threads have ended. Its type keeps that it is a legal history, which
/// ends in a state that agrees with its core.
#[derive(Drop)]
pub struct Past<N: MountName, F: Callback, R: Rule> {
    pub(crate) core: Core<F, R>,
    pub(crate) notes: Vec<Note<Entry>>,
    pub(crate) row: Vec<OnceBox<Entry>>,
    pub(crate) book: Book<N>,
    ghost legal: { ∥ Legally N.opening (history_of (map (λ n. entry_in n.known) notes.items))
        core ∥₁ },
    ghost names: { map (λ n. n.cell) notes.items ≡ take (vec_len notes) N.cells },
    ghost known: { map (λ n. is_some n.known) notes.items ≡ map (λ n. true) notes.items },
    ghost named: { map cell_name row.items ≡ N.cells },
    ghost within: { vec_len notes ≤ length N.cells },
}

impl<N: MountName, F: Callback, R: Rule> Past<N, F, R> {
    ghost use Rattle.locked_history.specs.Views.{core_past, entries_past};

    /// How many entries the history has.
    pub fn len(&self) -> usize
        ensures { result ≡ length (entries_past self.now) }
    {
        self.notes.len()
    }

    /// The core that the history ends in.
    pub fn core(&self) -> &Core<F, R>
        ensures { result.now ≡ core_past self.now }
    {
        &self.core
    }

    /// A receipt of the entry at a place. What is known of a cell is reached by `&mut` alone.
    pub fn event(&mut self, place: usize) -> Receipt<N>
        requires { place < length (entries_past self.old) }
        ensures entry { slice_get (entries_past self.old) place ≡ Some result.entry }
        ensures place { (result.place ≡ place) × (result.counted ≡ false) }
        ensures entries { entries_past self.new ≡ entries_past self.old }
        ensures core { core_past self.new ≡ core_past self.old }
    {
        let note = &mut self.notes[place];
        let known = note.again();
        Receipt {
            place,
            note: known,
            share: None,
        }
    }

    /// The entry of a receipt, which is as it was.
    pub fn event_of<'a>(&'a self, receipt: &mut Receipt<N>) -> &'a Entry
        ensures entry { result.now ≡ receipt.old.entry }
        ensures same { receipt.new ≡ receipt.old }
    {
        let cell = &self.row[receipt.place];
        match cell.get_as(&mut receipt.note) {
            Some(entry) => entry,
            None => unreachable!(),
        }
    }
}

// Takes the shares of the counted receipts, and finds that the history is at least as long as they
// are many.
pub(crate) fn count_all<N: MountName>(
    book: &mut Book<N>,
    rest: &mut Share<N>,
    receipts: &mut Vec<Receipt<N>>,
)
    requires { rest.old.amount ≡ 0 }
    ensures items { receipts.new.items ≡ map uncounted receipts.old.items }
    ensures counted { count_by (λ r. r.counted) receipts.old.items ≤ book.old.total }
{
    for i in 0..receipts.len() {
        let receipt = &mut receipts[i];
        receipt.give_share(rest);
    }
    book.audit(rest);
}

// Leaves the receipts whose place is past the end of the history. Each other one stands in it.
pub(crate) fn leave_past_end<N: MountName>(
    receipts: &mut Vec<Receipt<N>>,
    notes: &mut Vec<Note<Entry>>,
)
    requires names { map (λ n. n.cell) notes.old.items ≡ take (vec_len notes.old) N.cells }
    requires known { map (λ n. n.known) notes.old.items
        ≡ map Some (map (λ n. entry_in n.known) notes.old.items) }
    ensures notes { (notes.new.items ≡ notes.old.items) × (vec_len notes.new ≡ vec_len notes.old) }
    ensures left { receipts.new.items
        ≡ filter (is_past_end (map (λ n. entry_in n.known) notes.old.items)) receipts.old.items }
    ensures stand { All (StandsIn (map (λ n. entry_in n.known) notes.old.items))
        receipts.old.items }
{
    let mut left = 0;
    for i in 0..receipts.len() {
        let place = receipts[i].place();
        if place < notes.len() {
            let receipt = &mut receipts[i];
            receipt.stand(notes);
        } else {
            receipts.swap(left, i);
            left += 1;
        }
    }
    receipts.truncate(left);
}
