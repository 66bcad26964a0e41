// Receipts: who has one knows the entry that stands at a place.
ghost use Rattle.std.specs.Prelude.{◌≡◌, ◌+◌, ◌<◌, cond, Some, map, take, slice_get, vec_len};
ghost use Rattle.locked_history.specs.Claims.{uncounted};
ghost use Rattle.locked_history.specs.Entries.{entry_in};

use crate::entry::Entry;
use crate::mount_name::MountName;
use once_cell::race::Note;
use std::marker::Model;
use std::sync::ledger::Share;

/// Says which entry stands at a place of a mount's history. It can't be copied, and contracts see
/// it as what it claims. One that an attach, a call or a detach answered is counted.
#[derive(Drop)]
pub struct Receipt<N: MountName> {
    pub(crate) place: usize,
    pub(crate) note: Note<Entry>,
    pub(crate) share: Option<Share<N>>,
}

impl<N: MountName> Model for Receipt<N> {
    ghost use Rattle.std.specs.Prelude.{◌≡◌, IfSome, is_some};
    ghost use Rattle.locked_history.specs.Claims.{Claim, IsNoteOf};
    ghost use Rattle.locked_history.specs.Entries.{entry_in};

    ghost Value = { Claim };

    ghost view = { λ r. record {
      place = r.place;
      entry = entry_in r.note.known;
      counted = is_some r.share;
    } };

    ghost invariant = { λ r.
        IsNoteOf N.cells r.place r.note.cell r.note.known
        × IfSome r.share (λ s. (s.parts ≡ 1) × (s.amount ≡ 1)) };
}

impl<N: MountName> Receipt<N> {
    /// The place of its entry in the history. Places count from 0.
    pub fn place(&self) -> usize
        ensures { result ≡ self.now.place }
    {
        self.place
    }

    /// Whether an attach, a call or a detach answered it.
    pub fn counted(&self) -> bool
        ensures { result ≡ self.now.counted }
    {
        self.share.is_some()
    }

    /// Receipts of one place claim one entry.
    pub fn compare(&mut self, other: &mut Receipt<N>)
        requires { self.old.place ≡ other.old.place }
        ensures same { self.old.entry ≡ other.old.entry }
        ensures mine { self.new ≡ self.old }
        ensures theirs { other.new ≡ other.old }
    {
        let theirs = other.note.again();
        self.note.compare(theirs);
    }

    // Its entry is the one that the notes of a history know of its place.
    pub(crate) fn stand(&mut self, notes: &mut Vec<Note<Entry>>)
        requires names { map (λ n. n.cell) notes.old.items ≡ take (vec_len notes.old) N.cells }
        requires known { map (λ n. n.known) notes.old.items
            ≡ map Some (map (λ n. entry_in n.known) notes.old.items) }
        requires within { self.old.place < vec_len notes.old }
        ensures mine { self.new ≡ self.old }
        ensures notes { (notes.new.items ≡ notes.old.items)
            × (vec_len notes.new ≡ vec_len notes.old) }
        ensures stands { slice_get (map (λ n. entry_in n.known) notes.old.items) self.old.place
            ≡ Some self.old.entry }
    {
        let theirs = self.note.again();
        let note = &mut notes[self.place];
        note.compare(theirs);
    }

    // Gives its share up to another.
    pub(crate) fn give_share(&mut self, all: &mut Share<N>)
        ensures mine { self.new ≡ uncounted self.old }
        ensures all { all.new.amount ≡ all.old.amount + cond self.old.counted 1 0 }
    {
        if let Some(share) = self.share.take() {
            all.merge(share);
        }
    }
}
