// A mount that has no name yet.
ghost use Rattle.std.specs.Prelude.{◌≡◌, ◌≤◌, MatchResult, vec_len, vec_capacity};
ghost use Rattle.overlay_core.specs.Views.{core_finished, core_options};

use crate::entry::Entry;
use crate::row::empty_row;
use once_cell::race::{Note, OnceBox};
use overlay_core::Core;
use std::alloc::Global;
use std::sync::ledger;
use watch_table::{Callback, Rule};

/// A mount without a name: a core on which nothing was done, a row of as many cells as its history
/// has places, and the room for that history.
#[derive(Drop)]
pub struct Blank<F: Callback, R: Rule> {
    pub(crate) alloc: Global,
    pub(crate) core: Core<F, R>,
    pub(crate) row: Vec<OnceBox<Entry>>,
    pub(crate) notes: Vec<Note<Entry>>,
    pub(crate) numbers: Vec<u64>,
    pub(crate) boxes: Vec<Option<Box<Entry>>>,
    pub(crate) tokens: ledger::Blank,
    ghost untouched: { core_finished core ≡ 0 },
    ghost history: { (core_options core).history ≡ vec_len row },
    ghost bounded: { vec_len row ≤ 1000000 },
    ghost parts: { tokens.parts ≡ vec_len row },
    ghost notes_room: { (vec_len notes ≡ 0) × (vec_len row ≤ vec_capacity notes) },
    ghost numbers_room: { (vec_len numbers ≡ 0) × (vec_len row ≤ vec_capacity numbers) },
    ghost boxes_room: { (vec_len boxes ≡ 0) × (vec_len row ≤ vec_capacity boxes) },
}

impl<F: Callback, R: Rule> Blank<F, R> {
    ghost use Rattle.locked_history.specs.Names.{blank_core};

    /// Makes the row, the ledger and the room for the history of a core on which nothing was done.
    /// The core is handed back where memory runs out.
    pub fn new(alloc: Global, core: Core<F, R>) -> Result<Blank<F, R>, Core<F, R>>
        requires { core_finished core ≡ 0 }
        ensures { MatchResult result (λ blank. blank_core blank ≡ core) (λ back. back ≡ core) }
    {
        let places = core.history() as usize;
        let Ok(row) = empty_row(alloc, places) else {
            return Err(core);
        };
        let Ok(notes) = Vec::with_capacity(alloc, places) else {
            return Err(core);
        };
        let Ok(numbers) = Vec::with_capacity(alloc, places) else {
            return Err(core);
        };
        let Ok(boxes) = Vec::with_capacity(alloc, places) else {
            return Err(core);
        };
        Ok(Blank {
            alloc,
            core,
            row,
            notes,
            numbers,
            boxes,
            tokens: ledger::Blank::new(places as u64),
        })
    }
}
