// The row of cells, one for each place of the history.
ghost use Rattle.std.specs.Prelude.{◌≡◌, Some, IfOk, vec_len};
ghost use Rattle.once_cell.specs.Once.{cell_name};

use crate::entry::Entry;
use once_cell::race::{Note, OnceBox};
use std::alloc::{AllocError, Global};
use std::sync::Wait;

/// Sets the cell of a place, and answers what is known of it then. Only who holds the lock calls
/// this, for a cell that is empty, so the first try is the last.
pub(crate) fn set_cell<H: Wait>(rt: &H, cell: &OnceBox<Entry>, entry: Box<Entry>) -> Note<Entry>
    ensures { (result.cell ≡ cell_name cell.now) × (result.known ≡ Some entry.value) }
{
    let mut left = entry;
    for _ in rt.forever() {
        let mut note = cell.note();
        match cell.set_as(left, &mut note) {
            Ok(()) => return note,
            Err(back) => left = back,
        }
    }
    unreachable!()
}

/// A row of so many empty cells.
pub(crate) fn empty_row(alloc: Global, places: usize) -> Result<Vec<OnceBox<Entry>>, AllocError>
    ensures { IfOk result (λ row. vec_len row ≡ places) }
{
    let mut row = Vec::with_capacity(alloc, places)?;
    for _i in 0..places {
        row.push(OnceBox::new(alloc))?;
    }
    Ok(row)
}
