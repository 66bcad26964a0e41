//! Listings of merged directories.
#![tactic(auto)]

ghost use Rattle.std.specs.Prelude.{◌≡◌, ◌∷◌, List, ℕ, IfOk, is_some, map};
ghost use Rattle.std.specs.List.{list_any};
ghost use Rattle.std.specs.List.Sorted.{IsStrictlySortedBy};
ghost use Rattle.std.specs.Str.{bytes_eq};
ghost use Rattle.std.specs.Ordering.{nat_cmp};
ghost use Rattle.std.specs.Cmp.Lexicographic.{slice_cmp};
ghost use Rattle.plain_model.specs.Layers.{Path, shows};
ghost use Rattle.merged_lookup.specs.Merged.{layers_of, IsStackOf};

mod bound;
mod cursor;
mod merge;
mod shown;

use crate::bound::{Bound, bounds_of};
pub use cursor::Cursor;
use layer_tree::Entry;
use merged_lookup::{Layers, Stack};
use ov_base::Name;
pub use shown::shows_names;
use std::alloc::{AllocError, Global};

/// The names that a merged directory shows, sorted by their bytes, each once.
pub fn names(alloc: Global, layers: &Layers, stack: &Stack) -> Result<Vec<Name>, AllocError>
    ensures sorted { IfOk result (λ v. IsStrictlySortedBy (slice_cmp nat_cmp) v.items) }
    ensures names { IfOk result (λ v. (p : Path) → IsStackOf layers.now p stack.now → (n : List ℕ) → list_any (bytes_eq n) v.items ≡ is_some (shows 0 (layers_of layers.now) (n ∷ p))) }
{
    let mut bounds = bounds_of(alloc, layers, stack.places())?;
    bounds.retain(|bound| matches!(bound.entry, Entry::Object(_)));
    copies(alloc, bounds.as_slice())
}

// The names alone.
fn copies(alloc: Global, bounds: &[Bound]) -> Result<Vec<Name>, AllocError>
    ensures { IfOk result (λ v. v.items ≡ map (λ b. b.name.now) bounds.now) }
{
    let mut names = Vec::with_capacity(alloc, bounds.len())?;
    for bound in bounds {
        names.push(bound.name.clone()?)?;
    }
    Ok(names)
}
