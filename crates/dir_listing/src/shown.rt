// Whether a merged directory shows a name.
ghost use Rattle.std.specs.Prelude.{◌≡◌, List, ℕ, is_some};
ghost use Rattle.std.specs.List.{list_any};
ghost use Rattle.std.specs.Str.{bytes_eq};
ghost use Rattle.plain_model.specs.Layers.{Path};
ghost use Rattle.merged_lookup.specs.Merged.{trees, layers_of, IsStackOf};
ghost use Rattle.merged_lookup.specs.Descent.{first};
ghost use Rattle.dir_listing.specs.Bound.{is_bound};
ghost use Rattle.dir_listing.specs.Shown.{TellsNames};

use merged_lookup::{Layers, Stack};
use ov_base::{Name, Place};

/// Whether a merged directory shows a name. It stops at the first that is shown, and takes no memory.
pub fn shows_names(layers: &Layers, stack: &Stack) -> bool
    ensures { (p : Path) → IsStackOf layers.now p stack.now → TellsNames (layers_of layers.now) p result }
{
    for place in stack.places() {
        if shows_one_of(layers, stack, names_at(layers, *place)) {
            return true;
        }
    }
    false
}

// Whether a merged directory shows one of these names.
fn shows_one_of(layers: &Layers, stack: &Stack, names: &[Name]) -> bool
    ensures { result ≡ list_any (λ n. is_some (first (trees layers.now) stack.now.places.items n)) names.now }
{
    names.iter().any(|name| layers.shows(stack, name))
}

// The names that the directory at a place has, those of whiteouts included.
pub(crate) fn names_at(layers: &Layers, place: Place) -> &[Name]
    ensures { (n : List ℕ) → list_any (bytes_eq n) result.now ≡ is_bound (trees layers.now) n place }
{
    match layers.layer(place.layer) {
        Some(layer) => layer.bound_names(place.key),
        None => &[],
    }
}
