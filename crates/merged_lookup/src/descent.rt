// The way of a name down the layers.
ghost use Rattle.std.specs.Prelude.{◌≡◌, ◌+◌, ◌<◌, ◌≤◌, List, [], ◌∷◌, ◌++◌, ℕ, Option, length, drop, map, take, slice_set, option_map, not, nat_eq};
ghost use Rattle.arrayvec.specs.ArrayVec.{array_vec_len};
ghost use Rattle.merged_lookup.specs.Merged.{trees};
ghost use Rattle.merged_lookup.specs.Descent as down;
ghost use Rattle.merged_lookup.specs.Descent.{places_from, place_shown, leads};
ghost use Rattle.merged_lookup.specs.Numbered.{row};
ghost use Rattle.merged_lookup.specs.Trails.{LeadsOn};

use crate::crossing::walk_below;
use crate::found::Topmost;
use crate::layers::Layers;
use crate::numbered::Numbered;
use crate::onward::{Onward, onward_in};
use crate::stack::Places;
use crate::trail::{Trail, further};
use layer_tree::ROOT;
use ov_base::{Name, Path, Place};

// The roots of the layers from this one on.
pub(crate) fn roots(layers: &Layers, first: usize) -> Places
    ensures { result.items ≡ places_from first (trees layers.now) [] }
{
    let mut places = Places::new();
    for layer in first..layers.count() {
        places.push(Place { layer, key: ROOT });
    }
    places
}

// The same places once more.
pub(crate) fn copied(places: &Places) -> Places
    ensures { result.items ≡ places.now.items }
{
    let mut copy = Places::new();
    let _ = copy.try_extend_from_slice(places.as_slice());
    copy
}

// One name on, in place: these places become those of the directories that the name leads to. Where it leads to none it gives the file or
// symbolic link that the name shows, if any. An absolute redirect of the upper to one name more than the trail goes on by that name; where
// another one led to some, for which the layers below were crossed, `crossed` is set.
pub(crate) fn enter<'a>(
    layers: &'a Layers,
    places: &mut Places,
    name: &'a Name,
    trail: Option<Trail<'a>>,
    crossed: &mut bool,
) -> Option<Place>
    requires { LeadsOn (trees layers.now) places.old.items trail }
    ensures reached { length (down.descend (trees layers.now) places.old.items name.now) ≤ 17 → places.new.items ≡ down.descend (trees layers.now) places.old.items name.now }
    ensures inode { length (down.descend (trees layers.now) places.old.items name.now) ≤ 17 → places.new.items ≡ [] → result ≡ down.first (trees layers.now) places.old.items name.now }
{
    let mut kept = 0;
    let mut asked = name;
    let count = places.len();
    for index in 0..count {
        let place = places.as_slice()[index];
        let Some(layer) = layers.layer(place.layer) else {
            places.truncate(kept);
            return None;
        };
        match onward_in(layer, place.key, asked) {
            Onward::Through => {}
            Onward::Whiteout => {
                places.truncate(kept);
                return None;
            }
            Onward::Inode(key) => {
                places.truncate(kept);
                return Some(Place { key, ..place });
            }
            Onward::Last(key) => {
                end(places, kept, Place { key, ..place });
                return None;
            }
            Onward::By(key, other) => {
                put(places, kept, Place { key, ..place });
                kept += 1;
                asked = other;
            }
            Onward::From(key, path) => {
                let Some(other) = further(trail, index, place, path) else {
                    end(places, kept, Place { key, ..place });
                    append_below(layers, places, place.layer + 1, path);
                    *crossed = true;
                    return None;
                };
                put(places, kept, Place { key, ..place });
                kept += 1;
                asked = other;
            }
        }
    }
    places.truncate(kept);
    None
}

// Puts a place over the one that is there.
fn put(places: &mut Places, at: usize, place: Place)
    requires { at < array_vec_len places.old }
    ensures { places.new.items ≡ slice_set places.old.items at place }
{
    places.as_mut_slice()[at] = place;
}

// Ends the places by this one, over the one that is there.
fn end(places: &mut Places, at: usize, place: Place)
    requires within { at < array_vec_len places.old }
    requires room { at < 17 }
    ensures { places.new.items ≡ take at places.old.items ++ place ∷ [] }
{
    places.truncate(at);
    places.push(place);
}

// Puts after these places those to which a path leads from the roots of the layers from this one on. Their room is taken here alone, so
// that a name which crosses no layers doesn't pay for it.
fn append_below(layers: &Layers, places: &mut Places, first: usize, path: &Path)
    ensures { length places.old.items + length (places_from first (trees layers.now) path.now) ≤ 17 → places.new.items ≡ places.old.items ++ places_from first (trees layers.now) path.now }
{
    append(places, &walk_below(layers, first, path));
}

fn append(places: &mut Places, rest: &Places)
    ensures { array_vec_len places.old + array_vec_len rest.now ≤ 17 → places.new.items ≡ places.old.items ++ rest.now.items }
{
    let _ = places.try_extend_from_slice(rest.as_slice());
}

// The object that a name shows in these places of a mount.
pub(crate) fn topmost(layers: &Layers, places: &[Place], name: &Name) -> Option<Topmost>
    ensures place { option_map place_shown result ≡ down.first (trees layers.now) places.now name.now }
    ensures directory { leads result ≡ not (nat_eq (length (down.descend (trees layers.now) places.now name.now)) 0) }
{
    topmost_at(layers.numbered(), places, name)
}

// The object that a name shows in these places: what the topmost one that has the name has there, unless it is a whiteout.
pub(crate) fn topmost_at(layers: Numbered<'_>, places: &[Place], name: &Name) -> Option<Topmost>
    ensures place { option_map place_shown result ≡ down.first (row layers.entry) places.now name.now }
    ensures directory { leads result ≡ not (nat_eq (length (down.descend (row layers.entry) places.now name.now)) 0) }
{
    for place in places {
        match onward_in(layers.layer(place.layer)?, place.key, name) {
            Onward::Through => {}
            Onward::Whiteout => return None,
            Onward::Inode(key) => return Some(Topmost::Inode(Place { key, ..*place })),
            Onward::Last(key) | Onward::By(key, _) | Onward::From(key, _) => return Some(
                Topmost::Directory(Place { key, ..*place }),
            ),
        }
    }
    None
}

// The places without that of the upper.
pub(crate) fn below_upper(places: &[Place]) -> &[Place]
    ensures { result.now ≡ down.without_upper places.now }
{
    match places {
        [top, rest @ ..] if top.layer == 0 => rest,
        _ => places,
    }
}
