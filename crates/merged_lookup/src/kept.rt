// What the lower layers show at a spelling, and how the upper hands paths down to them.
ghost use Rattle.std.specs.Prelude.{◌≡◌, ◌<◌, ◌≤◌, ◌++◌, IfSome, Some, length, reverse};
ghost use Rattle.plain_model.specs.Layers as held;
ghost use Rattle.ov_base.specs.declared.attributes.Attributes.{Attributes};
ghost use Rattle.merged_lookup.specs.Descent.{holds_in, without_upper};
ghost use Rattle.arrayvec.specs.ArrayVec.{array_vec_len};
ghost use Rattle.merged_lookup.specs.Passing.{holds_under};
ghost use Rattle.merged_lookup.specs.Kept as over;
ghost use Rattle.merged_lookup.specs.Kept.{HandsDown, Steps};
ghost use Rattle.merged_lookup.specs.Merged.{place_in};

use crate::descent::{below_upper, copied};
use crate::found::Topmost;
use crate::stack::Places;
use layer_tree::{Entry, Layer, Marks, Node, ROOT};
use ov_base::{Name, Place};

// What the lower layers show at a spelling.
#[derive(Drop)]
pub(crate) struct Kept {
    // Their directories in which its last name stands.
    pub(crate) directory: Places,
    // The topmost object that they show at it.
    pub(crate) shown: Option<Topmost>,
}

// What a layer has at a name.
enum Step {
    Nothing,
    // A directory without marks.
    Plain(usize),
    Other,
}

// What the layer has at a name in this directory.
fn step_in(layer: &Layer, dir: usize, name: &Name) -> Step
    ensures { Steps (holds_in layer.now dir name.now) result }
{
    match layer.entry(dir, name) {
        None => Step::Nothing,
        Some(Entry::Whiteout) => Step::Other,
        Some(Entry::Object(key)) => match layer.node(key) {
            Some(Node::Directory(directory)) => step_by(key, &directory.marks),
            _ => Step::Other,
        },
    }
}

// A directory with these marks.
fn step_by(key: usize, marks: &Marks) -> Step
    ensures { (a : Attributes) → Steps (Some (held.Directory key a marks.now.opaque marks.now.redirect)) result }
{
    match marks {
        Marks {
            opaque: false,
            redirect: None,
        } => Step::Plain(key),
        _ => Step::Other,
    }
}

// The directory that the upper has at the end of these names, or none, where it hands their path
// down as it is.
pub(crate) fn handed_down(upper: &Layer, names: &[Name]) -> Option<Option<usize>>
    ensures { IfSome result (HandsDown upper.now (reverse names.now)) }
{
    let mut dir = ROOT;
    for name in names {
        match step_in(upper, dir, name) {
            Step::Nothing => return Some(None),
            Step::Plain(key) => dir = key,
            Step::Other => return None,
        }
    }
    Some(Some(dir))
}

// The topmost object at a name: what the upper has in this directory, if it has one, or what the
// lower layers show.
pub(crate) fn topmost_over(
    upper: &Layer,
    dir: Option<usize>,
    name: &Name,
    kept: Option<Topmost>,
) -> Option<Topmost>
    ensures { result ≡ over.topmost_over (holds_under upper.now dir name.now) kept }
{
    let Some(dir) = dir else {
        return kept;
    };
    match upper.entry(dir, name) {
        None => kept,
        Some(Entry::Whiteout) => None,
        Some(Entry::Object(key)) => match upper.node(key) {
            None => kept,
            Some(Node::Inode(_)) => Some(Topmost::Inode(Place { layer: 0, key })),
            Some(Node::Directory(_)) => Some(Topmost::Directory(Place { layer: 0, key })),
        },
    }
}

// The places of the lower layers among those of a merged directory.
pub(crate) fn copied_below(places: &[Place]) -> Places
    requires { length places.now ≤ 17 }
    ensures { result.items ≡ without_upper places.now }
{
    let mut lowers = Places::new();
    let _ = lowers.try_extend_from_slice(below_upper(places));
    lowers
}

// The places of the lower layers below that of the upper's directory, if it has one.
pub(crate) fn places_over(dir: Option<usize>, lowers: &Places) -> Places
    requires room { array_vec_len lowers.now < 17 }
    ensures { result.items ≡ place_in 0 dir ++ lowers.now.items }
{
    let mut places = copied(lowers);
    if let Some(key) = dir {
        places.insert(0, Place { layer: 0, key });
    }
    places
}
