// What one layer's directory does with a name.
ghost use Rattle.std.specs.Prelude.{Some};
ghost use Rattle.ov_base.specs.declared.attributes.Attributes.{Attributes};
ghost use Rattle.plain_model.specs.Layers as held;
ghost use Rattle.merged_lookup.specs.Descent.{Tells, holds_in};
ghost use Rattle.merged_lookup.specs.Passing.{Passes, holds_under};

use layer_tree::{Entry, Layer, Marks, Node};
use ov_base::{Name, Path, Redirect};

// What a layer's directory does with a name.
pub(crate) enum Onward<'a> {
    // It has nothing there: the next layer is asked.
    Through,
    // It has a whiteout there.
    Whiteout,
    // It has this file or symbolic link there.
    Inode(usize),
    // It has this opaque directory there, which hides the layers below.
    Last(usize),
    // It has this directory there; the layers below go on by this name.
    By(usize, &'a Name),
    // It has this directory there; the layers below go on from their roots by this path.
    From(usize, &'a Path),
}

// What the layer does with a name in this directory.
pub(crate) fn onward_in<'a>(layer: &'a Layer, dir: usize, name: &'a Name) -> Onward<'a>
    ensures tells { Tells (holds_in layer.now dir name.now) name.now result }
    ensures passes { Passes (holds_in layer.now dir name.now) name.now result }
{
    match layer.entry(dir, name) {
        None => Onward::Through,
        Some(Entry::Whiteout) => Onward::Whiteout,
        Some(Entry::Object(key)) => match layer.node(key) {
            None => Onward::Through,
            Some(Node::Inode(_)) => Onward::Inode(key),
            Some(Node::Directory(directory)) => onward_from(key, &directory.marks, name),
        },
    }
}

// `onward_in` for a layer that may have no directory there, and then has nothing in it.
pub(crate) fn onward_under<'a>(layer: &'a Layer, dir: Option<usize>, name: &'a Name) -> Onward<'a>
    ensures { Passes (holds_under layer.now dir name.now) name.now result }
{
    match dir {
        Some(key) => onward_in(layer, key, name),
        None => Onward::Through,
    }
}

fn onward_from<'a>(key: usize, marks: &'a Marks, name: &'a Name) -> Onward<'a>
    ensures tells { (a : Attributes) → Tells (Some (held.Directory key a marks.now.opaque marks.now.redirect)) name.now result }
    ensures passes { (a : Attributes) → Passes (Some (held.Directory key a marks.now.opaque marks.now.redirect)) name.now result }
{
    match marks {
        Marks { opaque: true, .. } => Onward::Last(key),
        Marks { redirect: None, .. } => Onward::By(key, name),
        Marks {
            redirect: Some(Redirect::Single(other)),
            ..
        } => Onward::By(key, other),
        Marks {
            redirect: Some(Redirect::Absolute(path)),
            ..
        } => Onward::From(key, path),
    }
}
