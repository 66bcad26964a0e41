// What a call lacks in the upper before it can be made there.
ghost use Rattle.std.specs.Prelude.{◌≡◌, ◌∷◌, [], ℕ, true, false, None, Some};
ghost use Rattle.ov_base.specs.declared.call.CallOf.TheVariants as Call;
ghost use Rattle.plain_model.specs.Layers.{Path as Names, shows};
ghost use Rattle.layer_tree.specs.Tree.{layer_of, mark_at};
ghost use Rattle.merged_lookup.specs.Merged.{upper_of, layers_of, lowers_of, IsTopmost, ShowsInode};
ghost use Rattle.mount_calls.specs.Lacks as lacks;
ghost use Rattle.mount_calls.specs.Lacks.{lacking, parent_lack, lack_among, lack_of};
ghost use Rattle.mount_calls.specs.Lacks.{CanBeHad, LawOfNeeds};
ghost use Rattle.mount_calls.specs.Looking.{IsLook};
ghost use Rattle.mount_calls.specs.Plans.{call_of, IsPlanned};

use crate::files::marked_place;
use crate::look::Look;
use crate::mount::Mount;
use crate::plan::Plan;
use copy_up::{Need, need_at};
use merged_lookup::{Layers, Topmost};
use ov_base::{Content, OpenFlags, Path, Place};
use work_dir::Lack;

/// What `need_at` tells is the lacking parent; it does nothing.
pub fn law_of_needs()
    ensures { LawOfNeeds }
{}

impl Mount {
    /// What a planned call lacks in the upper. Nothing changes, and it takes no memory.
    pub fn lack(&self, plan: &Plan<'_>) -> Lack
        requires { (c : ℕ) × IsPlanned self.now c plan.now }
        ensures lack { result ≡ lack_of (upper_of self.now.layers) (lowers_of self.now.layers)
            self.now.metacopy (call_of plan.now) }
        ensures can { CanBeHad self.now (call_of plan.now) result }
    {
        match plan {
            Plan::Alter {
                path,
                look,
                found,
                ..
            } => self.attribute_lack(path, look, found.1),
            Plan::Mkdir { path, look, .. }
            | Plan::Symlink { path, look, .. }
            | Plan::Unlink { path, look, .. }
            | Plan::Rmdir { path, look, .. } => self.parent_lack(path, look),
            Plan::Open {
                path,
                look,
                flags,
                judged,
            } => self.open_lack(path, look, *flags, judged.top),
            Plan::Link {
                old,
                new,
                from,
                onto,
                found,
            } => {
                let file = copied_inode(&self.layers, self.metacopy, found.2);
                self.both_lack(old, new, from, onto, file)
            }
            Plan::Rename {
                old,
                new,
                from,
                onto,
                moving,
            } => {
                let file = copied_file(&self.layers, self.metacopy, moving.top);
                self.both_lack(old, new, from, onto, file)
            }
            Plan::Nothing { .. } => Lack::Nothing,
        }
    }

    // What a change of the attributes of the topmost object at a path lacks.
    fn attribute_lack(&self, path: &Path, look: &Look, top: Topmost) -> Lack
        requires look { IsLook self.now.layers path.now look.now }
        requires top { IsTopmost self.now.layers path.now (Some top) }
        ensures { result ≡ lack_among (upper_of self.now.layers) false (path.now ∷ [])
            (lacks.copied_file self.now.metacopy (shows 0 (layers_of self.now.layers) path.now)) }
    {
        let near = look.saw_parents(&self.layers);
        let file = copied_file(&self.layers, self.metacopy, top);
        lack_on(&self.layers, path, near, file)
    }

    // What making or removing a name lacks: a parent alone.
    fn parent_lack(&self, path: &Path, look: &Look) -> Lack
        requires { IsLook self.now.layers path.now look.now }
        ensures { result ≡ lack_among (upper_of self.now.layers) false (path.now ∷ []) None }
    {
        let near = look.saw_parents(&self.layers);
        lack_on(&self.layers, path, near, None)
    }

    // What an open lacks, of the topmost object at a path, or of nothing there.
    fn open_lack(&self, path: &Path, look: &Look, flags: OpenFlags, top: Option<Topmost>) -> Lack
        requires look { IsLook self.now.layers path.now look.now }
        requires top { IsTopmost self.now.layers path.now top }
        ensures { (mode : ℕ) → result ≡ lack_of (upper_of self.now.layers)
            (lowers_of self.now.layers) self.now.metacopy (Call.Open path.now flags mode) }
    {
        let Some(top) = top else {
            return self.parent_lack(path, look);
        };
        if !flags.writes {
            return Lack::Nothing;
        }
        let near = look.saw_parents(&self.layers);
        let file = data_file(&self.layers, top);
        lack_on(&self.layers, path, near, file)
    }

    // What a link or a rename lacks that copies this file, if any.
    fn both_lack(
        &self,
        old: &Path,
        new: &Path,
        from: &Look,
        onto: &Look,
        file: Option<Place>,
    ) -> Lack
        requires from { IsLook self.now.layers old.now from.now }
        requires onto { IsLook self.now.layers new.now onto.now }
        ensures { result ≡ lack_among (upper_of self.now.layers) false
            (old.now ∷ (new.now ∷ [])) file }
    {
        let from_near = from.saw_parents(&self.layers);
        let onto_near = onto.saw_parents(&self.layers);
        lack_on_both(&self.layers, old, new, (from_near, onto_near), file)
    }
}

// What is lacking on the way to a path, where its parents weren't seen in the upper, and else a
// file's bytes.
fn lack_on(layers: &Layers, path: &Path, near: bool, file: Option<Place>) -> Lack
    requires { near ≡ true → lacking (layer_of layers.now.upper) path.now ≡ None }
    ensures { result ≡ lack_among (layer_of layers.now.upper) false (path.now ∷ []) file }
{
    way_lack(layers, path, near, false, file_lack(file))
}

// What is lacking on the way to one path, then to another, where their parents weren't seen in the
// upper, and else a file's bytes.
fn lack_on_both(
    layers: &Layers,
    old: &Path,
    new: &Path,
    near: (bool, bool),
    file: Option<Place>,
) -> Lack
    requires old { near.0 ≡ true → lacking (layer_of layers.now.upper) old.now ≡ None }
    requires new { near.1 ≡ true → lacking (layer_of layers.now.upper) new.now ≡ None }
    ensures { result ≡ lack_among (layer_of layers.now.upper) false (old.now ∷ (new.now ∷ []))
        file }
{
    let besides = way_lack(layers, new, near.1, true, file_lack(file));
    way_lack(layers, old, near.0, false, besides)
}

// The topmost parent of a path that the upper lacks, where they weren't all seen there, and else
// what is lacking besides.
fn way_lack(layers: &Layers, path: &Path, near: bool, second: bool, besides: Lack) -> Lack
    requires { near ≡ true → lacking (layer_of layers.now.upper) path.now ≡ None }
    ensures { result ≡ parent_lack second (lacking (layer_of layers.now.upper) path.now) besides }
{
    if near {
        return besides;
    }
    match need_at(layers, path) {
        Need::Directory(count) => Lack::Parent { second, count },
        Need::Nothing => besides,
    }
}

// A file's bytes, where some are lacking.
fn file_lack(file: Option<Place>) -> Lack
    ensures { result ≡ lacks.file_lack file }
{
    match file {
        Some(source) => Lack::File(source),
        None => Lack::Nothing,
    }
}

// Where the bytes are of a file of a lower layer that is shown as the topmost object, if they are
// copied with its attributes.
fn copied_file(layers: &Layers, metacopy: bool, top: Topmost) -> Option<Place>
    requires { (p : Names) × IsTopmost layers.now p (Some top) }
    ensures { (p : Names) → IsTopmost layers.now p (Some top) →
        result ≡ lacks.copied_file metacopy (shows 0 (layers_of layers.now) p) }
{
    match top {
        Topmost::Inode(place) => copied_inode(layers, metacopy, place),
        Topmost::Directory(_) => None,
    }
}

// Where the bytes are of a file that is shown as the topmost object, if they are a lower file's.
fn data_file(layers: &Layers, top: Topmost) -> Option<Place>
    requires { (p : Names) × IsTopmost layers.now p (Some top) }
    ensures { (p : Names) → IsTopmost layers.now p (Some top) →
        result ≡ lacks.data_at (lowers_of layers.now) (shows 0 (layers_of layers.now) p) }
{
    match top {
        Topmost::Inode(place) => data_inode(layers, place),
        Topmost::Directory(_) => None,
    }
}

// Where the bytes are of a file that is shown at a place, if they are a lower file's.
fn data_inode(layers: &Layers, place: Place) -> Option<Place>
    requires { (p : Names) × ShowsInode layers.now p place }
    ensures { (p : Names) → ShowsInode layers.now p place →
        result ≡ lacks.data_at (lowers_of layers.now) (shows 0 (layers_of layers.now) p) }
{
    if place.layer == 0 {
        return marked_place(layers, place.key);
    }
    low_inode(layers, place)
}

// Where the bytes are of a file of a lower layer that is shown at a place, if they are copied with its
// attributes.
fn copied_inode(layers: &Layers, metacopy: bool, place: Place) -> Option<Place>
    requires { (p : Names) × ShowsInode layers.now p place }
    ensures { (p : Names) → ShowsInode layers.now p place →
        result ≡ lacks.copied_file metacopy (shows 0 (layers_of layers.now) p) }
{
    if metacopy {
        return None;
    }
    low_inode(layers, place)
}

// Where a file of a lower layer is that is shown at a place.
fn low_inode(layers: &Layers, place: Place) -> Option<Place>
    requires { (p : Names) × ShowsInode layers.now p place }
    ensures { (p : Names) → ShowsInode layers.now p place →
        result ≡ lacks.low_file (shows 0 (layers_of layers.now) p) }
{
    if place.layer > 0 {
        let inode = layers.inode_at(place);
        return source_of(place, &inode.content);
    }
    None
}

// Where a file is; a symbolic link is no file.
fn source_of(place: Place, content: &Content) -> Option<Place>
    ensures { result ≡ lacks.source_of place.layer place.key content.now }
{
    match content {
        Content::File(_) => Some(place),
        Content::SymbolicLink(_) => None,
    }
}
