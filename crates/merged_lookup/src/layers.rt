// The layers of a mount.
ghost use Rattle.std.specs.Prelude.{◌≡◌, ◌≢◌, ◌+◌, ◌<◌, ◌≤◌, ◌∷◌, ◌++◌, [], List, ℕ, Option, length, slice_get, Some, None, is_some, IsOk, IfOk, IfErr, IfSome, MatchOption, OnOk, ◌↔◌, map, reverse, take};
ghost use Rattle.std.specs.Vec.{vec_len};
ghost use Rattle.std.specs.Option.{option_copied, option_and_then};
ghost use Rattle.ov_base.specs.declared.attributes.Attributes.{Attributes};
ghost use Rattle.plain_model.specs.Layers as held;
ghost use Rattle.plain_model.specs.Layers.{Path, shows, is_directory, under};
ghost use Rattle.layer_tree.specs.Tree.{layer_of, inode_of, inode_at, child, IsTree, IsHeldTogether};

use crate::asked::Asked;
use crate::crossing::cross_all;
use crate::descent::{below_upper, copied, enter, roots, topmost};
use crate::found::{Found, Parent, Topmost};
use crate::kept::Kept;
use crate::numbered::Numbered;
use crate::stack::{Places, Stack};
use crate::stacked::Stacked;
use crate::trail::{Trail, trail_past};
use layer_tree::{Inode, Layer, Node, ROOT};
use lru::LruCache;
use ov_base::{Attributes, Content, Errno, Name, Path, Place};
use std::alloc::{AllocError, Global};
use std::hash::RandomState;
use std::marker::Model;
use std::num::NonZeroUsize;

/// The most layers of a mount: the upper and 16 lower ones.
pub const LAYERS_MAX: usize = 17;

// What the root shows: the upper's root directory.
const ROOT_SHOWN: Topmost = Topmost::Directory(Place {
    layer: 0,
    key: ROOT,
});

// The most names of a path on which the trail is followed. On longer ones a crossing costs less than the comparisons.
const FOLLOWED_MAX: usize = 16;

/// The layers of a mount. Layer 0 is the upper, which takes every change; the lower ones follow,
/// the nearest first. Contracts see them without the look-ups that are kept.
#[derive(Drop)]
pub struct Layers {
    pub(crate) stacked: Stacked,
    pub(crate) kept: LruCache<Vec<Name>, Kept, RandomState>,
    // Whether more look-ups are kept.
    pub(crate) keeps: bool,
    // Whether a path of the call that is made now is among them.
    pub(crate) has_kept: bool,
    // Whether another one of the directory of such a path may be.
    pub(crate) has_near: bool,
    pub(crate) asked: Asked,
}

impl Model for Layers {
    ghost use Rattle.std.specs.Prelude.{map};
    ghost use Rattle.layer_tree.specs.Tree.{layer_of};
    ghost use Rattle.merged_lookup.specs.declared.stacked.Stacked.{Stacked};

    ghost Value = { Stacked };

    ghost use Rattle.merged_lookup.specs.contracts.stacked.Stacked as alone;

    ghost coded = { alone.the_row.coded };

    ghost use Rattle.merged_lookup.specs.Kept.{AllKept};

    ghost view = { λ l. l.stacked };

    ghost invariant = { λ l. AllKept (map layer_of l.stacked.lowers.items) l.kept.entries };
}

impl Layers {
    ghost use Rattle.merged_lookup.specs.Merged.{trees, node_in, fill_at, layers_of, lowers_of, places_at, IsStackOf, IsAnswer, IsFound, IsTopmost, IsParentOf, parent, parents_fault, walk_fault, way_fault, inode_fault, place_fault, ShowsInode};
    ghost use Rattle.merged_lookup.specs.Descent.{first, places_from};
    ghost use Rattle.merged_lookup.specs.Changing.{LendsUpper};
    ghost use Rattle.merged_lookup.specs.Numbered.{row};
    ghost use Rattle.merged_lookup.specs.Trails.{IsTrail, IsUppers};
    ghost use Rattle.std.specs.Borrow.{sem};
    ghost use Rattle.layer_tree.specs.declared.node.Node.TheVariants as Node;

    /// An upper layer over 1 to 16 lower ones, the nearest first. So many look-ups in the lower ones
    /// are kept, at most 65,536. An allocation failure hands the layers back.
    pub fn new(
        alloc: Global,
        keys: RandomState,
        upper: Layer,
        lowers: Vec<Layer>,
        kept: usize,
    ) -> Result<Layers, (Layer, Vec<Layer>)>
        requires some_lower { 0 < vec_len lowers }
        requires few_lowers { vec_len lowers ≤ 16 }
        requires some_kept { 0 < kept }
        requires few_kept { kept ≤ 65536 }
        ensures upper { IfOk result (λ layers. layers.upper ≡ upper) }
        ensures lowers { IfOk result (λ layers. layers.lowers ≡ lowers) }
        ensures back { IfErr result (λ back. (back.0 ≡ upper) × (back.1 ≡ lowers)) }
    {
        let Some(most) = NonZeroUsize::new(kept) else {
            unreachable!()
        };
        let Ok(asked) = Asked::new(alloc, keys, kept) else {
            return Err((upper, lowers));
        };
        let Ok(kept) = LruCache::with_hasher(alloc, most, keys) else {
            return Err((upper, lowers));
        };
        let stacked = Stacked { upper, lowers };
        Ok(Layers {
            stacked,
            kept,
            keeps: true,
            has_kept: false,
            has_near: false,
            asked,
        })
    }

    /// The upper layer and the lower ones, as they are now.
    pub fn into_parts(self) -> (Layer, Vec<Layer>)
        ensures upper { result.0 ≡ self.upper }
        ensures lowers { result.1 ≡ self.lowers }
    {
        (self.stacked.upper, self.stacked.lowers)
    }

    /// The upper layer.
    pub fn upper(&self) -> &Layer
        ensures { result.now ≡ self.now.upper }
    {
        &self.stacked.upper
    }

    /// The upper layer, to change it; the lower ones stay.
    pub fn upper_mut(&mut self) -> &mut Layer
        ensures value { result.now ≡ self.old.upper }
        ensures* lends { sem 𝓛 (LendsUpper self.entry result) }
    {
        self.stacked.upper_mut()
    }

    /// What the upper keeps, for those who reason about one; it does nothing.
    pub fn lawful(&self)
        ensures tree { IsTree self.now.upper }
        ensures together { IsHeldTogether (layer_of self.now.upper) }
        ensures unnamed { (key : ℕ) (i : held.Inode) → inode_at self.now.upper key ≡ Some i → i.links ≡ 0 → (dir : ℕ) (name : List ℕ) → child self.now.upper dir name ≢ Some key }
    {
        self.stacked.upper.lawful();
    }

    // The layers by their numbers.
    pub(crate) fn numbered(&self) -> Numbered<'_>
        ensures row { row result ≡ trees self.now }
        ensures few { length result.lowers.now ≤ 16 }
    {
        Numbered {
            upper: &self.stacked.upper,
            lowers: self.stacked.lowers.as_slice(),
        }
    }

    /// How many layers there are, the upper included.
    pub fn count(&self) -> usize
        ensures count { result ≡ length (trees self.now) }
        ensures few { result ≤ 17 }
    {
        self.numbered().count()
    }

    /// A layer by its number, 0 for the upper.
    pub fn layer(&self, index: usize) -> Option<&Layer>
        ensures { option_copied result ≡ slice_get (trees self.now) index }
    {
        self.numbered().layer(index)
    }

    /// The root directory.
    pub fn root(&self) -> Stack
        ensures { IsStackOf self.now [] result }
    {
        Stack {
            places: roots(self, 0),
        }
    }

    /// The object at a place.
    pub fn node(&self, place: Place) -> Option<&Node>
        ensures { option_copied result ≡ node_in (trees self.now) place }
    {
        self.layer(place.layer)?.node(place.key)
    }

    /// The attributes of the directory that is shown at a place.
    pub fn attributes_at(&self, place: Place) -> &Attributes
        requires { (p : Path) × (a : Attributes) × (shows 0 (layers_of self.now) p ≡ Some (held.Folder place.layer place.key a)) }
        ensures { (p : Path) (a : Attributes) → shows 0 (layers_of self.now) p ≡ Some (held.Folder place.layer place.key a) → result.now ≡ a }
    {
        let Some(layer) = self.layer(place.layer) else {
            unreachable!()
        };
        layer.lawful();
        match layer.node(place.key) {
            Some(Node::Directory(directory)) => &directory.attributes,
            _ => unreachable!(),
        }
    }

    /// The file or symbolic link that is shown at a place.
    pub fn inode_at(&self, place: Place) -> &Inode
        requires { (p : Path) × ShowsInode self.now p place }
        ensures { (p : Path) → ShowsInode self.now p place → shows 0 (layers_of self.now) p ≡ Some (held.Contents place.layer place.key (fill_at place.layer (lowers_of self.now) (inode_of (Node.Inode result.now)))) }
    {
        let Some(layer) = self.layer(place.layer) else {
            unreachable!()
        };
        layer.lawful();
        match layer.node(place.key) {
            Some(Node::Inode(inode)) => inode,
            _ => unreachable!(),
        }
    }

    /// What a name shows in a merged directory.
    pub fn step(&self, stack: &Stack, name: &Name) -> Option<Found>
        ensures { (p : Path) → IsStackOf self.now p stack.now → IsAnswer self.now (name.now ∷ p) result }
    {
        self.found(copied(&stack.places), name)
    }

    // What a name shows in the merged directory of these places.
    fn found(&self, places: Places, name: &Name) -> Option<Found>
        ensures { (p : Path) → places.items ≡ places_at 0 (layers_of self.now) p → IsAnswer self.now (name.now ∷ p) result }
    {
        let mut places = places;
        let inode = enter(self, &mut places, name, None, &mut false);
        if !places.is_empty() {
            return Some(Found::Directory(Stack { places }));
        }
        Some(Found::Inode(inode?))
    }

    /// What a name shows in a merged directory, by the topmost object there.
    pub fn topmost(&self, stack: &Stack, name: &Name) -> Option<Topmost>
        ensures { (p : Path) → IsStackOf self.now p stack.now → IsTopmost self.now (name.now ∷ p) result }
    {
        topmost(self, stack.places(), name)
    }

    /// Whether a name shows something in a merged directory.
    pub fn shows(&self, stack: &Stack, name: &Name) -> bool
        ensures shown { (p : Path) → IsStackOf self.now p stack.now → result ≡ is_some (shows 0 (layers_of self.now) (name.now ∷ p)) }
        ensures by_places { result ≡ is_some (first (trees self.now) stack.now.places.items name.now) }
    {
        topmost(self, stack.places(), name).is_some()
    }

    /// The merged directory in which the last name of a path stands, and the topmost object that the
    /// path shows, if it shows any; the root's directory is the root. The way is refused as by
    /// `parent_of`.
    pub fn look(&self, path: &Path) -> Result<(Stack, Option<Topmost>), Errno>
        ensures refused { IfErr result (λ e. parents_fault (layers_of self.now) path.now ≡ Some e) }
        ensures way { OnOk result (parents_fault (layers_of self.now) path.now ≡ None) }
        ensures directory { IfOk result (λ look. IsStackOf self.now (parent path.now) look.0) }
        ensures topmost { IfOk result (λ look. IsTopmost self.now path.now look.1) }
    {
        let mut places = roots(self, 0);
        let shown = self.look_into(path, &mut places)?;
        Ok((Stack { places }, shown))
    }

    // `look`, where the places of the roots become those of the directory.
    fn look_into(&self, path: &Path, places: &mut Places) -> Result<Option<Topmost>, Errno>
        requires roots { places.old.items ≡ places_at 0 (layers_of self.now) [] }
        requires some { 0 < length places.old.items }
        ensures refused { IfErr result (λ e. parents_fault (layers_of self.now) path.now ≡ Some e) }
        ensures way { OnOk result (parents_fault (layers_of self.now) path.now ≡ None) }
        ensures directory { OnOk result
            (places.new.items ≡ places_at 0 (layers_of self.now) (parent path.now)) }
        ensures some { OnOk result (0 < length places.new.items) }
        ensures topmost { IfOk result (IsTopmost self.now path.now) }
    {
        let Some((name, parents)) = path.split_last() else {
            return Ok(Some(ROOT_SHOWN));
        };
        if self.has_kept
            && let Some((kept, shown)) = self.kept_look(path)
        {
            *places = kept.places;
            return Ok(shown);
        }
        self.reach(parents, places)?;
        Ok(topmost(self, places.as_slice(), name))
    }

    /// The merged directory in which the last name of a path stands, with that name; none for the root. On the way to the last name a
    /// name that shows nothing is ENOENT, a file ENOTDIR and a symbolic link ELOOP.
    pub fn parent_of<'a>(&self, path: &'a Path) -> Result<Option<Parent<'a>>, Errno>
        ensures found { IfOk result (λ found. MatchOption found (path.now ≡ []) (IsParentOf self.now path.now)) }
        ensures refused { IfErr result (λ e. parents_fault (layers_of self.now) path.now ≡ Some e) }
    {
        let Some((name, parents)) = path.split_last() else {
            return Ok(None);
        };
        if let Some((stack, _)) = self.kept_look(path) {
            return Ok(Some(Parent { stack, name }));
        }
        let stack = self.directory(parents)?;
        Ok(Some(Parent { stack, name }))
    }

    /// What a path shows. The way is refused as by `parent_of`; where nothing is shown it is ENOENT.
    pub fn walk(&self, path: &Path) -> Result<Found, Errno>
        ensures found { IfOk result (λ f. IsFound self.now path.now f) }
        ensures refused { IfErr result (λ e. walk_fault (layers_of self.now) path.now ≡ Some e) }
        ensures answers { IsOk result ↔ (walk_fault (layers_of self.now) path.now ≡ None) }
    {
        match self.parent_of(path)? {
            None => Ok(Found::Directory(self.root())),
            Some(parent) => match self.step(&parent.stack, parent.name) {
                Some(found) => Ok(found),
                None => Err(Errno::ENOENT),
            },
        }
    }

    /// `walk` to the topmost object that a path shows, without the directories below it.
    pub fn walk_topmost(&self, path: &Path) -> Result<Topmost, Errno>
        ensures found { IfOk result (λ top. IsTopmost self.now path.now (Some top)) }
        ensures refused { IfErr result (λ e. walk_fault (layers_of self.now) path.now ≡ Some e) }
        ensures answers { IsOk result ↔ (walk_fault (layers_of self.now) path.now ≡ None) }
    {
        let Some((name, parents)) = path.split_last() else {
            return Ok(ROOT_SHOWN);
        };
        let topmost = match self.kept_topmost(path) {
            Some(topmost) => topmost,
            None => self.topmost(&self.directory(parents)?, name),
        };
        match topmost {
            Some(shown) => Ok(shown),
            None => Err(Errno::ENOENT),
        }
    }

    /// The directory that names lead to from the root.
    pub(crate) fn directory(&self, names: &[Name]) -> Result<Stack, Errno>
        ensures found { IfOk result (λ s. (way_fault (layers_of self.now) (reverse names.now) ≡ None) × IsStackOf self.now (reverse names.now) s) }
        ensures refused { IfErr result (λ e. way_fault (layers_of self.now) (reverse names.now) ≡ Some e) }
    {
        let mut places = roots(self, 0);
        self.reach(names, &mut places)?;
        Ok(Stack { places })
    }

    // From the roots to the directory that names lead to, by what is kept of it or name by name.
    fn reach(&self, names: &[Name], places: &mut Places) -> Result<(), Errno>
        requires roots { places.old.items ≡ places_at 0 (layers_of self.now) [] }
        requires some { 0 < length places.old.items }
        ensures way { OnOk result (way_fault (layers_of self.now) (reverse names.now) ≡ None) }
        ensures reached { OnOk result
            (places.new.items ≡ places_at 0 (layers_of self.now) (reverse names.now)) }
        ensures some { OnOk result (0 < length places.new.items) }
        ensures refused { IfErr result
            (λ e. way_fault (layers_of self.now) (reverse names.now) ≡ Some e) }
    {
        match self.near(names) {
            Some(near) => {
                *places = near;
                Ok(())
            }
            None => self.go_down(names, places),
        }
    }

    // From the roots to the directory that names lead to, name by name as long as no more than one of
    // them crosses the layers.
    fn go_down<'a>(&'a self, names: &'a [Name], places: &mut Places) -> Result<(), Errno>
        requires roots { places.old.items ≡ places_at 0 (layers_of self.now) [] }
        requires some { 0 < length places.old.items }
        ensures way { OnOk result (way_fault (layers_of self.now) (reverse names.now) ≡ None) }
        ensures reached { OnOk result
            (places.new.items ≡ places_at 0 (layers_of self.now) (reverse names.now)) }
        ensures some { OnOk result (0 < length places.new.items) }
        ensures refused { IfErr result (λ e. way_fault (layers_of self.now) (reverse names.now) ≡ Some e) }
    {
        let mut trail = Some(Trail {
            redirect: &[],
            since: &[],
        });
        let mut crossed = false;
        for (index, name) in names.iter().enumerate() {
            let mut again = false;
            let inode = enter(self, places, name, trail, &mut again);
            if crossed && again {
                return self.go_down_at_once(names, places);
            }
            crossed |= again;
            if places.is_empty() {
                return Err(self.fault_at(inode));
            }
            trail = self.trail_on(trail, places.as_slice()[0], names, index + 1);
        }
        Ok(())
    }

    // The trail one name on, where this is the first place that so many of the names lead to; none where that isn't the upper's, which then
    // has no redirect further on, and none for many names, since each redirect is compared with them.
    fn trail_on<'a>(
        &'a self,
        trail: Option<Trail<'a>>,
        first: Place,
        names: &'a [Name],
        walked: usize,
    ) -> Option<Trail<'a>>
        requires within { walked ≤ length names.now }
        requires since { IfSome trail (λ t. length t.since.now < walked) }
        ensures { (before : List held.Name) (n : held.Name) → take walked names.now ≡ before ++ n ∷ [] → IsUppers self.now.upper (n ∷ reverse before) first → IfSome trail.entry (IsTrail self.now.upper before) → IfSome result (IsTrail self.now.upper (take walked names.now)) }
    {
        if first.layer != 0 || names.len() > FOLLOWED_MAX {
            return None;
        }
        match self.upper().node(first.key) {
            Some(Node::Directory(directory)) => trail_past(
                trail,
                &directory.marks,
                &names[..walked],
            ),
            _ => None,
        }
    }

    // `go_down`, whatever redirects are on the way: by one crossing of the layers, and a few more
    // where there is no directory.
    fn go_down_at_once(&self, names: &[Name], places: &mut Places) -> Result<(), Errno>
        ensures way { OnOk result (way_fault (layers_of self.now) (reverse names.now) ≡ None) }
        ensures reached { OnOk result
            (places.new.items ≡ places_at 0 (layers_of self.now) (reverse names.now)) }
        ensures some { OnOk result (0 < length places.new.items) }
        ensures refused { IfErr result (λ e. way_fault (layers_of self.now) (reverse names.now) ≡ Some e) }
    {
        *places = cross_all(self, 0, names);
        if places.is_empty() {
            return Err(self.fault_on(names));
        }
        Ok(())
    }

    /// Whether the lower layers show a directory at a name of a merged directory, whatever the upper has there.
    pub fn lowers_show_directory(&self, parent: &Stack, name: &Name) -> bool
        ensures { (p : Path) → IsStackOf self.now p parent.now → result ≡ is_directory (under (layer_of self.now.upper) (lowers_of self.now) name.now p) }
    {
        match topmost(self, below_upper(parent.places()), name) {
            Some(shown) => shown.is_directory(),
            None => false,
        }
    }

    /// Whether the lower layers show something at a name of a merged directory, whatever the upper has there.
    pub fn lowers_show(&self, parent: &Stack, name: &Name) -> bool
        ensures { (p : Path) → IsStackOf self.now p parent.now → result ≡ is_some (under (layer_of self.now.upper) (lowers_of self.now) name.now p) }
    {
        topmost(self, below_upper(parent.places()), name).is_some()
    }
}
