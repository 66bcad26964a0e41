// Look-ups in the lower layers that are kept, and answers by them.
ghost use Rattle.std.specs.Prelude.{◌≡◌, ◌<◌, ◌≤◌, ◌∷◌, [], ℕ, List, Option, IfSome, IfOk};
ghost use Rattle.std.specs.Prelude.{IsTrue, None, length, reverse};
ghost use Rattle.merged_lookup.specs.Merged.{layers_of, parent, way_fault, IsStackOf, IsTopmost};

use crate::descent::topmost;
use crate::found::Topmost;
use crate::kept::{Kept, copied_below, handed_down, places_over, topmost_over};
use crate::layers::Layers;
use crate::stack::{Places, Stack};
use ov_base::{Name, Path, copy_names};
use std::alloc::Global;
use std::num::NonZeroUsize;

// From how many layers on look-ups are kept.
const KEPT_FROM: usize = 3;

impl Layers {
    ghost use Rattle.merged_lookup.specs.Merged.{lowers_of, places_at};
    ghost use Rattle.merged_lookup.specs.Kept.{HandsDown, IsKept};

    /// Keeps at most so many look-ups in the lower layers from now on, up to 65,536, or with 0 no
    /// more than it has.
    pub fn keep_look_ups(&mut self, alloc: Global, most: usize)
        requires few_kept { most ≤ 65536 }
        ensures { self.new ≡ self.old }
    {
        self.asked.resize(alloc, most);
        let most = NonZeroUsize::new(most);
        self.keeps = most.is_some();
        if let Some(most) = most {
            self.kept.resize(most);
        }
    }

    /// Keeps what the lower layers show at the paths of a call, those that were asked for before,
    /// for the look-ups that it makes. It keeps nothing where memory runs out, nor of one lower
    /// layer alone, which is asked as fast.
    pub fn remember(&mut self, alloc: Global, path: &Path, other: Option<&Path>)
        ensures { self.new ≡ self.old }
    {
        if self.count() < KEPT_FROM {
            return;
        }
        self.has_kept = false;
        self.has_near = false;
        self.note(alloc, path, true);
        if let Some(other) = other {
            self.note(alloc, other, true);
        }
    }

    /// The same for the path of a call that removes what it shows, which isn't asked for again.
    pub fn recall(&mut self, alloc: Global, path: &Path)
        ensures { self.new ≡ self.old }
    {
        if self.count() < KEPT_FROM {
            return;
        }
        self.has_kept = false;
        self.has_near = false;
        self.note(alloc, path, false);
    }

    // Notes whether a look-up of a path is kept, or one of its directory. One is from the second
    // time on that the path is asked for, if it may be `again`, and where one path of a directory
    // follows another.
    fn note(&mut self, alloc: Global, path: &Path, again: bool)
        ensures { self.new ≡ self.old }
    {
        let Some((_, parents)) = path.split_last() else {
            return;
        };
        if self.promote(path) {
            self.has_kept = true;
            return;
        }
        let near = parents.is_empty() || self.beside(parents).is_some();
        self.has_near |= near;
        if self.is_wanted(path, again, near) && self.look_below(alloc, path) {
            self.has_kept = true;
        }
    }

    // Whether a look-up of a path is to be kept, where one of its directory is `near` or not.
    fn is_wanted(&mut self, path: &Path, again: bool, near: bool) -> bool
        ensures { self.new ≡ self.old }
    {
        self.asked.wants(path.names(), again, near)
    }

    // Makes the look-up that is kept of a path the latest, if there is one.
    fn promote(&mut self, path: &Path) -> bool
        ensures { self.new ≡ self.old }
    {
        self.kept.promote(path.names())
    }

    // Keeps what the lower layers show at a path, where the upper hands it down as it is and there
    // is memory.
    fn look_below(&mut self, alloc: Global, path: &Path) -> bool
        ensures { self.new ≡ self.old }
    {
        let Some((name, parents)) = path.split_last() else {
            return false;
        };
        if handed_down(self.upper(), parents).is_none() {
            return false;
        }
        let directory = self.handed_places(parents);
        let shown = topmost(self, directory.as_slice(), name);
        let Ok(copies) = copy_names(alloc, path.names()) else {
            return false;
        };
        self.keep(copies, Kept { directory, shown })
    }

    // The directories of the lower layers at names that the upper hands down as they are.
    fn handed_places(&self, names: &[Name]) -> Places
        requires { (dir : Option ℕ) × HandsDown self.now.upper (reverse names.now) dir }
        ensures { result.items ≡ places_at 1 (lowers_of self.now) (reverse names.now) }
    {
        match self.directory(names) {
            Ok(stack) => copied_below(stack.places()),
            Err(_) => Places::new(),
        }
    }

    // Keeps what the lower layers show at these names, if there is memory for it.
    fn keep(&mut self, names: Vec<Name>, kept: Kept) -> bool
        requires { IsKept (lowers_of self.old) (reverse names.items) kept }
        ensures { self.new ≡ self.old }
    {
        self.keeps && self.kept.put(names, kept).is_ok()
    }

    // What is kept for these names, where they are among the two that were used last: a call has
    // two paths at most.
    pub(crate) fn kept_at(&self, names: &[Name]) -> Option<&Kept>
        ensures { IfSome result (λ kept. IsKept (lowers_of self.now) (reverse names.now) kept.now) }
    {
        if !self.has_kept {
            return None;
        }
        let (key, kept) = self.kept.peek_mru()?;
        if key.as_slice() == names {
            return Some(kept);
        }
        self.kept_before(names)
    }

    // What is kept for these names, where they were used last but one.
    fn kept_before(&self, names: &[Name]) -> Option<&Kept>
        ensures { IfSome result (λ kept. IsKept (lowers_of self.now) (reverse names.now) kept.now) }
    {
        let mut entries = self.kept.iter();
        entries.next()?;
        let (key, kept) = entries.next()?;
        if key.as_slice() == names {
            Some(kept)
        } else {
            None
        }
    }

    // The places of the merged directory at these names, by what is kept of a name in it.
    pub(crate) fn near(&self, names: &[Name]) -> Option<Places>
        ensures way { IfSome result
            (λ _. way_fault (layers_of self.now) (reverse names.now) ≡ None) }
        ensures reached { IfSome result
            (λ places. places.items ≡ places_at 0 (layers_of self.now) (reverse names.now)) }
        ensures some { IfSome result (λ places. 0 < length places.items) }
    {
        if !self.has_near || names.is_empty() {
            return None;
        }
        let directory = self.beside(names)?;
        let dir = handed_down(self.upper(), names)?;
        let places = places_over(dir, directory);
        if places.is_empty() {
            return None;
        }
        Some(places)
    }

    // The lower directories at these names, where the look-up of a name in them is among the two
    // that were used last.
    fn beside(&self, names: &[Name]) -> Option<&Places>
        ensures { IfSome result
            (λ places. places.now.items ≡ places_at 1 (lowers_of self.now) (reverse names.now)) }
    {
        let mut entries = self.kept.iter();
        let (key, kept) = entries.next()?;
        if stand_in(key.as_slice(), names) {
            return Some(&kept.directory);
        }
        let (key, kept) = entries.next()?;
        if stand_in(key.as_slice(), names) {
            Some(&kept.directory)
        } else {
            None
        }
    }

    // The merged directory of a path's last name and what it shows, by what is kept.
    pub(crate) fn kept_look(&self, path: &Path) -> Option<(Stack, Option<Topmost>)>
        ensures way { IfSome result (λ _. way_fault (layers_of self.now) (parent path.now) ≡ None) }
        ensures directory { IfSome result (λ look. IsStackOf self.now (parent path.now) look.0) }
        ensures topmost { IfSome result (λ look. IsTopmost self.now path.now look.1) }
    {
        let (name, parents) = path.split_last()?;
        let kept = self.kept_at(path.names())?;
        let dir = handed_down(self.upper(), parents)?;
        let places = places_over(dir, &kept.directory);
        if places.is_empty() {
            return None;
        }
        let shown = topmost_over(self.upper(), dir, name, kept.shown);
        Some((Stack { places }, shown))
    }

    // What a path shows, by what is kept.
    pub(crate) fn kept_topmost(&self, path: &Path) -> Option<Option<Topmost>>
        ensures way { IfSome result (λ _. way_fault (layers_of self.now) (parent path.now) ≡ None) }
        ensures topmost { IfSome result (λ shown. IsTopmost self.now path.now shown) }
    {
        let (name, parents) = path.split_last()?;
        let kept = self.kept_at(path.names())?;
        let dir = handed_down(self.upper(), parents)?;
        if dir.is_none() && kept.directory.is_empty() {
            return None;
        }
        Some(topmost_over(self.upper(), dir, name, kept.shown))
    }
}

// Whether the last of these names stands in this directory.
fn stand_in(names: &[Name], directory: &[Name]) -> bool
    ensures { IsTrue result → (name : List ℕ) × (reverse names.now ≡ name ∷ reverse directory.now) }
{
    match names.split_last() {
        Some((_, parents)) => parents == directory,
        None => false,
    }
}
