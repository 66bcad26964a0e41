// The path of an object of the upper that is known by its key.
ghost use Rattle.std.specs.Prelude.{◌≡◌, ◌∷◌, ◌++◌, [], Some, None, IfOk, OnOk};
ghost use Rattle.plain_model.specs.Layers as model;
ghost use Rattle.layer_tree.specs.Tree.{key_at, child};
ghost use Rattle.merged_lookup.specs.Locating.{IsPlaceOf, ShowsUpper};
ghost use Rattle.merged_lookup.specs.Searching.{Covers, GoesOn, Offers, path_of};

use crate::candidate::Candidate;
use crate::layers::Layers;
use crate::paths::path_of;
use layer_tree::{Entry, Layer, ROOT};
use ov_base::{Name, Path};
use std::alloc::{AllocError, Global};

// A directory whose names were not looked at yet.
#[derive(Drop)]
struct Waiting {
    key: usize,
    path: Path,
}

// A search for a key: the directories that it has still to look at, and the path of the least text so far.
#[derive(Drop)]
struct Search {
    key: usize,
    waiting: Vec<Waiting>,
    best: Option<Candidate>,
}

impl Layers {
    /// The path at which the mount shows what stands under a key of the upper: of several names of an inode the one whose text is least by
    /// bytes, and none where no name leads to it. It goes through the upper's directories.
    pub fn locate(&self, alloc: Global, key: usize) -> Result<Option<Path>, AllocError>
        ensures place { IfOk result (IsPlaceOf self.now key) }
        ensures shown { IfOk result (ShowsUpper self.now key) }
    {
        let layer = self.upper();
        layer.lawful();
        if key == ROOT {
            return Ok(Some(Path::root(alloc)));
        }
        let mut search = Search::new(alloc, key)?;
        for _ in 0..u64::MAX {
            let Some(directory) = search.waiting.pop() else {
                return Ok(search.path());
            };
            search.look_in(alloc, layer, &directory)?;
        }
        // No memory holds a layer of so many directories.
        Err(AllocError)
    }
}

impl Search {
    // A search at the root.
    fn new(alloc: Global, key: usize) -> Result<Search, AllocError>
        ensures key { IfOk result (λ s. s.key ≡ key) }
        ensures waiting { IfOk result (λ s. s.waiting.items ≡ record { key = 0; path = [] } ∷ []) }
        ensures best { IfOk result (λ s. s.best ≡ None) }
    {
        let mut waiting = Vec::new(alloc);
        waiting.push(Waiting {
            key: ROOT,
            path: Path::root(alloc),
        })?;
        Ok(Search {
            key,
            waiting,
            best: None,
        })
    }

    // The best path.
    fn path(self) -> Option<Path>
        ensures { result ≡ path_of self.best }
    {
        Some(self.best?.path)
    }

    // Looks at the names of a directory.
    fn look_in(
        &mut self,
        alloc: Global,
        layer: &Layer,
        directory: &Waiting,
    ) -> Result<(), AllocError>
        requires { key_at layer.now directory.now.path ≡ Some directory.now.key }
        ensures goes { OnOk result (GoesOn layer.now self.old self.new) }
        ensures looked { OnOk result ((n : model.Name) (r : model.Path) → Covers layer.now self.old.key self.new (r ++ n ∷ directory.now.path)) }
    {
        for name in layer.bound_names(directory.key) {
            let Some(key) = object_at(layer, directory.key, name) else {
                continue;
            };
            self.meet(alloc, layer, key, directory, name)?;
        }
        Ok(())
    }

    // Meets the object under a key at a name of a directory.
    fn meet(
        &mut self,
        alloc: Global,
        layer: &Layer,
        key: usize,
        directory: &Waiting,
        name: &Name,
    ) -> Result<(), AllocError>
        requires { key_at layer.now (name.now ∷ directory.now.path) ≡ Some key }
        ensures goes { OnOk result (GoesOn layer.now self.old self.new) }
        ensures met { OnOk result ((r : model.Path) → Covers layer.now self.old.key self.new (r ++ name.now ∷ directory.now.path)) }
    {
        layer.lawful();
        if key == self.key {
            return self.offer(alloc, path_below(alloc, &directory.path, name)?);
        }
        if layer.is_directory(key) {
            let path = path_below(alloc, &directory.path, name)?;
            self.waiting.push(Waiting { key, path })?;
        }
        Ok(())
    }

    // Takes a path that leads to the key for the best, unless its text is greater.
    fn offer(&mut self, alloc: Global, path: Path) -> Result<(), AllocError>
        ensures { OnOk result (Offers path self.old self.new) }
    {
        let candidate = Candidate::new(alloc, path)?;
        let after = match &self.best {
            Some(best) => candidate.is_after(best),
            None => false,
        };
        if !after {
            self.best = Some(candidate);
        }
        Ok(())
    }
}

// The key of the object at a name of a directory.
fn object_at(layer: &Layer, directory: usize, name: &Name) -> Option<usize>
    ensures { result ≡ child layer.now directory name.now }
{
    match layer.entry(directory, name) {
        Some(Entry::Object(key)) => Some(key),
        _ => None,
    }
}

// The path of a name in the directory at a path.
fn path_below(alloc: Global, directory: &Path, name: &Name) -> Result<Path, AllocError>
    ensures { IfOk result (λ path. path ≡ name.now ∷ directory.now) }
{
    let mut path = path_of(alloc, directory.names())?;
    path.push(name.clone()?)?;
    Ok(path)
}
