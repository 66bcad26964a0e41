// The paths at which the entries of kind `link` of a layer stand.
ghost use Rattle.std.specs.Prelude.{◌≡◌, ℕ, List, [], ◌||◌, OnOk, OnErr, bytes_eq};
ghost use Rattle.ov_wire.specs.Drafts.{has_text};

use ov_base::Bytes;
use std::alloc::{AllocError, Global};
use std::collections::HashSet;
use std::hash::RandomState;
use std::marker::Model;

/// Path texts. The layer itself doesn't know which of an inode's names came first.
#[derive(Drop)]
pub(super) struct LinkPaths {
    texts: HashSet<Bytes, RandomState>,
}

impl Model for LinkPaths {
    ghost use Rattle.std.specs.Prelude.{List, ℕ};

    ghost Value = { List (List ℕ) };

    ghost view = { λ l. l.texts.keys };
}

impl LinkPaths {
    pub(super) fn new(alloc: Global, keys: RandomState) -> LinkPaths
        ensures { result ≡ [] }
    {
        LinkPaths {
            texts: HashSet::with_hasher(alloc, keys),
        }
    }

    pub(super) fn has(&self, text: &Bytes) -> bool
        ensures { result ≡ has_text self.now text.now }
    {
        self.texts.contains(text)
    }

    pub(super) fn add(&mut self, text: Bytes) -> Result<(), AllocError>
        ensures { OnOk result ((other : List ℕ) → has_text self.new other ≡ (bytes_eq other text || has_text self.old other)) }
    {
        self.texts.insert(text)?;
        Ok(())
    }
}
