// Which paths were asked for before, but for chance: only what is asked for twice is kept.

use ov_base::Name;
use std::alloc::{AllocError, Global};
use std::hash::{BuildHasher, FoldHasher, Hasher, RandomState};

// One bit for each path that was asked for, by a hash of its names; two paths may share one. After
// as many marks as there are words of 64 bits all are taken back, so that few are shared.
#[derive(Drop)]
pub(crate) struct Asked {
    key: u64,
    words: Vec<u64>,
    marks: usize,
    // The hash of the directory in which they stood the last time.
    last: Option<u64>,
}

impl Asked {
    // No path was asked for; the table has so many words.
    pub(crate) fn new(alloc: Global, keys: RandomState, words: usize) -> Result<Asked, AllocError> {
        Asked::with_key(alloc, keys.hash_one(0u64), words)
    }

    fn with_key(alloc: Global, key: u64, words: usize) -> Result<Asked, AllocError> {
        let words = Vec::from_elem(alloc, 0, words)?;
        Ok(Asked {
            key,
            words,
            marks: 0,
            last: None,
        })
    }

    // From now on the table has so many words, if there is memory for them, and no path was asked
    // for.
    pub(crate) fn resize(&mut self, alloc: Global, words: usize) {
        if let Ok(resized) = Asked::with_key(alloc, self.key, words) {
            *self = resized;
        }
    }

    // Whether these names were asked for before; from now on they were.
    fn again(&mut self, names: &[Name]) -> bool {
        let hash = self.hash(names);
        let bit = 1u64 << (hash & 63);
        let Some(at) = (hash >> 6).checked_rem(self.words.len() as u64) else {
            return false;
        };
        if self.is_marked(at as usize, bit) {
            return true;
        }
        if self.marks >= self.words.len() {
            self.words.fill(0);
            self.marks = 0;
        }
        self.mark(at as usize, bit);
        false
    }

    // Whether a look-up at these names is to be kept: they are asked for again, where that counts,
    // or their directory is in a row, where none of it is near.
    pub(crate) fn wants(&mut self, names: &[Name], again: bool, near: bool) -> bool {
        again && self.again(names) || !near && self.in_a_row(names)
    }

    // Whether the names asked for before stood in the same directory.
    fn in_a_row(&mut self, names: &[Name]) -> bool {
        let Some((_, parents)) = names.split_last() else {
            return false;
        };
        let hash = self.hash(parents);
        self.last.replace(hash) == Some(hash)
    }

    fn is_marked(&self, at: usize, bit: u64) -> bool {
        match self.words.get(at) {
            Some(word) => word & bit != 0,
            None => false,
        }
    }

    fn mark(&mut self, at: usize, bit: u64) {
        if let Some(word) = self.words.get_mut(at) {
            *word |= bit;
        }
        self.marks = self.marks.saturating_add(1);
    }

    fn hash(&self, names: &[Name]) -> u64 {
        let mut hasher = FoldHasher::default();
        hasher.write_u64(self.key);
        for name in names {
            hasher.write(name.as_slice());
        }
        hasher.finish()
    }
}
