// A beginning of a lower file's bytes.
ghost use Rattle.std.specs.Prelude.{◌≡◌, ◌<◌, ◌≤◌, length, IfOk};
ghost use Rattle.work_dir.specs.Beginnings.{IsBeginning, empty_beginning, longer_beginning, is_whole};
ghost use Rattle.work_dir.specs.declared.limits.TheConstants.{CHUNKS_MAX};

use crate::limits::chunk_of;
use ov_base::{FileBytes, Place};
use std::alloc::AllocError;
use std::marker::Model;

/// A beginning of a lower file's bytes, which is to become its copy. It shares all of them with the
/// file from the start, and counts how many its steps have covered.
#[derive(Drop)]
pub struct Temp {
    source: Place,
    whole: FileBytes,
    chunks: usize,
    covered: usize,
}

impl Model for Temp {
    ghost use Rattle.std.specs.Prelude.{◌≤◌, length, take};
    ghost use Rattle.work_dir.specs.Beginnings.{Beginning};

    ghost Value = { Beginning };

    ghost view = { λ t. record {
      source = t.source;
      whole = t.whole;
      chunks = t.chunks;
      bytes = take t.covered t.whole;
    } };

    ghost invariant = { λ t. t.covered ≤ length t.whole };
}

impl Temp {
    /// No bytes yet of a file of these, which it shares.
    pub fn begin(source: Place, whole: &FileBytes) -> Result<Temp, AllocError>
        ensures { IfOk result (λ t. t ≡ empty_beginning source whole.now) }
    {
        let whole = whole.clone()?;
        Ok(Temp {
            source,
            whole,
            chunks: 0,
            covered: 0,
        })
    }

    /// The file of which it is a beginning.
    pub fn source(&self) -> Place
        ensures { result ≡ self.now.source }
    {
        self.source
    }

    /// How many chunks were copied.
    pub fn chunks(&self) -> usize
        ensures { result ≡ self.now.chunks }
    {
        self.chunks
    }

    /// Whether it has all bytes of its file, which has so many.
    pub fn is_whole(&self, size: usize) -> bool
        ensures { result ≡ is_whole self.now size }
    {
        size <= self.covered
    }

    /// Covers the next chunk of its file's bytes, or what is left of them. It takes no memory, and
    /// no time by the chunk's size.
    pub fn copy_chunk(&mut self)
        requires begun { IsBeginning self.old }
        requires more { length self.old.bytes < length self.old.whole }
        ensures longer { self.new ≡ longer_beginning self.old }
        ensures few { self.old.chunks < CHUNKS_MAX }
    {
        let size = self.whole.len();
        let left = size - self.covered;
        let count = chunk_of(size).min(left);
        self.covered += count;
        self.chunks += 1;
    }
}
