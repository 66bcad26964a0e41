// What a descriptor leads to.
ghost use Rattle.std.specs.Prelude.{◌≡◌, IfOk, OnOk, OnErr, Some, option_map, drop, take};
ghost use Rattle.open_handles.specs.Listings.{file_in, names_left};

use crate::open_file::OpenFile;
use dir_listing::Cursor;
use ov_base::NameList;
use std::alloc::{AllocError, Global};

/// A directory that is open for reading, by its number among the open directories of the mount, and
/// how far it was listed.
#[derive(Drop)]
pub struct OpenDirectory {
    pub directory: usize,
    pub listing: Cursor,
}

/// What a descriptor leads to: a directory or a file that is open.
#[derive(Drop)]
pub enum Handle {
    Directory(OpenDirectory),
    File(OpenFile),
}

impl Handle {
    /// The file, if it is on one.
    pub fn file(&self) -> Option<OpenFile>
        ensures { result ≡ file_in (Some self.now) }
    {
        match self {
            Handle::File(file) => Some(*file),
            Handle::Directory(_) => None,
        }
    }
}

impl OpenDirectory {
    /// Gives the next names of the listing, at most so many. An allocation failure gives none and
    /// changes nothing.
    pub fn next_names(&mut self, alloc: Global, count: usize) -> Result<NameList, AllocError>
        ensures names { IfOk result (λ names. names ≡ take count (names_left (Some self.old))) }
        ensures left { OnOk result (self.new ≡ record self.old { listing = option_map (drop count) self.old.listing }) }
        ensures err { OnErr result (self.new ≡ self.old) }
    {
        self.listing.next(alloc, count)
    }
}
