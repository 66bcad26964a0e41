// How far a directory was listed.
ghost use Rattle.std.specs.Prelude.{◌≡◌, [], None, Some, IfOk, OnOk, OnErr, drop, is_some, option_map, take, unwrap_or};

use ov_base::{Name, NameList, copy_names};
use std::alloc::{AllocError, Global};
use std::marker::Model;

/// Keeps a listing and how far it was given. Contracts see the names that are still to be given, or none before a listing is made.
#[derive(Drop)]
pub struct Cursor {
    listing: Option<Listing>,
}

impl Model for Cursor {
    ghost use Rattle.std.specs.Prelude.{List, Option, ℕ};

    ghost Value = { Option (List (List ℕ)) };

    ghost view = { λ c. c.listing };
}

impl Cursor {
    /// A cursor whose listing is still to be made.
    pub fn new() -> Cursor
        ensures { result ≡ None }
    {
        Cursor { listing: None }
    }

    /// A cursor before the first of these names.
    pub fn over(names: Vec<Name>) -> Cursor
        ensures { result ≡ Some names.items }
    {
        Cursor {
            listing: Some(Listing::new(names)),
        }
    }

    /// Whether a listing is kept.
    pub fn is_listed(&self) -> bool
        ensures { result ≡ is_some self.now }
    {
        self.listing.is_some()
    }

    /// Gives the next names of the listing that is kept, at most so many. An allocation failure
    /// gives none and changes nothing.
    pub fn next(&mut self, alloc: Global, count: usize) -> Result<NameList, AllocError>
        ensures names { IfOk result (λ names. names ≡ take count (unwrap_or self.old [])) }
        ensures left { OnOk result (self.new ≡ option_map (drop count) self.old) }
        ensures err { OnErr result (self.new ≡ self.old) }
    {
        match &mut self.listing {
            Some(listing) => listing.take(alloc, count),
            None => Ok(NameList::new(alloc)),
        }
    }

    /// Lets the listing go, so that it is to be made anew.
    pub fn rewind(&mut self)
        ensures { self.new ≡ None }
    {
        self.listing = None;
    }
}

// The names of a directory as they were when the listing was made; none are kept once the last was
// given. Contracts see those that are still to be given.
#[derive(Drop)]
struct Listing {
    names: Vec<Name>,
    given: usize,
}

impl Model for Listing {
    ghost use Rattle.std.specs.Prelude.{List, ℕ, drop, ◌≤◌, vec_len};

    ghost Value = { List (List ℕ) };

    ghost view = { λ l. drop l.given l.names.items };

    ghost invariant = { λ l. l.given ≤ vec_len l.names };
}

impl Listing {
    // A listing of which no name was given.
    fn new(names: Vec<Name>) -> Listing
        ensures { result ≡ names.items }
    {
        Listing { names, given: 0 }
    }

    // Gives the next names, at most so many, and lets all go with the last one. An allocation
    // failure gives none and changes nothing.
    fn take(&mut self, alloc: Global, count: usize) -> Result<NameList, AllocError>
        ensures names { IfOk result (λ names. names ≡ take count self.old) }
        ensures left { OnOk result (self.new ≡ drop count self.old) }
        ensures err { OnErr result (self.new ≡ self.old) }
    {
        let left = self.names.len() - self.given;
        let end = self.given + left.min(count);
        let names = copy_names(alloc, &self.names.as_slice()[self.given..end])?;
        if end < self.names.len() {
            self.given = end;
        } else {
            *self = Listing::new(Vec::new(alloc));
        }
        Ok(NameList::from_vec(names))
    }
}
