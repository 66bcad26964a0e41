// One object that is held, a directory or a file, or one that has such ones below it.
ghost use Rattle.std.specs.Prelude.{◌≡◌, ◌≢◌, ℕ, ◌+◌, ◌≤◌, List, [], None, Some, IsTrue, ◌↔◌, OnOk, OnErr, IsSome, IsOk, IfSome, IfNone};
ghost use Rattle.std.specs.Option.{option_copied};
ghost use Rattle.object_table.specs.declared.dentry.Place.TheVariants as place;
ghost use Rattle.object_table.specs.Dentries.{HOLDERS_MAX, child_in};
ghost use Rattle.object_table.specs.Steps.{IsIdle, left_unlisted, Lists, SameDentry};

use crate::children::Children;
use ov_base::{Attributes, Name};
use std::alloc::{AllocError, Global};
use std::hash::RandomState;

/// What is known of an object that stands in no directory: the attributes that a directory had when
/// it was removed, the key of a file of the upper, or nothing, of what has lost its last name.
#[derive(Drop)]
pub enum Unlisted {
    Removed(Attributes),
    Upper(usize),
    Nowhere,
}

/// Where an object stands: as the root, under a name in a directory, or in none.
#[derive(Drop)]
pub enum Place {
    Root,
    In(usize, Name),
    Apart(Unlisted),
}

/// An object: where it stands, how many hold it, and those of its children that have an entry.
#[derive(Drop)]
pub struct Dentry {
    pub place: Place,
    pub holders: usize,
    pub children: Children,
}

impl Dentry {
    /// The entry of an object that nobody holds yet.
    pub fn new(alloc: Global, keys: RandomState, place: Place) -> Dentry
        ensures place { result.place ≡ place }
        ensures holders { result.holders ≡ 0 }
        ensures children { result.children.entries ≡ [] }
    {
        Dentry {
            place,
            holders: 0,
            children: Children::new(alloc, keys),
        }
    }

    /// Whether nothing keeps the entry: it isn't the root, and neither a handle nor a child needs
    /// it.
    pub fn is_idle(&self) -> bool
        ensures { IsTrue result ↔ IsIdle self.now }
    {
        self.holders == 0 && self.children.is_empty() && !matches!(self.place, Place::Root)
    }

    /// The number of the directory in which it stands, and its name there.
    pub fn parent(&self) -> Option<(usize, &Name)>
        ensures some { IfSome result (λ up. self.now.place ≡ place.In up.0 up.1.now) }
        ensures none { IfNone result ((d : ℕ) (n : List ℕ) → self.now.place ≢ place.In d n) }
    {
        match &self.place {
            Place::In(parent, name) => Some((*parent, name)),
            _ => None,
        }
    }

    /// What is known of it where it stands in no directory.
    pub fn apart(&self) -> Option<&Unlisted>
        ensures { option_copied result ≡ left_unlisted self.now.place }
    {
        match &self.place {
            Place::Apart(unlisted) => Some(unlisted),
            _ => None,
        }
    }

    /// Lists a child at a name.
    pub fn list(&mut self, name: Name, key: usize) -> Result<(), AllocError>
        ensures ok { OnOk result (Lists self.old self.new name (Some key)) }
        ensures err { OnErr result (SameDentry self.old self.new) }
    {
        self.children.insert(name, key)
    }

    /// Lists another child at a name at which one is listed. It takes no memory.
    pub fn relist(&mut self, name: &Name, key: usize)
        requires { IsSome (child_in self.old name.now) }
        ensures { Lists self.old self.new name.now (Some key) }
    {
        self.children.replace(name, key);
    }

    /// Takes the child at a name off the list.
    pub fn unlist(&mut self, name: &Name)
        ensures { Lists self.old self.new name.now None }
    {
        self.children.remove(name);
    }

    /// An entry that stands in no directory, with one holder.
    pub fn held_apart(alloc: Global, keys: RandomState, to: Unlisted) -> Dentry
        ensures place { result.place ≡ place.Apart to }
        ensures holders { result.holders ≡ 1 }
        ensures children { result.children.entries ≡ [] }
    {
        Dentry {
            place: Place::Apart(to),
            holders: 1,
            children: Children::new(alloc, keys),
        }
    }

    /// Counts so many holders more. Where they can't be counted, it fails and changes nothing.
    pub fn hold_more(&mut self, count: usize) -> Result<(), AllocError>
        ensures ok { OnOk result (self.new ≡ record self.old { holders = self.old.holders + count }) }
        ensures countable { OnOk result (self.old.holders + count ≤ HOLDERS_MAX) }
        ensures err { OnErr result (self.new ≡ self.old) }
        ensures succeeds { self.old.holders + count ≤ HOLDERS_MAX → IsOk result }
    {
        match self.holders.checked_add(count) {
            Some(holders) => {
                self.holders = holders;
                Ok(())
            }
            None => Err(AllocError),
        }
    }
}
