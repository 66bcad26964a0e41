// The names of a directory.
ghost use Rattle.std.specs.Prelude.{◌≡◌, ℕ, ◌+◌, ◌<◌, ◌≤◌, None, OnOk, IsOk, IfOk, IsSome, IsTrue, ◌↔◌, List, is_some, nat_eq};
ghost use Rattle.std.specs.FinMap as map;
ghost use Rattle.std.specs.List.{list_any, IsDistinct};
ghost use Rattle.std.specs.List.Sorted.{IsStrictlySortedBy};
ghost use Rattle.std.specs.Map.{keys_of, lookup};
ghost use Rattle.std.specs.Str.{bytes_eq};
ghost use Rattle.std.specs.Ordering.{nat_cmp};
ghost use Rattle.std.specs.Cmp.Lexicographic.{slice_cmp, pointwise};
ghost use Rattle.layer_tree.specs.Table.{Table, entry_in};

use crate::hashed_names::HashedNames;
use indexmap::map::Slice;
use ov_base::Name;
use std::alloc::{AllocError, Global};
use std::hash::RandomState;
use std::marker::Model;

/// What a directory has at a name: the key of an object, or a whiteout.
#[derive(Clone, Copy)]
pub enum Entry {
    Object(usize),
    Whiteout,
}

/// The names of a directory, each with its entry. They stand on the heap, and as long as there is no room for any, none is made.
#[derive(Drop)]
pub struct NameTable {
    keys: RandomState,
    alloc: Global,
    hashed: Option<Box<HashedNames>>,
}

impl Model for NameTable {
    ghost use Rattle.layer_tree.specs.Table.{Table, table_code, table_in};

    ghost Value = { Table };

    ghost coded = { table_code };

    ghost view = { λ t. table_in t.hashed };
}

impl NameTable {
    /// A table of no names, which hashes with these keys.
    pub fn new(alloc: Global, keys: RandomState) -> Self
        ensures { result.entries ≡ map.empty }
    {
        NameTable {
            keys,
            alloc,
            hashed: None,
        }
    }

    /// The entry at a name.
    pub fn get(&self, name: &Name) -> Option<Entry>
        ensures { result ≡ entry_in self.now name.now }
    {
        match &self.hashed {
            Some(hashed) => hashed.get(name),
            None => None,
        }
    }

    /// Makes room for so many more names.
    pub fn reserve(&mut self, names: usize) -> Result<(), AllocError>
        ensures entries { self.new.entries ≡ self.old.entries }
        ensures room { OnOk result (names ≤ self.new.spare) }
        ensures spare { self.old.spare ≤ self.new.spare }
        ensures succeeds { names ≤ self.old.spare → IsOk result }
    {
        match &mut self.hashed {
            Some(hashed) => hashed.reserve(names),
            None if names == 0 => Ok(()),
            None => {
                self.hashed = Some(room_for(self.alloc, self.keys, names)?);
                Ok(())
            }
        }
    }

    /// Puts an entry at a name, over the one that is there, which it returns. A new name needs room.
    pub fn put_reserved(&mut self, name: Name, entry: Entry) -> Option<Entry>
        requires { entry_in self.old name ≡ None → 0 < self.old.spare }
        ensures value { result ≡ entry_in self.old name }
        ensures entries { self.new.entries ≡ map.insert self.old.entries name entry }
        ensures spare { self.old.spare ≤ self.new.spare + 1 }
    {
        match &mut self.hashed {
            Some(hashed) => hashed.put_reserved(name, entry),
            None => unreachable!(),
        }
    }

    /// Puts an entry at a name that has one, which it returns.
    pub fn replace(&mut self, name: &Name, entry: Entry) -> Option<Entry>
        requires { IsSome (entry_in self.old name.now) }
        ensures value { result ≡ entry_in self.old name.now }
        ensures entries { self.new.entries ≡ map.insert self.old.entries name.now entry }
        ensures spare { self.old.spare ≤ self.new.spare }
    {
        match &mut self.hashed {
            Some(hashed) => hashed.replace(name, entry),
            None => unreachable!(),
        }
    }

    /// Takes a name out.
    pub fn remove(&mut self, name: &Name) -> Option<Entry>
        ensures value { result ≡ entry_in self.old name.now }
        ensures entries { self.new.entries ≡ map.remove self.old.entries name.now }
        ensures spare { self.old.spare ≤ self.new.spare }
    {
        let Some(hashed) = &mut self.hashed else {
            return None;
        };
        hashed.remove(name)
    }

    /// The names, each once, in no order that is promised.
    pub fn as_slice(&self) -> &[Name]
        ensures names { (name : List ℕ) → list_any (bytes_eq name) result.now ≡ is_some (entry_in self.now name) }
        ensures distinct { IsDistinct (pointwise nat_eq) result.now }
    {
        match &self.hashed {
            Some(hashed) => hashed.as_slice(),
            None => &[],
        }
    }

    /// The names with their entries, each name once, in no order that is promised.
    pub fn entries(&self) -> Slice<'_, Name, Entry>
        ensures entries { (name : List ℕ) → lookup (bytes_eq name) result ≡ entry_in self.now name }
        ensures distinct { IsDistinct (pointwise nat_eq) (keys_of result) }
    {
        let Some(hashed) = &self.hashed else {
            return Slice::new();
        };
        hashed.entries()
    }

    /// The names, sorted by their bytes, each once.
    pub fn sorted(&self, alloc: Global) -> Result<Vec<Name>, AllocError>
        ensures sorted { IfOk result (λ v. IsStrictlySortedBy (slice_cmp nat_cmp) v.items) }
        ensures names { IfOk result (λ v. (name : List ℕ) → list_any (bytes_eq name) v.items ≡ is_some (entry_in self.now name)) }
    {
        match &self.hashed {
            Some(hashed) => hashed.sorted(alloc),
            None => Ok(Vec::new(alloc)),
        }
    }

    /// Whether there is no name.
    pub fn is_empty(&self) -> bool
        ensures { IsTrue result ↔ (self.now.entries ≡ map.empty) }
    {
        match &self.hashed {
            Some(hashed) => hashed.is_empty(),
            None => true,
        }
    }
}

// A table of no names with room for so many.
fn room_for(alloc: Global, keys: RandomState, names: usize) -> Result<Box<HashedNames>, AllocError>
    ensures entries { IfOk result (λ b. b.value.entries ≡ map.empty) }
    ensures room { IfOk result (λ b. names ≤ b.value.spare) }
{
    let mut hashed = HashedNames::new(alloc, keys);
    hashed.reserve(names)?;
    Ok(Box::new(alloc, hashed)?)
}
