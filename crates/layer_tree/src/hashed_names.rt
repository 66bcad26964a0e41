// A hash table of names.
ghost use Rattle.std.specs.Prelude.{◌≡◌, ℕ, ◌+◌, ◌<◌, ◌≤◌, None, OnOk, IsOk, IfOk, IsSome, IsTrue, ◌↔◌, List, is_some, nat_eq};
ghost use Rattle.std.specs.FinMap as map;
ghost use Rattle.std.specs.List.{list_any, IsDistinct};
ghost use Rattle.std.specs.List.Sorted.{IsStrictlySortedBy};
ghost use Rattle.std.specs.Map.{keys_of, lookup};
ghost use Rattle.std.specs.Str.{bytes_eq};
ghost use Rattle.std.specs.Ordering.{nat_cmp};
ghost use Rattle.std.specs.Cmp.Lexicographic.{slice_cmp, pointwise};
ghost use Rattle.layer_tree.specs.Table.{Table, entry_in};

use crate::name_table::Entry;
use indexmap::IndexMap;
use indexmap::map::Slice;
use ov_base::{Name, copy_names};
use std::alloc::{AllocError, Global};
use std::hash::RandomState;
use std::marker::Model;
use std::mem::replace;

// So few names are compared one by one with the one that is asked, which takes less time than its hash.
const FEW_NAMES: usize = 4;

/// Names, each with its entry. The hash has random keys, against names that are picked to collide.
#[derive(Drop)]
pub(crate) struct HashedNames {
    table: IndexMap<Name, Entry, RandomState>,
}

impl Model for HashedNames {
    ghost use Rattle.std.specs.FinMap as map;
    ghost use Rattle.std.specs.HashMap.{spare as places};
    ghost use Rattle.layer_tree.specs.Table.{Table, table_code};

    ghost Value = { Table };

    ghost coded = { table_code };

    ghost view = { λ t. record { entries = map.from_entries t.table.entries; spare = places t.table } };
}

impl HashedNames {
    /// A table of no names, which hashes with these keys.
    pub(crate) fn new(alloc: Global, keys: RandomState) -> Self
        ensures { result.entries ≡ map.empty }
    {
        HashedNames {
            table: IndexMap::with_hasher(alloc, keys),
        }
    }

    /// The entry at a name.
    pub(crate) fn get(&self, name: &Name) -> Option<Entry>
        ensures { result ≡ entry_in self.now name.now }
    {
        if self.table.len() <= FEW_NAMES {
            return self.find(name);
        }
        self.table.get(name).copied()
    }

    // `get`, name by name.
    fn find(&self, name: &Name) -> Option<Entry>
        ensures { result ≡ entry_in self.now name.now }
    {
        let entries = self.table.as_slice();
        for index in 0..entries.len() {
            let (other, entry) = entries.get_index(index)?;
            if name == other {
                return Some(*entry);
            }
        }
        None
    }

    /// Makes room for so many more names.
    pub(crate) fn reserve(&mut self, names: usize) -> Result<(), AllocError>
        ensures entries { self.new.entries ≡ self.old.entries }
        ensures room { OnOk result (names ≤ self.new.spare) }
        ensures spare { self.old.spare ≤ self.new.spare }
        ensures succeeds { names ≤ self.old.spare → IsOk result }
    {
        self.table.reserve(names)
    }

    /// Puts an entry at a name, over the one that is there, which it returns. A new name needs room.
    pub(crate) fn put_reserved(&mut self, name: Name, entry: Entry) -> Option<Entry>
        requires { entry_in self.old name ≡ None → 0 < self.old.spare }
        ensures value { result ≡ entry_in self.old name }
        ensures entries { self.new.entries ≡ map.insert self.old.entries name entry }
        ensures spare { self.old.spare ≤ self.new.spare + 1 }
    {
        match self.table.insert(name, entry) {
            Ok(old) => old,
            Err(_) => unreachable!(),
        }
    }

    /// Puts an entry at a name that has one, which it returns.
    pub(crate) fn replace(&mut self, name: &Name, entry: Entry) -> Option<Entry>
        requires { IsSome (entry_in self.old name.now) }
        ensures value { result ≡ entry_in self.old name.now }
        ensures entries { self.new.entries ≡ map.insert self.old.entries name.now entry }
        ensures spare { self.old.spare ≤ self.new.spare }
    {
        match self.table.get_mut(name) {
            Some(place) => Some(replace(place, entry)),
            None => unreachable!(),
        }
    }

    /// Takes a name out.
    pub(crate) fn remove(&mut self, name: &Name) -> Option<Entry>
        ensures value { result ≡ entry_in self.old name.now }
        ensures entries { self.new.entries ≡ map.remove self.old.entries name.now }
        ensures spare { self.old.spare ≤ self.new.spare }
    {
        self.table.swap_remove(name)
    }

    /// The names, each once, in no order that is promised.
    pub(crate) fn as_slice(&self) -> &[Name]
        ensures names { (name : List ℕ) → list_any (bytes_eq name) result.now ≡ is_some (entry_in self.now name) }
        ensures distinct { IsDistinct (pointwise nat_eq) result.now }
    {
        self.table.keys().as_slice()
    }

    /// The names with their entries, each name once, in no order that is promised.
    pub(crate) fn entries(&self) -> Slice<'_, Name, Entry>
        ensures entries { (name : List ℕ) → lookup (bytes_eq name) result ≡ entry_in self.now name }
        ensures distinct { IsDistinct (pointwise nat_eq) (keys_of result) }
    {
        self.table.as_slice()
    }

    /// The names, sorted by their bytes, each once.
    pub(crate) fn sorted(&self, alloc: Global) -> Result<Vec<Name>, AllocError>
        ensures sorted { IfOk result (λ v. IsStrictlySortedBy (slice_cmp nat_cmp) v.items) }
        ensures names { IfOk result (λ v. (name : List ℕ) → list_any (bytes_eq name) v.items ≡ is_some (entry_in self.now name)) }
    {
        let mut all = copy_names(alloc, self.as_slice())?;
        all.sort_unstable();
        Ok(all)
    }

    /// Whether there is no name.
    pub(crate) fn is_empty(&self) -> bool
        ensures { IsTrue result ↔ (self.now.entries ≡ map.empty) }
    {
        self.table.is_empty()
    }
}
