// The children of one directory that have an entry, by their names.
ghost use Rattle.std.specs.Prelude.{◌≡◌, ◌↔◌, ◌<◌, ◌≤◌, ◌+◌, [], Some, None, IsTrue, IsSome, OnOk, OnErr, IfOk, cond, nat_eq};
ghost use Rattle.std.specs.HashMap.{spare};
ghost use Rattle.std.specs.Map.{lookup};
ghost use Rattle.std.specs.Cmp.Lexicographic.{pointwise};
ghost use Rattle.plain_model.specs.Layers.{Name};
ghost use Rattle.object_table.specs.Children.{listed_at, Binds, SameChildren};

use indexmap::IndexMap;
use ov_base::Name;
use std::alloc::{AllocError, Global};
use std::hash::RandomState;
use std::marker::Model;
use std::mem::replace;

// Children by the hash of their names.
type HashedChildren = IndexMap<Name, usize, RandomState>;

/// The children of a directory by their names. One alone stands in place, for which nothing is
/// hashed. More are hashed by random keys, against names that are picked to collide.
#[derive(Drop)]
pub struct Children {
    alloc: Global,
    keys: RandomState,
    listed: Listed,
}

// Where children stand. The map stands on the heap, so that the others stay small.
#[derive(Drop)]
enum Listed {
    Empty,
    One(Name, usize),
    Many(Box<HashedChildren>),
}

// Each open directory has one.
const _: () = prove!(size_of::<Children>() <= 56);

impl Model for Children {
    ghost use Rattle.object_table.specs.Children.{Listing, listing_code, entries_in};

    ghost Value = { Listing };

    ghost coded = { listing_code };

    ghost view = { λ c. record { entries = entries_in c.listed } };
}

impl Children {
    /// No children. As soon as there are two, their names are hashed with these keys.
    pub fn new(alloc: Global, keys: RandomState) -> Children
        ensures { result.entries ≡ [] }
    {
        Children {
            alloc,
            keys,
            listed: Listed::Empty,
        }
    }

    /// The child at a name.
    pub fn get(&self, name: &Name) -> Option<usize>
        ensures { result ≡ listed_at self.now name.now }
    {
        match &self.listed {
            Listed::Empty => None,
            Listed::One(other, key) if name == other => Some(*key),
            Listed::One(..) => None,
            Listed::Many(hashed) => hashed.get(name).copied(),
        }
    }

    /// Puts a child at a name, over the one that is there. An allocation failure leaves all as it
    /// was; the first child allocates nothing.
    pub fn insert(&mut self, name: Name, key: usize) -> Result<(), AllocError>
        ensures ok { OnOk result (Binds self.old self.new name (Some key)) }
        ensures err { OnErr result (SameChildren self.old self.new) }
    {
        match &mut self.listed {
            Listed::Empty => {
                self.listed = Listed::One(name, key);
                Ok(())
            }
            Listed::One(..) => {
                let mut hashed = room_for_two(self.alloc, self.keys)?;
                if let Listed::One(first, child) = replace(&mut self.listed, Listed::Empty) {
                    put_reserved(&mut hashed, first, child);
                }
                put_reserved(&mut hashed, name, key);
                self.listed = Listed::Many(hashed);
                Ok(())
            }
            Listed::Many(hashed) => {
                hashed.insert(name, key)?;
                Ok(())
            }
        }
    }

    /// Puts another child at a name that has one. It takes no memory.
    pub fn replace(&mut self, name: &Name, key: usize)
        requires { IsSome (listed_at self.old name.now) }
        ensures { Binds self.old self.new name.now (Some key) }
    {
        match &mut self.listed {
            Listed::Empty => {}
            Listed::One(_, child) => *child = key,
            Listed::Many(hashed) => {
                if let Some(child) = hashed.get_mut(name) {
                    *child = key;
                }
            }
        }
    }

    /// Takes the child at a name out. It takes no memory.
    pub fn remove(&mut self, name: &Name)
        ensures { Binds self.old self.new name.now None }
    {
        match &mut self.listed {
            Listed::Empty => {}
            Listed::One(other, _) => {
                if *name == *other {
                    self.listed = Listed::Empty;
                }
            }
            Listed::Many(hashed) => {
                let _ = hashed.swap_remove(name);
            }
        }
    }

    /// Whether there is no child.
    pub fn is_empty(&self) -> bool
        ensures { IsTrue result ↔ (self.now.entries ≡ []) }
    {
        match &self.listed {
            Listed::Empty => true,
            Listed::One(..) => false,
            Listed::Many(hashed) => hashed.is_empty(),
        }
    }
}

// A map of no children with room for two.
fn room_for_two(alloc: Global, keys: RandomState) -> Result<Box<HashedChildren>, AllocError>
    ensures entries { IfOk result (λ b. b.value.entries ≡ []) }
    ensures room { IfOk result (λ b. 2 ≤ spare b.value) }
{
    let hashed = IndexMap::with_capacity_and_hasher(alloc, 2, keys)?;
    Ok(Box::new(alloc, hashed)?)
}

// Puts a child at a name, where the map has room.
fn put_reserved(hashed: &mut HashedChildren, name: Name, key: usize)
    requires { 0 < spare hashed.old }
    ensures binds { (m : Name) → lookup (pointwise nat_eq m) hashed.new.entries ≡ cond (pointwise nat_eq name m) (Some key) (lookup (pointwise nat_eq m) hashed.old.entries) }
    ensures spare { spare hashed.old ≤ spare hashed.new + 1 }
{
    let _ = hashed.insert(name, key);
}
