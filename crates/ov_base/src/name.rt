// Names in directories.
ghost use Rattle.std.specs.Prelude.{◌≡◌, ◌≤◌, ◌==◌, [], ◌∷◌, length, not, nat_eq, ◌&&◌, IfOk, IsOk, IsTrue, OnErr, Ok};
ghost use Rattle.std.specs.Ordering.{nat_cmp, as_partial_cmp};
ghost use Rattle.std.specs.Cmp.Lexicographic.{slice_cmp, pointwise};
ghost use Rattle.std.specs.Cmp.{partial_order_from_own_ties};
ghost use Rattle.std.specs.Cmp.Rules.{comparing, hashing};
ghost use Rattle.std.proofs.Common.{rules};
ghost use Rattle.std.specs.List.{list_all};
ghost use Rattle.ov_base.specs.Names as names;
ghost use Rattle.ov_base.specs.Names.{name_of};
ghost use Rattle.ov_base.specs.StoredNames.{bytes_of, IsWithin};

use crate::bytes::Bytes;
use crate::errno::Errno;
use crate::plain::plain_run;
use std::alloc::{AllocError, Global};
use std::cmp::Ordering;
use std::hash::{Hash, Hasher};
use std::marker::Model;

/// The most bytes of a name, as Linux's `NAME_MAX`.
pub const NAME_MAX: usize = 255;

/// The most bytes of a name that stand in the name itself.
const SHORT_MAX: usize = 22;

/// A name in a directory: 1 to 255 bytes without `/` and NUL, and neither `.` nor `..`. One of more than 22 bytes stands on the heap.
#[derive(Drop)]
pub struct Name {
    stored: Stored,
}

// Where the bytes of a name stand: the first so many of a buffer, or on the heap.
#[derive(Drop)]
enum Stored {
    Short(u8, [u8; SHORT_MAX]),
    Long(Box<Bytes>),
}

// Tables and paths hold many.
const _: () = prove!(size_of::<Name>() == 24);

impl Model for Name {
    ghost use Rattle.std.specs.Prelude.{List, ℕ, IsTrue};
    ghost use Rattle.std.specs.Coded.{coded_ℕ, coded_list};
    ghost use Rattle.ov_base.specs.Names.{is_name};
    ghost use Rattle.ov_base.specs.StoredNames.{bytes_of, IsWithin};

    ghost Value = { List ℕ };

    ghost coded = { coded_list coded_ℕ };

    ghost view = { λ n. bytes_of n.stored };

    ghost invariant = { λ n. IsTrue (is_name (bytes_of n.stored)) × IsWithin n.stored };
}

impl Clone for Name {
    ghost is_clone = { λ a b. b ≡ a };

    fn clone(&self) -> Result<Self, AllocError> {
        let stored = self.stored.copy()?;
        Ok(Name { stored })
    }
}

impl PartialEq for Name {
    ghost eq = { pointwise ◌==◌ };

    ghost laws = { Prim.search (comparing, rules) };

    fn eq(&self, other: &Name) -> bool {
        self.as_slice() == other.as_slice()
    }
}

impl Eq for Name {
    ghost laws = { Prim.search (comparing, rules) };
}

impl Ord for Name {
    ghost cmp = { slice_cmp nat_cmp };

    ghost total = { Prim.search (comparing, rules) };

    ghost matches_partial_cmp = { Prim.search (comparing, rules) };

    ghost matches_eq = { Prim.search (comparing, rules) };

    fn cmp(&self, other: &Name) -> Ordering {
        self.as_slice().cmp(other.as_slice())
    }
}

impl PartialOrd for Name {
    ghost partial_cmp = { as_partial_cmp (slice_cmp nat_cmp) };

    ghost laws = { partial_order_from_own_ties (Prim.search (comparing, rules)) (Prim.search (comparing, rules)) };

    fn partial_cmp(&self, other: &Name) -> Option<Ordering> {
        Some(self.cmp(other))
    }
}

impl Hash for Name {
    ghost hash_input = { λ n. n ∷ [] };

    ghost respects_eq = { Prim.search (hashing, rules) };

    // All bytes in one write, which costs less than a write for each.
    fn hash<H: Hasher>(&self, state: &mut H) {
        state.write(self.as_slice());
    }
}

// Whether no byte is `/` or NUL.
fn is_plain(bytes: &[u8]) -> bool
    ensures { result ≡ list_all (λ b. not (nat_eq b 47) && not (nat_eq b 0)) bytes.now }
{
    plain_run(bytes) == bytes.len()
}

impl Stored {
    // These bytes; at most 22 of them allocate nothing.
    fn new(alloc: Global, bytes: &[u8]) -> Result<Stored, AllocError>
        ensures bytes { IfOk result (λ stored. bytes_of stored ≡ bytes.now) }
        ensures within { IfOk result IsWithin }
        ensures short { length bytes.now ≤ 22 → IsOk result }
    {
        if bytes.len() > SHORT_MAX {
            let bytes = Bytes::from_slice(alloc, bytes)?;
            return Ok(Stored::Long(Box::new(alloc, bytes)?));
        }
        let mut all = [0; SHORT_MAX];
        all[..bytes.len()].copy_from_slice(bytes);
        Ok(Stored::Short(bytes.len() as u8, all))
    }

    fn as_slice(&self) -> &[u8]
        requires { IsWithin self.now }
        ensures { result.now ≡ bytes_of self.now }
    {
        match self {
            Stored::Short(len, bytes) => &bytes[..*len as usize],
            Stored::Long(bytes) => bytes.as_slice(),
        }
    }

    fn copy(&self) -> Result<Stored, AllocError>
        requires { IsWithin self.now }
        ensures bytes { IfOk result (λ copy. bytes_of copy ≡ bytes_of self.now) }
        ensures within { IfOk result IsWithin }
    {
        match self {
            Stored::Short(len, bytes) => Ok(Stored::Short(*len, *bytes)),
            Stored::Long(bytes) => Ok(Stored::Long(bytes.clone()?)),
        }
    }
}

impl Name {
    /// The name of these bytes. Over 255 bytes is ENAMETOOLONG, anything else that is no name
    /// EINVAL. Only a name of more than 22 bytes allocates.
    pub fn parse(alloc: Global, bytes: &[u8]) -> Result<Result<Name, Errno>, AllocError>
        ensures told { IfOk result (λ outcome. outcome ≡ name_of bytes.now) }
        ensures no_memory { OnErr result (name_of bytes.now ≡ Ok bytes.now) }
        ensures short { length bytes.now ≤ 22 → IsOk result }
    {
        if bytes.len() > NAME_MAX {
            return Ok(Err(Errno::ENAMETOOLONG));
        }
        if !is_plain(bytes) {
            return Ok(Err(Errno::EINVAL));
        }
        Name::of_plain(alloc, bytes)
    }

    // The same of at most 255 bytes that are known to have no `/` and no NUL.
    pub(crate) fn of_plain(alloc: Global, bytes: &[u8]) -> Result<Result<Name, Errno>, AllocError>
        requires within { length bytes.now ≤ 255 }
        requires plain { IsTrue (list_all (λ b. not (nat_eq b 47) && not (nat_eq b 0)) bytes.now) }
        ensures told { IfOk result (λ outcome. outcome ≡ name_of bytes.now) }
        ensures no_memory { OnErr result (name_of bytes.now ≡ Ok bytes.now) }
        ensures short { length bytes.now ≤ 22 → IsOk result }
    {
        match bytes {
            [] | [b'.'] | [b'.', b'.'] => Ok(Err(Errno::EINVAL)),
            _ => {
                let stored = Stored::new(alloc, bytes)?;
                Ok(Ok(Name { stored }))
            }
        }
    }

    /// The bytes of the name.
    pub fn as_slice(&self) -> &[u8]
        ensures { result.now ≡ self.now }
    {
        self.stored.as_slice()
    }

    /// What each name is; it does nothing.
    pub fn lawful(&self)
        ensures { IsTrue (names.is_name self.now) }
    {
        let _ = &self.stored;
    }
}

/// A copy of these names.
pub fn copy_names(alloc: Global, names: &[Name]) -> Result<Vec<Name>, AllocError>
    ensures { IfOk result (λ copies. copies.items ≡ names.now) }
{
    let mut copies = Vec::with_capacity(alloc, names.len())?;
    for name in names {
        copies.push(name.clone()?)?;
    }
    Ok(copies)
}

/// Names in an order, as a listing of a directory.
#[derive(Drop)]
pub struct NameList {
    names: Vec<Name>,
}

impl Model for NameList {
    ghost use Rattle.std.specs.Prelude.{List, ℕ};

    ghost Value = { List (List ℕ) };

    ghost view = { λ l. l.names.items };
}

impl NameList {
    /// The list of no names.
    pub fn new(alloc: Global) -> NameList
        ensures { result ≡ [] }
    {
        NameList {
            names: Vec::new(alloc),
        }
    }

    /// The list of these names.
    pub fn from_vec(names: Vec<Name>) -> NameList
        ensures { result ≡ names.items }
    {
        NameList { names }
    }

    /// The names in their order.
    pub fn as_slice(&self) -> &[Name]
        ensures { result.now ≡ self.now }
    {
        self.names.as_slice()
    }
}
