// Mode, owner and user attributes.
ghost use Rattle.std.specs.Prelude.{◌≡◌, [], ◌∷◌, map, length, position, bytes_eq, IsSome, IfOk, OnErr, IsOk};
ghost use Rattle.std.specs.Option.{option_copied};
ghost use Rattle.ov_base.specs.UserValues.{value_of, set_value, drop_value};

use crate::bytes::{Bytes, Texts};
use crate::mode::Mode;
use std::alloc::{AllocError, Global};
use std::marker::Model;

/// The attributes `user.*` of an object, each a name and a value, in the order in which they were first set. They stand on the heap,
/// so that an object without any is narrow.
#[derive(Drop)]
pub struct UserAttributes {
    values: Option<Box<Vec<(Bytes, Bytes)>>>,
    alloc: Global,
}

// Every object has them, and few have any.
const _: () = prove!(size_of::<UserAttributes>() == 16);

impl Model for UserAttributes {
    ghost use Rattle.std.specs.Prelude.{List, ℕ, []};
    ghost use Rattle.std.specs.Option.{option_map_or};

    ghost Value = { List (List ℕ × List ℕ) };

    ghost view = { λ u. option_map_or (λ values. values.value.items) u.values [] };
}

impl UserAttributes {
    /// No attributes.
    pub fn new(alloc: Global) -> UserAttributes
        ensures { result ≡ [] }
    {
        UserAttributes {
            values: None,
            alloc,
        }
    }

    fn as_slice(&self) -> &[(Bytes, Bytes)]
        ensures { result.now ≡ self.now }
    {
        match &self.values {
            Some(values) => values.as_slice(),
            None => &[],
        }
    }

    /// How many there are.
    pub fn len(&self) -> usize
        ensures { result ≡ length self.now }
    {
        self.as_slice().len()
    }

    /// The value of a name, as getxattr(2) reads it.
    pub fn get(&self, name: &[u8]) -> Option<&Bytes>
        ensures { option_copied result ≡ value_of self.now name.now }
    {
        value_in(self.as_slice(), name)
    }

    /// The names in their order, as listxattr(2) gives them.
    pub fn names(&self, alloc: Global) -> Result<Texts, AllocError>
        ensures { IfOk result (λ names. names ≡ map (λ x. x.0) self.now) }
    {
        names_in(alloc, self.as_slice())
    }

    /// Sets the value of a name, as setxattr(2) does: a name that is there keeps its position and
    /// allocates nothing, a new one goes last. It fails only when out of memory, and changes
    /// nothing then.
    pub fn set(&mut self, name: Bytes, value: Bytes) -> Result<(), AllocError>
        ensures ok { IfOk result (λ _. self.new ≡ set_value self.old name value) }
        ensures err { OnErr result (self.new ≡ self.old) }
        ensures succeeds { IsSome (value_of self.old name) → IsOk result }
    {
        match &mut self.values {
            Some(values) => set_in(values, name, value),
            None => {
                self.values = Some(one_value(self.alloc, name, value)?);
                Ok(())
            }
        }
    }

    /// Takes a name out, as removexattr(2) does; where it isn't there, nothing changes.
    pub fn remove(&mut self, name: &[u8])
        ensures { self.new ≡ drop_value self.old name.now }
    {
        if let Some(values) = &mut self.values {
            remove_in(values, name);
        }
    }
}

fn value_in<'a>(values: &'a [(Bytes, Bytes)], name: &[u8]) -> Option<&'a Bytes>
    ensures { option_copied result ≡ value_of values.now name.now }
{
    let place = place_of(values, name)?;
    Some(&values[place].1)
}

// Where a name stands.
fn place_of(values: &[(Bytes, Bytes)], name: &[u8]) -> Option<usize>
    ensures { result ≡ position (λ x. bytes_eq x.0 name.now) values.now }
{
    values
        .iter()
        .position(|(other, _)| other.as_slice() == name)
}

fn names_in(alloc: Global, values: &[(Bytes, Bytes)]) -> Result<Texts, AllocError>
    ensures { IfOk result (λ names. names ≡ map (λ x. x.0) values.now) }
{
    let mut names = Vec::with_capacity(alloc, values.len())?;
    for (name, _) in values {
        names.push(name.clone()?)?;
    }
    Ok(Texts::from_vec(names))
}

fn one_value(
    alloc: Global,
    name: Bytes,
    value: Bytes,
) -> Result<Box<Vec<(Bytes, Bytes)>>, AllocError>
    ensures { IfOk result (λ values. values.value.items ≡ (name, value) ∷ []) }
{
    let mut values = Vec::with_capacity(alloc, 1)?;
    values.push((name, value))?;
    Ok(Box::new(alloc, values)?)
}

fn set_in(values: &mut Vec<(Bytes, Bytes)>, name: Bytes, value: Bytes) -> Result<(), AllocError>
    ensures ok { IfOk result (λ _. values.new.items ≡ set_value values.old.items name value) }
    ensures err { OnErr result (values.new.items ≡ values.old.items) }
    ensures succeeds { IsSome (value_of values.old.items name) → IsOk result }
{
    match place_of(values.as_slice(), name.as_slice()) {
        Some(place) => {
            values[place].1 = value;
            Ok(())
        }
        None => Ok(values.push((name, value))?),
    }
}

fn remove_in(values: &mut Vec<(Bytes, Bytes)>, name: &[u8])
    ensures { values.new.items ≡ drop_value values.old.items name.now }
{
    values.retain(|(other, _)| other.as_slice() != name);
}

impl Clone for UserAttributes {
    ghost is_clone = { λ a b. b ≡ a };

    fn clone(&self) -> Result<UserAttributes, AllocError> {
        let values = self.values.clone()?;
        Ok(UserAttributes {
            values,
            alloc: self.alloc,
        })
    }
}

/// Mode, owner and user attributes of an object.
#[derive(Drop)]
pub struct Attributes {
    pub mode: Mode,
    pub uid: u32,
    pub gid: u32,
    pub user: UserAttributes,
}

impl Clone for Attributes {
    ghost is_clone = { λ a b. b ≡ a };

    fn clone(&self) -> Result<Attributes, AllocError> {
        let user = self.user.clone()?;
        Ok(Attributes {
            mode: self.mode,
            uid: self.uid,
            gid: self.gid,
            user,
        })
    }
}
