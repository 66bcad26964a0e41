// The user attributes that an entry gives, each by an array of its name and its value.
ghost use Rattle.std.specs.Prelude.{◌≡◌, [], Some, IfOk, option_map};
ghost use Rattle.std.specs.List.{list_all};
ghost use Rattle.toml.specs.View.{view, table_view, items_view};
ghost use Rattle.ov_wire.specs.ManifestEntries.{Answers};
ghost use Rattle.ov_wire.specs.ManifestEntries as spec;
ghost use Rattle.ov_wire.specs.Drafts.{Becomes};

use super::entry::array_at;
use super::fault::{EntryError, EntryFault};
use ov_base::{AttributeName, Bytes, UserAttributes};
use std::alloc::{AllocError, Global};
use toml::{Table, Value};

/// The most user attributes of an object.
const ATTRIBUTES_MOST: usize = 64;

/// The most bytes of a value.
const VALUE_MOST: usize = 1024;

pub(super) fn is_array_of_pairs(value: &Value) -> bool
    ensures { result ≡ spec.is_array_of spec.is_pair (view value.now) }
{
    match value.as_array() {
        Some(pairs) => are_pairs(pairs),
        None => false,
    }
}

fn are_pairs(pairs: &[Value]) -> bool
    ensures { result ≡ list_all (λ v. spec.is_pair (view v)) pairs.now }
{
    pairs.iter().all(|pair| is_pair(pair))
}

fn is_pair(pair: &Value) -> bool
    ensures { result ≡ spec.is_pair (view pair.now) }
{
    pair_of(pair).is_some()
}

// The name and the value that an array of two texts gives.
fn pair_of(pair: &Value) -> Option<(&str, &str)>
    ensures { option_map (λ p. (p.0.now, p.1.now)) result ≡ spec.pair_of (view pair.now) }
{
    match pair.as_array() {
        Some(texts) => pair_in(texts),
        None => None,
    }
}

fn pair_in(texts: &[Value]) -> Option<(&str, &str)>
    ensures { option_map (λ p. (p.0.now, p.1.now)) result ≡ spec.pair_in (items_view texts.now) }
{
    let (name, rest) = texts.split_first()?;
    let (value, rest) = rest.split_first()?;
    if !rest.is_empty() {
        return None;
    }
    Some((name.as_str()?, value.as_str()?))
}

// The user attributes that an entry gives, in their order.
pub(super) fn user_attributes_of(alloc: Global, entry: &Table) -> Result<UserAttributes, EntryError>
    ensures { Answers result (spec.user_of (table_view entry.now)) }
{
    read_attributes(alloc, array_at(entry, "attrs"))
}

fn read_attributes(alloc: Global, pairs: &[Value]) -> Result<UserAttributes, EntryError>
    ensures { Answers result (spec.attributes_from [] (items_view pairs.now)) }
{
    let mut user = UserAttributes::new(alloc);
    for pair in pairs {
        add_attribute(alloc, &mut user, pair)?;
    }
    Ok(user)
}

// Adds the user attribute that an array gives.
fn add_attribute(alloc: Global, user: &mut UserAttributes, pair: &Value) -> Result<(), EntryError>
    ensures { Becomes user.new result (spec.with_attribute user.old (spec.pair_of (view pair.now))) }
{
    match pair_of(pair) {
        Some((name, value)) => set_attribute(alloc, user, name.as_bytes(), value.as_bytes()),
        None => Err(EntryError::Fault(EntryFault::Key)),
    }
}

fn set_attribute(
    alloc: Global,
    user: &mut UserAttributes,
    name: &[u8],
    value: &[u8],
) -> Result<(), EntryError>
    ensures { Becomes user.new result (spec.with_attribute user.old (Some (name.now, value.now))) }
{
    if !is_settable(alloc, user, name, value)? {
        return Err(EntryError::Fault(EntryFault::Value));
    }
    let name = Bytes::from_slice(alloc, name)?;
    let value = Bytes::from_slice(alloc, value)?;
    user.set(name, value)?;
    Ok(())
}

// Whether a name and a value may be set beside these user attributes.
fn is_settable(
    alloc: Global,
    user: &UserAttributes,
    name: &[u8],
    value: &[u8],
) -> Result<bool, AllocError>
    ensures { IfOk result (λ b. b ≡ spec.is_settable user.now (name.now, value.now)) }
{
    let is_name = AttributeName::parse(Bytes::from_slice(alloc, name)?).is_ok();
    Ok(
        is_name
            && value.len() <= VALUE_MOST
            && user.len() < ATTRIBUTES_MOST
            && user.get(name).is_none(),
    )
}
