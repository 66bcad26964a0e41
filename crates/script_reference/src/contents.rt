// What files, symbolic links and directories of a manifest have in them.
use crate::entries::{Entry, Kind, Spelling};
use hex::FromHexError;
use ov_base::{Attributes, Bytes, LinkTarget, Mode, UserAttributes};
use plain_reference::Content;
use std::alloc::{AllocError, Global};
use toml::Value;

/// The attributes of the object of an entry. None where the mode is none, or a user attribute isn't a name and a value.
pub fn attributes_of(alloc: Global, entry: &Entry<'_>) -> Result<Option<Attributes>, AllocError> {
    let Ok(mode) = Mode::parse(entry.mode) else {
        return Ok(None);
    };
    let mut user = UserAttributes::new(alloc);
    if !fill(alloc, &mut user, entry.user)? {
        return Ok(None);
    }
    Ok(Some(Attributes {
        mode,
        uid: entry.uid,
        gid: entry.gid,
        user,
    }))
}

// Gives user attributes these names and values; false where one of these isn't both.
fn fill(alloc: Global, user: &mut UserAttributes, pairs: &[Value]) -> Result<bool, AllocError> {
    for pair in pairs {
        match name_and_value(pair) {
            Some((name, value)) => set(alloc, user, name, value)?,
            None => return Ok(false),
        }
    }
    Ok(true)
}

fn set(
    alloc: Global,
    user: &mut UserAttributes,
    name: &str,
    value: &str,
) -> Result<(), AllocError> {
    let name = Bytes::from_slice(alloc, name.as_bytes())?;
    let value = Bytes::from_slice(alloc, value.as_bytes())?;
    user.set(name, value)?;
    Ok(())
}

fn name_and_value(pair: &Value) -> Option<(&str, &str)> {
    let Value::Array(pair) = pair else {
        return None;
    };
    match pair.as_slice() {
        [Value::String(name), Value::String(value)] => Some((name.as_str(), value.as_str())),
        _ => None,
    }
}

/// The bytes of a file, or the target of a symbolic link. None where they aren't spelled, or are no target.
pub fn content_of(alloc: Global, entry: &Entry<'_>) -> Result<Option<Content>, AllocError> {
    let Some(bytes) = bytes_of(alloc, entry.bytes)? else {
        return Ok(None);
    };
    if entry.kind != Kind::SymbolicLink {
        return Ok(Some(Content::File(bytes)));
    }
    match LinkTarget::parse(bytes) {
        Ok(target) => Ok(Some(Content::SymbolicLink(target))),
        Err(_) => Ok(None),
    }
}

/// How many bytes that is.
pub fn size_of(spelling: Spelling<'_>) -> u64 {
    match spelling {
        Spelling::Text(text) => text.len() as u64,
        Spelling::Digits(digits) => digits.len() as u64 / 2,
        Spelling::Zeros(count) => u64::from(count),
    }
}

fn bytes_of(alloc: Global, spelling: Spelling<'_>) -> Result<Option<Bytes>, AllocError> {
    let bytes = match spelling {
        Spelling::Text(text) => Bytes::from_slice(alloc, text),
        Spelling::Digits(digits) => return decoded(alloc, digits),
        Spelling::Zeros(count) => zeros(alloc, count),
    };
    Ok(Some(bytes?))
}

fn decoded(alloc: Global, digits: &str) -> Result<Option<Bytes>, AllocError> {
    match hex::decode(alloc, digits) {
        Ok(bytes) => Ok(Some(Bytes::from_vec(bytes))),
        Err(FromHexError::OutOfMemory) => Err(AllocError),
        Err(_) => Ok(None),
    }
}

fn zeros(alloc: Global, count: u32) -> Result<Bytes, AllocError> {
    let mut bytes = Vec::new(alloc);
    bytes.resize(count as usize, 0)?;
    Ok(Bytes::from_vec(bytes))
}
