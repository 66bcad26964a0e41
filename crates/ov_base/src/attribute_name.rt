// The names of user attributes.
ghost use Rattle.std.specs.Prelude.{◌≡◌, None, Ok, IfOk};
ghost use Rattle.std.specs.Result.{result_err};
ghost use Rattle.ov_base.specs.AttributeNames.{is_malformed, is_foreign, attribute_of};

use crate::bytes::Bytes;
use crate::errno::Errno;
use crate::link_target::has_nul;
use std::alloc::AllocError;
use std::marker::Model;

/// The most bytes of an attribute's name, as Linux's `XATTR_NAME_MAX`.
const ATTRIBUTE_NAME_MAX: usize = 255;

/// The namespace of user attributes, as in xattr(7).
const NAMESPACE: [u8; 5] = *b"user.";

/// The name of a user attribute: `user.` and what follows, at most 255 bytes without NUL, kept as they are.
#[derive(Drop)]
pub struct AttributeName {
    bytes: Bytes,
}

impl Model for AttributeName {
    ghost use Rattle.std.specs.Prelude.{◌≡◌, List, ℕ, Ok};
    ghost use Rattle.ov_base.specs.AttributeNames.{attribute_of};

    ghost Value = { List ℕ };

    ghost view = { λ n. n.bytes };

    ghost invariant = { λ n. attribute_of n.bytes ≡ Ok n.bytes };
}

impl Clone for AttributeName {
    ghost is_clone = { λ a b. b ≡ a };

    fn clone(&self) -> Result<AttributeName, AllocError> {
        let bytes = self.bytes.clone()?;
        Ok(AttributeName { bytes })
    }
}

impl AttributeName {
    /// Why bytes are no name, as setxattr(2) says it: none, over 255 or with a NUL is EINVAL,
    /// others outside `user.` EOPNOTSUPP.
    pub fn fault(bytes: &[u8]) -> Option<Errno>
        ensures { result ≡ result_err (attribute_of bytes.now) }
    {
        if is_malformed_name(bytes) {
            return Some(Errno::EINVAL);
        }
        if is_foreign_name(bytes) {
            return Some(Errno::EOPNOTSUPP);
        }
        None
    }

    /// The name of bytes that have no fault.
    pub fn new(bytes: Bytes) -> AttributeName
        requires { result_err (attribute_of bytes) ≡ None }
        ensures { result ≡ bytes }
    {
        AttributeName { bytes }
    }

    /// The name of these bytes, unless they have a fault.
    pub fn parse(bytes: Bytes) -> Result<AttributeName, Errno>
        ensures told { result ≡ attribute_of bytes }
        ensures same { IfOk result (λ name. name ≡ bytes) }
    {
        match AttributeName::fault(bytes.as_slice()) {
            Some(errno) => Err(errno),
            None => Ok(AttributeName::new(bytes)),
        }
    }

    /// The bytes.
    pub fn as_bytes(&self) -> &Bytes
        ensures { result.now ≡ self.now }
    {
        &self.bytes
    }

    /// The bytes, handed over.
    pub fn into_bytes(self) -> Bytes
        ensures { result ≡ self }
    {
        self.bytes
    }

    /// What each name is; it does nothing.
    pub fn lawful(&self)
        ensures { attribute_of self.now ≡ Ok self.now }
    {
        let _ = &self.bytes;
    }
}

fn is_malformed_name(name: &[u8]) -> bool
    ensures { result ≡ is_malformed name.now }
{
    name.is_empty() || name.len() > ATTRIBUTE_NAME_MAX || has_nul(name)
}

fn is_foreign_name(name: &[u8]) -> bool
    ensures { result ≡ is_foreign name.now }
{
    !name.starts_with(&NAMESPACE) || name.len() == NAMESPACE.len()
}
