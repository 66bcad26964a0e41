// Where symbolic links lead.
ghost use Rattle.std.specs.Prelude.{◌≡◌, nat_eq, Ok, IfOk};
ghost use Rattle.std.specs.List.{list_any};
ghost use Rattle.std.specs.Result.{result_err};
ghost use Rattle.ov_base.specs.Targets.{target_of};

use crate::bytes::Bytes;
use crate::errno::Errno;
use std::alloc::AllocError;
use std::marker::Model;

/// The most bytes of a link's target, as Linux's `PATH_MAX` without the NUL.
pub const TARGET_MAX: usize = 4095;

/// The target of a symbolic link: 1 to 4,095 bytes without NUL, kept as they are.
#[derive(Drop)]
pub struct LinkTarget {
    bytes: Bytes,
}

impl Model for LinkTarget {
    ghost use Rattle.std.specs.Prelude.{List, ℕ, IsTrue};
    ghost use Rattle.ov_base.specs.Targets.{is_target};

    ghost Value = { List ℕ };

    ghost view = { λ t. t.bytes };

    ghost invariant = { λ t. IsTrue (is_target t.bytes) };
}

impl Clone for LinkTarget {
    ghost is_clone = { λ a b. b ≡ a };

    fn clone(&self) -> Result<LinkTarget, AllocError> {
        let bytes = self.bytes.clone()?;
        Ok(LinkTarget { bytes })
    }
}

pub(crate) fn has_nul(bytes: &[u8]) -> bool
    ensures { result ≡ list_any (nat_eq 0) bytes.now }
{
    bytes.iter().any(|byte| *byte == 0)
}

impl LinkTarget {
    /// Why bytes are no target, as symlink(2) says it: over 4,095 is ENAMETOOLONG, none ENOENT, and
    /// a NUL EINVAL.
    pub fn fault(bytes: &[u8]) -> Option<Errno>
        ensures { result ≡ result_err (target_of bytes.now) }
    {
        if bytes.len() > TARGET_MAX {
            return Some(Errno::ENAMETOOLONG);
        }
        if bytes.is_empty() {
            return Some(Errno::ENOENT);
        }
        if has_nul(bytes) {
            return Some(Errno::EINVAL);
        }
        None
    }

    /// The target of these bytes, unless they have a fault.
    pub fn parse(bytes: Bytes) -> Result<LinkTarget, Errno>
        ensures told { result ≡ target_of bytes }
        ensures same { IfOk result (λ target. target ≡ bytes) }
    {
        match LinkTarget::fault(bytes.as_slice()) {
            Some(errno) => Err(errno),
            None => Ok(LinkTarget { bytes }),
        }
    }

    /// The bytes.
    pub fn as_bytes(&self) -> &Bytes
        ensures { result.now ≡ self.now }
    {
        &self.bytes
    }

    /// What each target is; it does nothing.
    pub fn lawful(&self)
        ensures { target_of self.now ≡ Ok self.now }
    {
        let _ = &self.bytes;
    }
}
