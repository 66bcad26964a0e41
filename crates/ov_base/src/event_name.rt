// The names that events carry.
ghost use Rattle.std.specs.Prelude.{◌≡◌, IsTrue};
ghost use Rattle.ov_base.specs.Names.{is_name};

use crate::name::{NAME_MAX, Name};
use std::alloc::AllocError;
use std::marker::Model;

/// A name in a directory, held in itself, so that an event is handed on without memory.
pub struct EventName {
    len: u8,
    bytes: [u8; NAME_MAX],
}

impl Model for EventName {
    ghost use Rattle.std.specs.Prelude.{◌≡◌, List, ℕ, take, length, IsTrue};
    ghost use Rattle.std.specs.Coded.{coded_ℕ, coded_list};
    ghost use Rattle.ov_base.specs.Names.{is_name};

    ghost Value = { List ℕ };

    ghost coded = { coded_list coded_ℕ };

    ghost use Rattle.ov_base.specs.EventNames.{padded, IsStored, stored-back};

    ghost view = { λ n. take n.len n.bytes };

    ghost invariant = { IsStored };

    ghost inverse = { λ bytes. record { len = length bytes; bytes = padded bytes } };

    ghost inverse_ok = { stored-back };
}

impl Copy for EventName {}

impl Clone for EventName {
    fn clone(&self) -> Result<EventName, AllocError> {
        Ok(*self)
    }
}

impl EventName {
    /// The bytes of a name.
    pub fn of(name: &Name) -> EventName
        ensures { result ≡ name.now }
    {
        name.lawful();
        let bytes = name.as_slice();
        let mut all = [0; NAME_MAX];
        all[..bytes.len()].copy_from_slice(bytes);
        EventName {
            len: bytes.len() as u8,
            bytes: all,
        }
    }

    /// The bytes of the name.
    pub fn as_bytes(&self) -> &[u8]
        ensures { result.now ≡ self.now }
    {
        &self.bytes[..self.len as usize]
    }

    /// What each such name is; it does nothing.
    pub fn lawful(&self)
        ensures { IsTrue (is_name self.now) }
    {
        let _ = &self.len;
    }
}
