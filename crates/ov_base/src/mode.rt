// The modes of objects.
ghost use Rattle.std.specs.Prelude.{◌≡◌, ◌≤◌, IfOk};
ghost use Rattle.ov_base.specs.Modes.{mode_of};

use crate::errno::Errno;
use std::marker::Model;

/// The bits of a mode that chmod(2) sets.
const MODE_BITS: u32 = 0o7777;

/// Who may do what with an object, as chmod(2) sets it: twelve bits. The engine keeps modes and asks none.
#[derive(Clone, Copy)]
pub struct Mode {
    bits: u32,
}

impl Model for Mode {
    ghost use Rattle.std.specs.Prelude.{ℕ, ◌≤◌};

    ghost Value = { ℕ };

    ghost view = { λ m. m.bits };

    ghost inverse = { λ bits. record { bits = bits } };

    ghost invariant = { λ m. m.bits ≤ 0o7777 };
}

impl Mode {
    /// The mode of a symbolic link, as Linux shows it.
    pub fn of_links() -> Mode
        ensures { result ≡ 0o777 }
    {
        Mode { bits: 0o777 }
    }

    /// The mode of a directory for which none is given.
    pub fn of_directories() -> Mode
        ensures { result ≡ 0o755 }
    {
        Mode { bits: 0o755 }
    }

    /// The mode of a file for which none is given.
    pub fn of_files() -> Mode
        ensures { result ≡ 0o644 }
    {
        Mode { bits: 0o644 }
    }

    /// The mode of these bits; more than twelve are EINVAL.
    pub fn parse(bits: u32) -> Result<Mode, Errno>
        ensures told { result ≡ mode_of bits }
        ensures same { IfOk result (λ mode. mode ≡ bits) }
    {
        if bits > MODE_BITS {
            return Err(Errno::EINVAL);
        }
        Ok(Mode { bits })
    }

    /// The bits.
    pub fn bits(self) -> u32
        ensures { result ≡ self }
    {
        self.bits
    }

    /// What each mode is; it does nothing.
    pub fn lawful(self)
        ensures { self ≤ 0o7777 }
    {
        let _ = self.bits;
    }
}
