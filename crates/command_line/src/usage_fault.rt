// Why the words of a command line ask for nothing to be done.
ghost use Rattle.std.specs.Prelude.{◌≡◌};
ghost use Rattle.clap.specs.Values.{kind_of};
ghost use Rattle.command_line.specs.Faults as faults;

use clap::error::ErrorKind;
use std::alloc::{AllocError, AllocFailed};
use thiserror::Error;

/// Why the words of a command line ask for nothing to be done. Its text is what standard error
/// shows after the program's name.
#[derive(Debug, Drop, Error)]
pub enum UsageFault {
    /// They are wrong, or ask for help or the version; the text is clap's, which has the name.
    #[error("{0}")]
    CommandLine(clap::Error),
    /// A word is no UTF-8.
    #[error("a word of the command line is not UTF-8")]
    NotText,
    /// Memory ran out.
    #[error("out of memory")]
    Memory,
}

impl UsageFault {
    /// The exit status: 0 where help or the version is asked for, 2 for words that are wrong, 3 for
    /// memory.
    pub fn status(&self) -> u8
        ensures { result ≡ faults.status_of self.now }
    {
        match self {
            UsageFault::CommandLine(error) if !error.use_stderr() => 0,
            UsageFault::CommandLine(_) | UsageFault::NotText => 2,
            UsageFault::Memory => 3,
        }
    }
}

impl From<clap::Error> for UsageFault {
    ghost from_gives = { λ error fault. fault ≡ faults.usage_fault error (kind_of error) };

    fn from(fault: clap::Error) -> UsageFault {
        match fault.kind() {
            ErrorKind::OutOfMemory => UsageFault::Memory,
            _ => UsageFault::CommandLine(fault),
        }
    }
}

impl From<AllocError> for UsageFault {
    ghost from_gives = { λ _ fault. fault ≡ faults.memory };

    fn from(_fault: AllocError) -> UsageFault {
        UsageFault::Memory
    }
}

impl<T: Drop> From<AllocFailed<T>> for UsageFault {
    ghost from_gives = { λ _ fault. fault ≡ faults.memory };

    fn from(_fault: AllocFailed<T>) -> UsageFault {
        UsageFault::Memory
    }
}
