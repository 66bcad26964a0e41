// The faults of the program.
ghost use Rattle.std.specs.Prelude.{◌≡◌};
ghost use Rattle.ov_server.specs.Faults as faults;

use ov_wire::ManifestFault;
use std::alloc::{AllocError, AllocFailed};
use thiserror::Error;

/// Why a run ended before all was done. Its text is what standard error shows after the program's
/// name.
#[derive(Debug, Drop, Error)]
pub enum Fault {
    /// The manifest's file cannot be read.
    #[error("cannot read manifest")]
    CannotReadManifest,
    /// The file of a blob of the manifest, counted from 0, cannot be read.
    #[error("cannot read blob {blob}")]
    CannotReadBlob { blob: usize },
    /// The manifest is at fault.
    #[error("{0}")]
    Manifest(ManifestFault),
    /// The file of the saved upper cannot be read.
    #[error("cannot read manifest")]
    CannotReadUpper,
    /// The manifest of the saved upper is at fault, or is none of one layer and nothing else.
    #[error("{0}")]
    Upper(ManifestFault),
    /// The file of the script cannot be read.
    #[error("cannot read script")]
    CannotReadScript,
    /// Standard input is to be the manifest, and something else too.
    #[error("standard input can't be the manifest here")]
    InputTwice,
    /// Standard input, standard output or the system's source of randomness failed.
    #[error("stream")]
    Stream,
    /// The socket can't be made, or no connection can be taken.
    #[error("socket")]
    Socket,
    /// The upper is to be saved at an end of the server that never comes.
    #[error("--save needs --until-eof or --sessions")]
    SaveWithoutEnd,
    /// A history that is kept nowhere is to have so many places.
    #[error("--history does not go with --no-history")]
    HistoryOfNone,
    /// There is no upper to save.
    #[error("cannot save: the mount has no upper layer")]
    NoUpper,
    /// The saved upper can't be written.
    #[error("cannot save")]
    CannotSave,
    /// The file of the status can't be written.
    #[error("cannot write status")]
    CannotWriteStatus,
    /// So many objects of the upper are none that a manifest can say.
    #[error("not saved, since no manifest can say them: {objects} objects")]
    LeftOut { objects: u64 },
    /// A line of the script, counted from 1, is no command.
    #[error("line {line}: bad command")]
    BadCommand { line: u64 },
    /// Memory ran out.
    #[error("out of memory")]
    Memory,
}

impl Fault {
    /// The exit status: 1 for a file, a manifest, a stream or what can't be saved, 2 for options that
    /// don't go together or a script line, 3 for memory.
    pub fn status(&self) -> u8
        ensures { result ≡ faults.status_of self.now }
    {
        match self {
            Fault::CannotReadManifest | Fault::CannotReadBlob { .. } | Fault::Manifest(_) => 1,
            Fault::CannotReadUpper | Fault::Upper(_) | Fault::CannotReadScript => 1,
            Fault::Stream | Fault::Socket => 1,
            Fault::NoUpper | Fault::CannotSave | Fault::LeftOut { .. } => 1,
            Fault::CannotWriteStatus => 1,
            Fault::BadCommand { .. } => 2,
            Fault::SaveWithoutEnd | Fault::HistoryOfNone | Fault::InputTwice => 2,
            Fault::Memory => 3,
        }
    }
}

impl From<ManifestFault> for Fault {
    ghost from_gives = { λ error fault. fault ≡ faults.manifest_fault error };

    fn from(fault: ManifestFault) -> Fault {
        match fault {
            ManifestFault::Memory(_) => Fault::Memory,
            fault => Fault::Manifest(fault),
        }
    }
}

impl From<AllocError> for Fault {
    ghost from_gives = { λ _ fault. fault ≡ faults.memory };

    fn from(_fault: AllocError) -> Fault {
        Fault::Memory
    }
}

impl<T: Drop> From<AllocFailed<T>> for Fault {
    ghost from_gives = { λ _ fault. fault ≡ faults.memory };

    fn from(_fault: AllocFailed<T>) -> Fault {
        Fault::Memory
    }
}

/// Why a device gave nothing, or took nothing.
#[derive(Debug, Drop)]
pub enum DeviceFault {
    /// It failed.
    Stream,
    /// Memory ran out.
    Memory,
}

impl From<DeviceFault> for Fault {
    ghost from_gives = { λ error fault. fault ≡ faults.device_fault error };

    fn from(fault: DeviceFault) -> Fault {
        match fault {
            DeviceFault::Stream => Fault::Stream,
            DeviceFault::Memory => Fault::Memory,
        }
    }
}

impl From<AllocError> for DeviceFault {
    ghost from_gives = { λ _ fault. fault ≡ faults.no_memory };

    fn from(_fault: AllocError) -> DeviceFault {
        DeviceFault::Memory
    }
}

impl<T: Drop> From<AllocFailed<T>> for DeviceFault {
    ghost from_gives = { λ _ fault. fault ≡ faults.no_memory };

    fn from(_fault: AllocFailed<T>) -> DeviceFault {
        DeviceFault::Memory
    }
}
