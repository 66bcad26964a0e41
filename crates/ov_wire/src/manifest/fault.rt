// What can be wrong with a manifest.
ghost use Rattle.std.specs.Prelude.{◌≡◌};
ghost use Rattle.ov_wire.specs.declared.manifest.fault.EntryError.TheVariants as error;
ghost use Rattle.ov_wire.specs.declared.manifest.fault.ManifestFault.TheVariants as whole;
ghost use Rattle.std.specs.Prelude.{alloc_error};

use std::alloc::{AllocError, AllocFailed};
use thiserror::Error;

/// The first fault of an entry, in the order in which they are looked for.
#[derive(Clone, Copy, Debug, PartialEq, Eq, Error)]
pub enum EntryFault {
    /// The kind is missing, no text, or none that is known.
    #[error("kind")]
    Kind,
    /// The path is missing, no text, or refused by `Path::parse`.
    #[error("path")]
    Path,
    /// A key is unknown, not for this kind, or holds a value of the wrong type.
    #[error("key")]
    Key,
    /// A value is out of its range.
    #[error("value")]
    Value,
    /// The parent is no earlier entry of kind `dir`.
    #[error("parent")]
    Parent,
    /// An earlier entry stands at the path.
    #[error("exists")]
    Exists,
    /// What a hard link leads to is no earlier entry with bytes.
    #[error("link")]
    Link,
}

/// The first fault of a manifest, or that memory ran out.
#[derive(Debug, Drop, Error)]
pub enum ManifestFault {
    /// The bytes are no UTF-8, or the text is no TOML.
    #[error("manifest: not TOML")]
    NotToml,
    /// A key of the whole or of a layer is unknown or holds a value of the wrong type.
    #[error("manifest: key")]
    Key,
    /// `redirect_dir` is neither `on` nor `off`.
    #[error("manifest: redirect_dir")]
    RedirectDir,
    /// `metacopy` is neither `on` nor `off`, or is `on` where `redirect_dir` isn't and there is an upper.
    #[error("manifest: metacopy")]
    Metacopy,
    /// `history` is outside 2 to 1,000,000.
    #[error("manifest: history")]
    History,
    /// `file_limit` is outside 1 to 2^40.
    #[error("manifest: file_limit")]
    FileLimit,
    /// `blobs` is no array of texts.
    #[error("manifest: blobs")]
    Blobs,
    /// There are more or fewer layers than a mount takes.
    #[error("manifest: layers")]
    Layers,
    /// An entry of a layer; both count from 0.
    #[error("layer {layer} entry {entry}: {fault}")]
    Entry {
        layer: usize,
        entry: usize,
        fault: EntryFault,
    },
    /// Memory ran out, which says nothing of the manifest.
    #[error("out of memory")]
    Memory(AllocError),
}

impl From<AllocError> for ManifestFault {
    ghost from_gives = { λ e fault. fault ≡ whole.Memory e };

    fn from(error: AllocError) -> ManifestFault {
        ManifestFault::Memory(error)
    }
}

impl<T: Drop> From<AllocFailed<T>> for ManifestFault {
    ghost from_gives = { λ _ fault. fault ≡ whole.Memory alloc_error };

    fn from(_failed: AllocFailed<T>) -> ManifestFault {
        ManifestFault::Memory(AllocError)
    }
}

/// Why an entry wasn't placed.
#[derive(Debug, Drop)]
pub(super) enum EntryError {
    Fault(EntryFault),
    Memory(AllocError),
}

impl From<EntryFault> for EntryError {
    ghost from_gives = { λ f e. e ≡ error.Fault f };

    fn from(fault: EntryFault) -> EntryError {
        EntryError::Fault(fault)
    }
}

impl From<AllocError> for EntryError {
    ghost from_gives = { λ a e. e ≡ error.Memory a };

    fn from(error: AllocError) -> EntryError {
        EntryError::Memory(error)
    }
}

impl<T: Drop> From<AllocFailed<T>> for EntryError {
    ghost from_gives = { λ _ e. e ≡ error.Memory alloc_error };

    fn from(_failed: AllocFailed<T>) -> EntryError {
        EntryError::Memory(AllocError)
    }
}

impl EntryError {
    ghost use Rattle.ov_wire.specs.ManifestLayers.{fault_at};

    // The fault of the whole, for the entry at this place.
    pub(super) fn at(self, layer: usize, entry: usize) -> ManifestFault
        ensures { result ≡ fault_at layer entry self }
    {
        match self {
            EntryError::Fault(fault) => ManifestFault::Entry {
                layer,
                entry,
                fault,
            },
            EntryError::Memory(error) => ManifestFault::Memory(error),
        }
    }
}
