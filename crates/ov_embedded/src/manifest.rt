// A mount of a manifest and the bytes of its blobs.
ghost use Rattle.std.specs.Prelude.{◌≡◌, IfErr, IfOk, OnOk};
ghost use Rattle.toml.specs.View.{table_view};
ghost use Rattle.ov_embedded.specs.Mounting as mounting;
ghost use Rattle.ov_embedded.specs.Mounting.{Fits, HasNoMount, IsFresh, IsMountOf, IsMounted, IsUnfit, IsUnmountable, outcome_of, pieces_of};
ghost use Rattle.ov_embedded.specs.declared.manifest.Unmountable.TheVariants as unmountable;

use crate::mounted::Mounted;
use crate::outcome::Outcome;
use ov_wire::{Blob, ManifestFault, blobs_of, layers_of, table_of};
use overlay_core::{Core, Unmounted};
use program_hooks::{ByTag, ProgramRule};
use std::alloc::{AllocError, AllocFailed, Global};
use std::hash::RandomState;
use toml::Table;

/// Why there is no mount.
#[derive(Drop)]
pub(crate) enum Unmountable {
    /// The manifest is at fault.
    Manifest(ManifestFault),
    /// The saved upper is, with which it goes on.
    Upper(ManifestFault),
    /// The bytes are not those of the blobs that the manifest names: this one, counted from 0,
    /// lacks some, or they are more than those of so many.
    Blob(usize),
    Memory,
}

#[tactic(auto, using(crate::proofs::Pieces::pieces_more, crate::proofs::Pieces::pieces_all, crate::proofs::Pieces::sum_more, crate::proofs::Pieces::sum_all, crate::proofs::Pieces::too_long, crate::proofs::Pieces::too_many))]
// The parts of some bytes that have these lengths, which are all of them, and are to be so many.
pub(crate) fn blobs_in(
    alloc: Global,
    bytes: &[u8],
    lengths: &[usize],
    count: usize,
) -> Result<Vec<Blob>, Unmountable>
    ensures blobs { IfOk result (λ blobs. blobs.items ≡ pieces_of lengths.now bytes.now) }
    ensures fits { OnOk result (Fits lengths.now bytes.now count) }
    ensures unfit { IfErr result (IsUnfit lengths.now bytes.now count) }
{
    if lengths.len() != count {
        return Err(Unmountable::Blob(count.min(lengths.len())));
    }
    let mut blobs = Vec::with_capacity(alloc, lengths.len())?;
    let mut rest = bytes;
    for length in lengths {
        if *length > rest.len() {
            return Err(Unmountable::Blob(blobs.len()));
        }
        let (blob, after) = rest.split_at(*length);
        let bytes = Vec::from_slice(alloc, blob)?;
        blobs.push(Blob::from_vec(alloc, bytes)?)?;
        rest = after;
    }
    if rest.is_empty() {
        Ok(blobs)
    } else {
        Err(Unmountable::Blob(blobs.len()))
    }
}

// The core of a manifest whose blobs have these bytes, without a client.
pub(crate) fn core_of(
    alloc: Global,
    keys: RandomState,
    manifest: &Table,
    blobs: &[Blob],
) -> Result<Core<ByTag, ProgramRule>, Unmountable>
    ensures mount { IfOk result (IsMountOf blobs.now (table_view manifest.now)) }
    ensures fault { IfErr result (IsUnmountable blobs.now (table_view manifest.now)) }
{
    let (upper, lowers, options) = layers_of(alloc, keys, manifest, blobs)?;
    match Core::mount(alloc, keys, upper, lowers, options) {
        Ok(core) => Ok(core),
        Err(Unmounted { fault: None, .. }) => Err(Unmountable::Memory),
        Err(Unmounted { fault: Some(_), .. }) => unreachable!(),
    }
}

impl Mounted {
    #[tactic(auto, using(crate::proofs::Manifests::mounted_of))]
    /// The mount of a manifest, without a client. The bytes of its blobs stand one behind the
    /// other, and have these lengths.
    pub(crate) fn new(
        alloc: Global,
        keys: RandomState,
        manifest: &[u8],
        blobs: &[u8],
        lengths: &[usize],
    ) -> Result<Mounted, Unmountable>
        ensures mounted { IfOk result (λ m.
            IsMounted manifest.now blobs.now lengths.now m.core) }
        ensures fresh { IfOk result IsFresh }
        ensures refused { IfErr result (HasNoMount manifest.now blobs.now lengths.now) }
    {
        let table = table_of(alloc, manifest)?;
        let count = blobs_of(alloc, &table)?.len();
        let blobs = blobs_in(alloc, blobs, lengths, count)?;
        let core = core_of(alloc, keys, &table, blobs.as_slice())?;
        Ok(Mounted::of(alloc, core))
    }
}

impl Unmountable {
    /// By what outcome it is told.
    pub(crate) fn outcome(&self) -> Outcome
        ensures { result ≡ outcome_of self.now }
    {
        match self {
            Unmountable::Memory => Outcome::NoMemory,
            Unmountable::Upper(_) => Outcome::Upper,
            Unmountable::Manifest(_) | Unmountable::Blob(_) => Outcome::Fault,
        }
    }

    /// Its text, as the program has it.
    pub(crate) fn text(&self, alloc: Global) -> Result<String, AllocError> {
        match self {
            Unmountable::Manifest(fault) | Unmountable::Upper(fault) => {
                format!(in alloc; "{fault}")
            }
            Unmountable::Blob(blob) => format!(in alloc; "cannot read blob {blob}"),
            Unmountable::Memory => format!(in alloc; "out of memory"),
        }
    }
}

impl From<ManifestFault> for Unmountable {
    ghost from_gives = { λ error why. why ≡ mounting.of_manifest error };

    fn from(fault: ManifestFault) -> Unmountable {
        match fault {
            ManifestFault::Memory(_) => Unmountable::Memory,
            fault => Unmountable::Manifest(fault),
        }
    }
}

impl From<AllocError> for Unmountable {
    ghost from_gives = { λ error why. why ≡ unmountable.Memory };

    fn from(_fault: AllocError) -> Unmountable {
        Unmountable::Memory
    }
}

impl<T: Drop> From<AllocFailed<T>> for Unmountable {
    ghost from_gives = { λ error why. why ≡ unmountable.Memory };

    fn from(_fault: AllocFailed<T>) -> Unmountable {
        Unmountable::Memory
    }
}
