// A mount that goes on with a saved upper.
ghost use Rattle.std.specs.Prelude.{◌≡◌, IfErr, IfOk};
ghost use Rattle.toml.specs.View.{table_view};
ghost use Rattle.ov_embedded.specs.Mounting as mounting;
ghost use Rattle.ov_embedded.specs.Mounting.{Blames, GoesNowhere, HasNoWhole, IsFresh, IsMountedOn};

use crate::manifest::{Unmountable, blobs_in, core_of};
use crate::mounted::Mounted;
use ov_server::{Fault, going_on};
use ov_wire::{ManifestFault, blobs_of, table_of};
use std::alloc::Global;
use std::hash::RandomState;
use toml::{Table, Value};

// How a fault of a saved upper is told.
fn of_upper(fault: ManifestFault) -> Unmountable
    ensures { result ≡ mounting.of_upper fault }
{
    match fault {
        ManifestFault::Memory(_) => Unmountable::Memory,
        fault => Unmountable::Upper(fault),
    }
}

// The fault of a manifest's whole that came by its new upper. A key that is at fault then is the
// upper's.
fn judge(alloc: Global, joined: &Table) -> Result<(), Unmountable>
    ensures { IfErr result (HasNoWhole (table_view joined.now)) }
{
    match blobs_of(alloc, joined) {
        Ok(_) => Ok(()),
        Err(ManifestFault::Key) => Err(Unmountable::Upper(ManifestFault::Key)),
        Err(fault) => Err(Unmountable::from(fault)),
    }
}

// Whose fault it is: layer 0 is the upper's, and the others count the manifest's own layers, of
// which there are so many less above.
fn whose(fault: Unmountable, less: usize) -> Unmountable
    ensures { Blames fault result }
{
    match fault {
        Unmountable::Manifest(
            ManifestFault::Entry {
                layer,
                entry,
                fault,
            },
        ) => {
            if layer == 0 {
                return Unmountable::Upper(ManifestFault::Entry {
                    layer,
                    entry,
                    fault,
                });
            }
            Unmountable::Manifest(ManifestFault::Entry {
                layer: layer.saturating_sub(less),
                entry,
                fault,
            })
        }
        fault => fault,
    }
}

impl Mounted {
    #[tactic(auto, using(crate::proofs::Manifests::goes_on))]
    /// The mount of a manifest that goes on with a saved upper, without a client. The bytes of its
    /// blobs stand one behind the other, and have these lengths.
    pub(crate) fn going_on(
        alloc: Global,
        keys: RandomState,
        saved: &[u8],
        manifest: &[u8],
        blobs: &[u8],
        lengths: &[usize],
    ) -> Result<Mounted, Unmountable>
        ensures mounted { IfOk result (λ m.
            IsMountedOn saved.now manifest.now blobs.now lengths.now m.core) }
        ensures fresh { IfOk result IsFresh }
        ensures refused { IfErr result
            (GoesNowhere saved.now manifest.now blobs.now lengths.now) }
    {
        let upper = match table_of(alloc, saved) {
            Ok(upper) => upper,
            Err(fault) => return Err(of_upper(fault)),
        };
        let table = table_of(alloc, manifest)?;
        let count = blobs_of(alloc, &table)?.len();
        let has_upper = table.get("upper").and_then(Value::as_bool).unwrap_or(true);
        let blobs = blobs_in(alloc, blobs, lengths, count)?;
        let joined = match going_on(alloc, upper, table) {
            Ok(joined) => joined,
            Err(Fault::Upper(fault)) => return Err(Unmountable::Upper(fault)),
            Err(_) => return Err(Unmountable::Memory),
        };
        judge(alloc, &joined)?;
        match core_of(alloc, keys, &joined, blobs.as_slice()) {
            Ok(core) => Ok(Mounted::of(alloc, core)),
            Err(fault) => Err(whose(fault, if has_upper { 0 } else { 1 })),
        }
    }
}
