// `show`: the merged tree of a manifest.
ghost use Rattle.std.specs.Prelude.{◌≡◌, length, IfErr, IfOk, OnOk};
ghost use Rattle.ov_server.specs.Mounts.{HoldManifest};
ghost use Rattle.ov_server.specs.Faults.{AnswersManifest, IsManifestFault, IsShowFault, layering_of};
ghost use Rattle.toml.specs.View.{table_view};

use crate::devices::Output;
use crate::fault::Fault;
use crate::print_tree::write_merge;
use merged_lookup::Layers;
use ov_devices::Sink;
use ov_wire::{Blob, layers_of};
use overlay_core::upper_over;
use std::alloc::Global;
use std::hash::RandomState;
use toml::Table;

/// Puts out the merged tree of the layers of a manifest whose blobs have these bytes, which are let go before. The layers hash names with
/// `keys`.
pub fn show_run<K: Sink>(
    alloc: Global,
    keys: RandomState,
    manifest: Table,
    blobs: Vec<Blob>,
    output: &mut Output<K>,
) -> Result<(), Fault>
    ensures manifest { AnswersManifest blobs.items (table_view manifest) result }
    ensures err { IfErr result (IsShowFault (K.failures output.new.sink)) }
    ensures well { OnOk result (K.failures output.new.sink ≡ K.failures output.old.sink) }
{
    let layers = layers_in(alloc, keys, &manifest, blobs.as_slice())?;
    drop((manifest, blobs));
    let outcome = write_merge(alloc, &layers, output);
    drop(layers);
    output.flush()?;
    outcome?;
    Ok(())
}

/// The layers of a manifest; where they have no upper, with one that holds nothing.
pub fn layers_in(
    alloc: Global,
    keys: RandomState,
    manifest: &Table,
    blobs: &[Blob],
) -> Result<Layers, Fault>
    ensures manifest { AnswersManifest blobs.now (table_view manifest.now) result }
    ensures layers { IfOk result (HoldManifest blobs.now (table_view manifest.now)) }
    ensures count { IfOk result (λ layers. length layers.lowers.items ≡ (layering_of (table_view manifest.now)).1) }
    ensures err { IfErr result IsManifestFault }
{
    let (upper, lowers, _) = layers_of(alloc, keys, manifest, blobs)?;
    let over = upper_over(alloc, keys, upper, lowers.as_slice())?;
    match Layers::new(alloc, keys, over, lowers, 1) {
        Ok(layers) => Ok(layers),
        Err(layers) => {
            drop(layers);
            Err(Fault::Memory)
        }
    }
}
