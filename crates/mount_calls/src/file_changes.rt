// Changing the bytes of files of the upper (POSIX.1-2017, write() and ftruncate()).
ghost use Rattle.std.specs.Prelude.{◌≡◌, ◌+◌, ◌<◌, ◌^◌, ℕ, List, Some, IsOk, OnOk, OnErr, length};
ghost use Rattle.plain_model.specs.Changes.{sized};
ghost use Rattle.layer_tree.specs.Tree.{own_at, layer_of, written, SameObjects};
ghost use Rattle.copy_up.specs.Showing.{StaysMount, StaysSound};
ghost use Rattle.copy_up.specs.Texts.{KeepsTexts};
ghost use Rattle.open_handles.specs.declared.open_file.FileSource.TheVariants as sources;
ghost use Rattle.mount_calls.specs.Living.{KeepsFiles, SetsFile, StaysLive};

use merged_lookup::Layers;
use open_handles::FileSource;
use std::alloc::AllocError;

/// Lays bytes over those of an open file of the upper that has its own from a place on, with zero
/// bytes between the file's end and that place. An allocation failure changes nothing.
pub(crate) fn write_file(
    layers: &mut Layers,
    source: FileSource,
    start: usize,
    bytes: &[u8],
) -> Result<(), AllocError>
    requires { start + length bytes.now < 2 ^ 64 }
    ensures sets { OnOk result ((k : ℕ) (old : List ℕ) → source ≡ sources.Upper k →
        own_at layers.old.upper k ≡ Some old →
        SetsFile layers.old layers.new k (written old start bytes.now)) }
    ensures files { KeepsFiles layers.old layers.new }
    ensures objects { SameObjects (layer_of layers.old.upper) (layer_of layers.new.upper) }
    ensures texts { KeepsTexts layers.old layers.new None }
    ensures lowers { layers.new.lowers ≡ layers.old.lowers }
    ensures sound { StaysSound layers.old layers.new }
    ensures mounts { OnErr result (StaysMount layers.old layers.new) }
    ensures stays { OnErr result (StaysLive layers.old layers.new) }
{
    let FileSource::Upper(key) = source else {
        return Ok(());
    };
    if layers.upper().own(key).is_none() {
        return Ok(());
    }
    layers.upper_mut().write(key, start, bytes)
}

/// Cuts an open file of the upper that has bytes of its own to a length, or fills it with zero bytes up to it. An allocation
/// failure changes nothing, and a cut to nothing never allocates.
pub(crate) fn resize_file(
    layers: &mut Layers,
    source: FileSource,
    size: usize,
) -> Result<(), AllocError>
    ensures sets { OnOk result ((k : ℕ) (old : List ℕ) → source ≡ sources.Upper k →
        own_at layers.old.upper k ≡ Some old →
        SetsFile layers.old layers.new k (sized old size)) }
    ensures empties { size ≡ 0 → IsOk result }
    ensures files { KeepsFiles layers.old layers.new }
    ensures objects { SameObjects (layer_of layers.old.upper) (layer_of layers.new.upper) }
    ensures texts { KeepsTexts layers.old layers.new None }
    ensures lowers { layers.new.lowers ≡ layers.old.lowers }
    ensures sound { StaysSound layers.old layers.new }
    ensures mounts { OnErr result (StaysMount layers.old layers.new) }
    ensures stays { OnErr result (StaysLive layers.old layers.new) }
{
    let FileSource::Upper(key) = source else {
        return Ok(());
    };
    if layers.upper().own(key).is_none() {
        return Ok(());
    }
    layers.upper_mut().resize(key, size)
}
