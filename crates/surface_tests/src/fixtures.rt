// Layers that manifests spell, and paths.
ghost use Rattle.std.specs.Prelude.{◌<◌, ◌≤◌, ◌∷◌, map};
ghost use Rattle.std.specs.Vec.{vec_len};
ghost use Rattle.plain_model.specs.Layers.{AreLayers};
ghost use Rattle.layer_tree.specs.Tree.{layer_of};

use layer_tree::{Layer, Node};
use merged_lookup::{Found, Layers};
use ov_base::{Errno, FileBytes, OpenFlags, Options, Path};
use ov_wire::manifest_of;
use std::alloc::Global;
use std::hash::RandomState;
use std::process::Abort;

/// An empty upper over an empty lower layer.
pub const EMPTY: &str = "layer = [{}, {}]";

// The layers and options of a manifest that has an upper.
pub fn read(
    rt: &impl Abort,
    alloc: Global,
    keys: RandomState,
    manifest: &str,
) -> (Layer, Vec<Layer>, Options)
    ensures some_lower { 0 < vec_len result.1 }
    ensures few_lowers { vec_len result.1 ≤ 16 }
    ensures layers { AreLayers (layer_of result.0 ∷ map layer_of result.1.items) }
{
    match manifest_of(alloc, keys, manifest.as_bytes()) {
        Ok((upper, lowers, options)) => match upper {
            Some(upper) => (upper, lowers, options),
            None => panic!(rt; "no upper"),
        },
        Err(_) => panic!(rt; "no layers"),
    }
}

// Whether a file is there and holds these bytes.
pub fn are_bytes(rt: &impl Abort, alloc: Global, held: Option<&FileBytes>, bytes: &[u8]) -> bool {
    let Some(held) = held else {
        return false;
    };
    let mut all = Vec::new(alloc);
    let count = held.len();
    held.append_to(0, count, &mut all).expect(rt, "memory");
    all.as_slice() == bytes
}

// The layers of a manifest as a mount has them.
pub fn mount(rt: &impl Abort, alloc: Global, keys: RandomState, manifest: &str) -> Layers {
    let (upper, lowers, _) = read(rt, alloc, keys, manifest);
    layers_of(rt, alloc, keys, upper, lowers)
}

// Layers as a mount has them.
pub fn layers_of(
    rt: &impl Abort,
    alloc: Global,
    keys: RandomState,
    upper: Layer,
    lowers: Vec<Layer>,
) -> Layers
    requires some_lower { 0 < vec_len lowers }
    requires few_lowers { vec_len lowers ≤ 16 }
{
    match Layers::new(alloc, keys, upper, lowers, 1) {
        Ok(layers) => layers,
        Err(_) => panic!(rt; "out of memory"),
    }
}

pub fn path(rt: &impl Abort, alloc: Global, text: &str) -> Path {
    let parsed = Path::parse(alloc, text.as_bytes()).expect(rt, "memory");
    parsed.expect(rt, "a path")
}

// The flags that open what is there for reading, or else for writing.
pub fn flags(writes: bool) -> OpenFlags {
    OpenFlags {
        reads: !writes,
        writes,
        create: false,
        exclusive: false,
        truncate: false,
        append: false,
        directory: false,
        unknown: false,
    }
}

// The layer of what a path shows, of how many layers a directory is made, 0 for a file or a link, and the mode.
pub fn seen(layers: &Layers, path: &Path) -> Result<(usize, usize, u32), Errno> {
    let (place, count) = match layers.walk(path)? {
        Found::Directory(stack) => (stack.top(), stack.places().len()),
        Found::Inode(place) => (place, 0),
    };
    match layers.node(place) {
        Some(Node::Directory(directory)) => Ok((
            place.layer,
            count,
            directory.attributes.mode.bits(),
        )),
        Some(Node::Inode(inode)) => Ok((place.layer, count, inode.attributes.mode.bits())),
        None => Err(Errno::ENOENT),
    }
}
