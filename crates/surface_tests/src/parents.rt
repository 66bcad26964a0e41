// Missing parents are placed one by one.
use crate::checks::{counts, holds, keys_of};
use crate::fixtures::{mount, path, seen};
use copy_up::{Need, need_at, place_dir};
use merged_lookup::Layers;
use ov_base::Path;
use std::alloc::Global;
use std::process::Abort;

const NESTED: &str = "layer = [{}, {entry = [
  {path = '/a', kind = 'dir', mode = 0o700},
  {path = '/a/b', kind = 'dir', mode = 0o711},
]}]";

// Places the topmost parent that the upper lacks, and gives its number of names, 0 where none is lacking.
fn place_next(rt: &impl Abort, layers: &mut Layers, path: &Path) -> usize {
    let Ok(_) = layers.parent_of(path) else {
        return usize::MAX;
    };
    match need_at(layers, path) {
        Need::Directory(count) => {
            place_dir(layers, path, count).expect(rt, "memory");
            count
        }
        Need::Nothing => 0,
    }
}

#[test]
fn places_one_parent_at_a_time(rt: HostRuntime) {
    let alloc = rt.alloc();
    let mut layers = mount(&rt, alloc, keys_of(&rt), NESTED);
    let new = path(&rt, alloc, "/a/b/new");
    for (count, first, second) in [
        (1, (0, 2, 0o700), (1, 1, 0o711)),
        (2, (0, 2, 0o700), (0, 2, 0o711)),
        (0, (0, 2, 0o700), (0, 2, 0o711)),
    ] {
        counts(&rt, place_next(&rt, &mut layers, &new), count, "names");
        is_seen(&rt, alloc, &layers, "/a", first);
        is_seen(&rt, alloc, &layers, "/a/b", second);
    }
    drop(layers);
}

fn is_seen(
    rt: &impl Abort,
    alloc: Global,
    layers: &Layers,
    text: &str,
    wanted: (usize, usize, u32),
) {
    holds(rt, seen(layers, &path(rt, alloc, text)) == Ok(wanted), text);
}
