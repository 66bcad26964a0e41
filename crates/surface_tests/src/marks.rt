// A directory of a layer gets other marks, and a path is spelled for the layer under the upper.
use crate::checks::{holds, keys_of};
use crate::fixtures::{mount, path, read};
use layer_tree::{Entry, Layer, Marks, ROOT};
use merged_lookup::{Found, Layers};
use ov_base::{Name, Redirect};
use std::alloc::Global;
use std::process::Abort;

// A layer with an opaque directory that has a whiteout.
const OPAQUE: &str = "layer = [{entry = [
  {path = '/e', kind = 'dir', opaque = true},
  {path = '/e/w', kind = 'whiteout'},
]}, {}]";

fn name(rt: &impl Abort, alloc: Global, bytes: &[u8]) -> Name {
    let parsed = Name::parse(alloc, bytes).expect(rt, "memory");
    parsed.expect(rt, "a name")
}

fn key(rt: &impl Abort, alloc: Global, layer: &Layer, text: &str) -> usize {
    match layer.find(&path(rt, alloc, text)) {
        Some(Entry::Object(key)) => key,
        _ => panic!(rt; "no object"),
    }
}

#[test]
fn a_directory_gets_marks(rt: HostRuntime) {
    let alloc = rt.alloc();
    let (mut layer, lowers, _) = read(&rt, alloc, keys_of(&rt), OPAQUE);
    drop(lowers);
    let e = key(&rt, alloc, &layer, "/e");
    assert!(rt; layer.is_directory(e));
    assert!(rt; e != ROOT);
    layer.set_marks(
        e,
        Marks {
            opaque: false,
            redirect: Some(Redirect::Single(name(&rt, alloc, b"d"))),
        },
    );
    holds(
        &rt,
        is_redirected(&layer, e),
        "a redirect in place of a mark",
    );
    let whiteout = path(&rt, alloc, "/e/w");
    holds(&rt, layer.find(&whiteout).is_some(), "a whiteout");
    drop(layer);
}

// Whether a directory has a redirect of one name, and isn't opaque.
fn is_redirected(layer: &Layer, key: usize) -> bool {
    matches!(
        layer.marks(key),
        Some(Marks {
            opaque: false,
            redirect: Some(Redirect::Single(_))
        })
    )
}

// In the upper an absolute redirect, below it a single one, and beside them none.
const REDIRECTS: &str = "layer = [{entry = [
  {path = '/a', kind = 'dir'},
  {path = '/a/b', kind = 'dir', redirect = '/x/y'},
  {path = '/a/b/c', kind = 'dir', redirect = 'z'},
]}, {entry = [
  {path = '/x', kind = 'dir'},
  {path = '/x/y', kind = 'dir'},
]}]";

#[test]
fn a_path_is_spelled_for_the_layer_below(rt: HostRuntime) {
    let alloc = rt.alloc();
    let layers = mount(&rt, alloc, keys_of(&rt), REDIRECTS);
    has_bases(&rt, alloc, &layers);
    spells(&rt, alloc, &layers);
    drop(layers);
}

fn spells(rt: &impl Abort, alloc: Global, layers: &Layers) {
    for (text, wanted) in [
        ("/", "/"),
        ("/a", "/a"),
        ("/a/n", "/a/n"),
        ("/a/b", "/x/y"),
        ("/a/b/n/m", "/x/y/n/m"),
        ("/a/b/c", "/x/y/z"),
        ("/a/b/c/b", "/x/y/z/b"),
    ] {
        let given = path(rt, alloc, text);
        let spelled = layers.spelling_below(alloc, &given).expect(rt, "memory");
        holds(rt, spelled.names() == path(rt, alloc, wanted).names(), text);
    }
}

fn has_bases(rt: &impl Abort, alloc: Global, layers: &Layers) {
    for (text, wanted) in [
        ("/", true),
        ("/a", false),
        ("/a/b", true),
        ("/a/b/c", false),
    ] {
        let base = match layers.walk(&path(rt, alloc, text)) {
            Ok(Found::Directory(stack)) => stack.is_base(),
            _ => panic!(rt; "no directory"),
        };
        holds(rt, base == wanted, text);
    }
}
