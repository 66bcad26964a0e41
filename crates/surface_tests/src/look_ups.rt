// Chains of redirects in as many layers as there may be, and the way back from an object of the upper to its path.
use crate::checks::{add_text, counts, holds, keys_of};
use crate::fixtures::{layers_of, mount, path, read, seen};
use layer_tree::{Entry, Layer, ROOT};
use merged_lookup::Layers;
use ov_base::{Errno, Name};
use std::alloc::Global;
use std::process::Abort;

// 17 layers, in each a chain of eight directories in one another, each with a redirect to the last of them; and a file in that of the
// last layer.
fn chains(rt: &impl Abort, alloc: Global) -> String {
    let mut manifest = String::new(alloc);
    for _ in 0..17 {
        add_text(rt, &mut manifest, "[[layer]]\n");
        let mut path = String::new(alloc);
        for _ in 0..8 {
            add_text(rt, &mut path, "/a");
            add_text(rt, &mut manifest, "[[layer.entry]]\npath = \"");
            add_text(rt, &mut manifest, path.as_str());
            add_text(
                rt,
                &mut manifest,
                "\"\nkind = \"dir\"\nredirect = \"/a/a/a/a/a/a/a/a\"\n",
            );
        }
    }
    let note = "[[layer.entry]]\npath = \"/a/a/a/a/a/a/a/a/note\"\nkind = \"file\"\n";
    add_text(rt, &mut manifest, note);
    manifest
}

// In each layer but the last a way of one to eight names is spelled as the chain's last directory for the next layer, so all 17 have one
// there, and what is below that is spelled below it. A walk that began anew at each redirect would take 8 to the 16th steps.
#[test]
fn chains_of_redirects_answer_at_once(rt: HostRuntime) {
    let alloc = rt.alloc();
    let manifest = chains(&rt, alloc);
    let layers = mount(&rt, alloc, keys_of(&rt), manifest.as_str());
    counts(&rt, layers.count(), 17, "layers");
    for (text, wanted) in [
        ("/a", Ok((0, 17, 0o755))),
        ("/a/a/a/a", Ok((0, 17, 0o755))),
        ("/a/a/a/a/a/a/a/a", Ok((0, 17, 0o755))),
        ("/a/a/a/a/a/a/a/a/a", Err(Errno::ENOENT)),
        ("/a/a/a/a/a/a/a/a/note", Ok((16, 0, 0o644))),
        ("/a/note", Ok((16, 0, 0o644))),
        ("/a/a/a/note/x", Err(Errno::ENOTDIR)),
    ] {
        let found = seen(&layers, &path(&rt, alloc, text));
        holds(&rt, found == wanted, text);
    }
    drop(layers);
}

// The text of `/a-` is less than that of `/a/b`, since `-` is less than `/`, and the list of its names is greater.
const TWO_NAMES: &str = "layer = [{entry = [
  {path = '/a', kind = 'dir'},
  {path = '/a/b', kind = 'file'},
  {path = '/a-', kind = 'link', to = '/a/b'},
]}, {}]";

#[test]
fn an_object_is_located_at_the_least_text(rt: HostRuntime) {
    let alloc = rt.alloc();
    let layers = mount(&rt, alloc, keys_of(&rt), TWO_NAMES);
    for (text, wanted) in [("/a/b", "/a-"), ("/a-", "/a-"), ("/a", "/a"), ("/", "/")] {
        locates(&rt, alloc, &layers, text, wanted);
    }
    drop(layers);
}

fn locates(rt: &impl Abort, alloc: Global, layers: &Layers, text: &str, wanted: &str) {
    let Some(Entry::Object(key)) = layers.upper().find(&path(rt, alloc, text)) else {
        panic!(rt; "no object");
    };
    let located = layers.locate(alloc, key).expect(rt, "memory");
    let located = located.expect(rt, "a path");
    holds(rt, located.names() == path(rt, alloc, wanted).names(), text);
}

#[test]
fn an_object_without_a_name_has_no_path(rt: HostRuntime) {
    let alloc = rt.alloc();
    let manifest = "layer = [{entry = [{path = '/f', kind = 'file'}]}, {}]";
    let keys = keys_of(&rt);
    let (mut upper, lowers, _) = read(&rt, alloc, keys, manifest);
    let key = unnamed(&rt, alloc, &mut upper);
    let layers = layers_of(&rt, alloc, keys, upper, lowers);
    let located = layers.locate(alloc, key).expect(&rt, "memory");
    holds(&rt, located.is_none(), "no path");
    drop(layers);
}

// The key of the file, whose name is taken away.
fn unnamed(rt: &impl Abort, alloc: Global, upper: &mut Layer) -> usize {
    let parsed = Name::parse(alloc, b"f").expect(rt, "memory");
    let name = parsed.expect(rt, "a name");
    assert!(rt; upper.is_directory(ROOT));
    let key = match upper.take_out(ROOT, &name) {
        Some(Entry::Object(key)) => key,
        _ => panic!(rt; "no file"),
    };
    assert!(rt; upper.node(key).is_some());
    key
}
