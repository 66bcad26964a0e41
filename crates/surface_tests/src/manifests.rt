// What no script shows of a manifest: its options, and that it may be long.
use crate::checks::{add_text, counts, holds, keys_of};
use crate::fixtures::{are_bytes, path, read};
use layer_tree::{Entry, Layer, Node};
use ov_base::Options;
use std::alloc::Global;
use std::hash::RandomState;
use std::process::Abort;

#[test]
fn options_of_manifests(rt: HostRuntime) {
    for (top, redirects, metacopy, history, file_limit) in [
        ("", false, false, 100_000, 1_048_576),
        (
            "redirect_dir = \"on\"\nmetacopy = \"on\"\nhistory = 7\nfile_limit = 1\n",
            true,
            true,
            7,
            1,
        ),
        (
            "redirect_dir = \"off\"\nhistory = 1000000\nfile_limit = 0x100_0000_0000\n",
            false,
            false,
            1_000_000,
            1_099_511_627_776,
        ),
    ] {
        let mut manifest = String::new(rt.alloc());
        add_text(&rt, &mut manifest, top);
        add_text(&rt, &mut manifest, "layer = [{}, {}]");
        let options = options_of(&rt, rt.alloc(), keys_of(&rt), manifest.as_str());
        holds(&rt, options.redirects == redirects, top);
        holds(&rt, options.metacopy == metacopy, top);
        holds(&rt, options.history == history, top);
        holds(&rt, options.file_limit == file_limit, top);
    }
}

// The options of a manifest of an upper and a lower layer.
fn options_of(rt: &impl Abort, alloc: Global, keys: RandomState, manifest: &str) -> Options {
    let (upper, lowers, options) = read(rt, alloc, keys, manifest);
    drop(upper);
    counts(rt, lowers.len(), 1, "lowers");
    drop(lowers);
    options
}

// A manifest of 10,000 files of one directory, each with its name for bytes.
fn many_entries(rt: &impl Abort, alloc: Global) -> String {
    let mut manifest = String::new(alloc);
    add_text(rt, &mut manifest, "[[layer]]\n[[layer]]\n");
    for number in 0..10_000u32 {
        let entry = format!(in alloc;
            "[[layer.entry]]\npath = \"/{number}\"\nkind = \"file\"\ntext = \"{number}\"\n"
        );
        add_text(rt, &mut manifest, entry.expect(rt, "memory").as_str());
    }
    manifest
}

#[test]
fn many_entries_in_one_directory(rt: HostRuntime) {
    let alloc = rt.alloc();
    let manifest = many_entries(&rt, alloc);
    let (upper, lowers, _) = read(&rt, alloc, keys_of(&rt), manifest.as_str());
    drop(upper);
    assert_eq!(rt; lowers.len(), 1);
    has_last(&rt, alloc, &lowers[0]);
    drop(lowers);
}

fn has_last(rt: &impl Abort, alloc: Global, layer: &Layer) {
    let Some(Entry::Object(key)) = layer.find(&path(rt, alloc, "/9999")) else {
        panic!(rt; "no object");
    };
    holds(
        rt,
        matches!(layer.node(key), Some(Node::Inode(_))),
        "no directory",
    );
    let same = are_bytes(rt, alloc, layer.read(key), b"9999");
    holds(rt, same, "its bytes");
}
