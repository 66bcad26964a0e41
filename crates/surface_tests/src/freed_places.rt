// Files that lose their name while they are open leave their places in the upper to others.
use crate::checks::{holds, keys_of};
use crate::cores::{Answer, answers, attached, detach, mounted, unmount};
use crate::fixtures::{flags, path};
use merged_lookup::Topmost;
use ov_base::{Call, OpenFlags, Path};
use overlay_core::Core;
use program_hooks::{ByTag, ProgramRule, hooks_by_slot};
use std::alloc::Global;
use std::hash::RandomState;
use std::process::Abort;
use watch_table::{Callback, Hook, Rule};

const DIRECTORY: &str = "history = 1000000
layer = [{}, {entry = [{path = '/d', kind = 'dir'}]}]";

const FILE: &str = "/d/f";

// Makes a file, opens it for writing, and removes its name.
fn open_nameless<F: Callback + Copy, H: Rule>(
    rt: &impl Abort,
    alloc: Global,
    core: &mut Core<F, H>,
    client: u64,
) {
    makes(rt, alloc, core, client);
    let call = Call::Unlink {
        path: path(rt, alloc, FILE),
    };
    answers(rt, core, client, call, Answer::Done);
}

// Makes a file and opens it for writing.
fn makes<F: Callback + Copy, H: Rule>(
    rt: &impl Abort,
    alloc: Global,
    core: &mut Core<F, H>,
    client: u64,
) {
    let call = making(path(rt, alloc, FILE));
    answers(rt, core, client, call, Answer::Descriptor(0));
}

// The call that does so.
fn making(path: Path) -> Call {
    Call::Open {
        path,
        flags: OpenFlags {
            create: true,
            exclusive: true,
            ..flags(true)
        },
        mode: 0o600,
    }
}

// The key in the upper of a file that is made now.
fn key_given<F: Callback + Copy, H: Rule>(
    rt: &impl Abort,
    alloc: Global,
    core: &mut Core<F, H>,
    client: u64,
) -> usize {
    makes(rt, alloc, core, client);
    match core.layers().walk_topmost(&path(rt, alloc, FILE)) {
        Ok(Topmost::Inode(place)) if place.layer == 0 => place.key,
        _ => panic!(rt; "no file of the upper"),
    }
}

// The upper has its root and the directory, and all files had one place.
#[test]
fn closed_files_leave_their_places(rt: HostRuntime) {
    let hooks = hooks_by_slot(rt.alloc()).expect(&rt, "memory");
    frees_each(&rt, rt.alloc(), keys_of(&rt), hooks);
}

fn frees_each<F: Callback + Copy, H: Rule>(
    rt: &impl Abort,
    alloc: Global,
    keys: RandomState,
    hooks: Vec<Hook<F, H>>,
) {
    let mut core: Core<F, H> = mounted(rt, alloc, keys, DIRECTORY);
    frees_on(rt, alloc, &mut core, hooks);
    unmount(core);
}

fn frees_on<F: Callback + Copy, H: Rule>(
    rt: &impl Abort,
    alloc: Global,
    core: &mut Core<F, H>,
    hooks: Vec<Hook<F, H>>,
) {
    let client = attached(rt, core, hooks);
    for _ in 0..100_000u32 {
        open_nameless(rt, alloc, core, client);
        let call = Call::Close { descriptor: 0 };
        answers(rt, core, client, call, Answer::Done);
    }
    holds(
        rt,
        key_given(rt, alloc, core, client) < 3,
        "a place that was freed",
    );
}

#[test]
fn clients_that_detach_leave_places(rt: HostRuntime) {
    frees_with_clients::<_, ByTag, ProgramRule>(&rt, rt.alloc(), keys_of(&rt));
}

fn frees_with_clients<A: Abort, F: Callback + Copy, H: Rule>(
    rt: &A,
    alloc: Global,
    keys: RandomState,
) {
    let mut core: Core<F, H> = mounted(rt, alloc, keys, DIRECTORY);
    frees_clients_on(rt, alloc, &mut core);
    unmount(core);
}

fn frees_clients_on<F: Callback + Copy, H: Rule>(
    rt: &impl Abort,
    alloc: Global,
    core: &mut Core<F, H>,
) {
    for _ in 0..1_000u32 {
        let client = attached(rt, core, Vec::new(alloc));
        open_nameless(rt, alloc, core, client);
        detach(rt, core, client);
    }
    let client = attached(rt, core, Vec::new(alloc));
    holds(
        rt,
        key_given(rt, alloc, core, client) < 3,
        "a place that was freed",
    );
}
