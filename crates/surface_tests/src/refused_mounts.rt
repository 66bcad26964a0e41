// Options with which layers are no mount.
use crate::checks::{counts, holds, keys_of};
use crate::cores::refused;
use crate::fixtures::{EMPTY, read};
use ov_base::Options;
use overlay_core::MountFault;
use program_hooks::{ByTag, ProgramRule};
use std::alloc::Global;
use std::hash::RandomState;
use std::process::Abort;
use watch_table::{Callback, Rule};

// Layers with such a history, and with metacopy or without, are refused for this fault and handed
// back.
fn refuses<F: Callback + Copy, H: Rule>(
    rt: &impl Abort,
    alloc: Global,
    keys: RandomState,
    (history, metacopy): (u32, bool),
    fault: MountFault,
) {
    let (upper, lowers, options) = read(rt, alloc, keys, EMPTY);
    let options = Options {
        history,
        metacopy,
        ..options
    };
    let unmounted = refused::<F, H>(rt, alloc, keys, upper, lowers, options);
    holds(rt, unmounted.fault == Some(fault), "the fault");
    counts(rt, unmounted.lowers.len(), 1, "lowers");
    drop(unmounted);
}

#[test]
fn refuses_a_history_of_one(rt: HostRuntime) {
    let keys = keys_of(&rt);
    let options = (1, false);
    refuses::<ByTag, ProgramRule>(&rt, rt.alloc(), keys, options, MountFault::BadHistory);
}

#[test]
fn refuses_metacopy_without_redirects(rt: HostRuntime) {
    let keys = keys_of(&rt);
    let options = (100_000, true);
    refuses::<ByTag, ProgramRule>(&rt, rt.alloc(), keys, options, MountFault::BadMetacopy);
}
