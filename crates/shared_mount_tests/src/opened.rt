// Mounts that are opened under a name, and what is tried on each.
ghost use Rattle.locked_history.specs.Names.{IsNamed};

use crate::checks::holds;
use crate::door_sessions::{Scenario, happens};
use crate::gates::{lets_through, refuses_held, stops_at};
use crate::mounts::{End, blank_of, ended};
use crate::racing::{RACED, races};
use crate::refusals::{fill, stops, uses_a_number};
use locked_history::{Blank, Mount, MountName, Receipt};
use std::alloc::Global;
use std::hash::RandomState;
use std::marker::Brand;
use std::process::Abort;
use std::rt::Clock;
use std::sync::Wait;
use std::thread::Threads;
use watch_table::{Callback, Hook, Rule};

/// What is tried on a mount.
#[derive(Clone, Copy)]
pub enum Trial {
    Fills,
    UsesANumber,
    Stops,
    Races,
    LetsThrough(u64),
    StopsAt(u64),
    IsMeddledWith,
    /// A session over bytes in memory.
    HasSession(Scenario),
}

/// Tries this on a mount of a manifest's layers.
pub fn named<F: Callback + Drop + Send, R: Rule + Send, H: Threads + Wait + Abort + Clock + Sync>(
    rt: &H,
    alloc: Global,
    keys: RandomState,
    manifest: &str,
    trial: Trial,
) {
    named_with::<F, R, H>(rt, alloc, keys, manifest, trial, Vec::new(alloc));
}

/// The same where a client comes with these hooks.
pub fn named_with<
    F: Callback + Drop + Send,
    R: Rule + Send,
    H: Threads + Wait + Abort + Clock + Sync,
>(rt: &H, alloc: Global, keys: RandomState, manifest: &str, trial: Trial, hooks: Vec<Hook<F, R>>) {
    let blank: Blank<F, R> = blank_of(rt, alloc, keys, manifest);
    tries::<Brand, F, R, H>(rt, alloc, blank, trial, hooks);
}

fn tries<
    N: MountName + Send + Sync,
    F: Callback + Drop + Send,
    R: Rule + Send,
    H: Threads + Wait + Abort + Clock + Sync,
>(rt: &H, alloc: Global, blank: Blank<F, R>, trial: Trial, hooks: Vec<Hook<F, R>>)
    requires { IsNamed N.cells N.name N.parts N.opening blank }
{
    let mount = Mount::<N, F, R>::open(blank);
    let mut receipts = Vec::new(alloc);
    tried(rt, alloc, &mount, trial, hooks, &mut receipts);
    let end = ended(rt, alloc, mount, receipts);
    check_end(rt, trial, end);
}

// Tries this, and leaves the receipts that the mount is to be given back.
fn tried<
    N: MountName + Send + Sync,
    F: Callback + Drop + Send,
    R: Rule + Send,
    H: Threads + Wait + Abort + Clock + Sync,
>(
    rt: &H,
    alloc: Global,
    mount: &Mount<N, F, R>,
    trial: Trial,
    hooks: Vec<Hook<F, R>>,
    receipts: &mut Vec<Receipt<N>>,
) {
    if let Trial::HasSession(scenario) = trial {
        return happens(rt, alloc, mount, scenario, hooks, receipts);
    }
    drop(hooks);
    match trial {
        Trial::Fills => fill(rt, alloc, mount, receipts),
        Trial::UsesANumber => uses_a_number(rt, alloc, mount),
        Trial::Stops => stops(rt, alloc, mount),
        Trial::Races => races(rt, alloc, mount, receipts),
        Trial::LetsThrough(step) => lets_through(rt, alloc, mount, step),
        Trial::StopsAt(step) => stops_at(rt, alloc, mount, step),
        Trial::IsMeddledWith => refuses_held(rt, alloc, mount),
        Trial::HasSession(_) => {}
    }
}

// What a mount comes to on which this was tried.
fn check_end(rt: &impl Abort, trial: Trial, end: End) {
    let is_whole = end.handed_back == 0;
    let is_so = match trial {
        Trial::Fills => is_whole && end.is_filled,
        Trial::UsesANumber | Trial::Stops => true,
        Trial::Races => is_whole && end.entries == RACED,
        Trial::LetsThrough(_) => end.entries == 4 && end.temps == 0,
        Trial::StopsAt(_) => end.entries == 1 && end.is_untouched,
        Trial::IsMeddledWith => end.entries == 3 && end.is_untouched,
        Trial::HasSession(scenario) => {
            is_whole && end.entries == scenario.entries() && end.is_left_clean
        }
    };
    holds(rt, is_so, "what the mount comes to");
}
