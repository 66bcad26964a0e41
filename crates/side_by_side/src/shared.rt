// Scripts on mounts that threads share: one that keeps its history, and one that keeps none.
ghost use Rattle.std.specs.Prelude.{◌≡◌, IfOk, IfSome};
ghost use Rattle.overlay_core.specs.Views.{core_finished};

use crate::blobs::all_blobs;
use crate::endless_play::endless_play;
use crate::recorded_play::recorded_play;
use crate::told::Told;
use ov_base::Options;
use ov_server::hooks_by_slot;
use ov_wire::{layers_of, table_of};
use overlay_core::Core;
use std::alloc::{AllocError, Global};
use std::hash::RandomState;
use std::marker::Brand;
use std::sync::Wait;
use watch_table::{Callback, Hook, Rule};

/// A script that shows the merged tree.
const SHOW: &[u8] = b"merge";

/// Places of a history beside those for the lines of a script: 64 clients keep one each, and an
/// attach wants two.
const PLACES_SPARE: u32 = 100;

/// What a mount that threads share keeps of its history.
#[derive(Clone, Copy)]
pub enum Keeps {
    Entries,
    Nothing,
}

/// What a script comes to on a mount of a manifest's layers that threads share. Without a script
/// the merged tree is shown.
pub fn told_by<H: Wait>(
    rt: &H,
    (alloc, keys): (Global, RandomState),
    keeps: Keeps,
    manifest: &[u8],
    script: Option<&[u8]>,
) -> Result<Told, AllocError> {
    let hooks = hooks_by_slot(alloc)?;
    let script = script.unwrap_or(SHOW);
    let mut told = Told::new(alloc);
    for _ in 0..u64::MAX {
        if !goes_on(
            rt,
            (alloc, keys),
            keeps,
            (manifest, script),
            hooks.as_slice(),
            &mut told,
        ) {
            break;
        }
    }
    Ok(told)
}

/// How a mount that keeps no history differs in what it answers to a script.
pub fn endless_difference<H: Wait>(
    rt: &H,
    (alloc, keys): (Global, RandomState),
    manifest: &[u8],
    script: Option<&[u8]>,
    wanted: &[u8],
) -> Result<Option<String>, AllocError> {
    let told = told_by(rt, (alloc, keys), Keeps::Nothing, manifest, script)?;
    let found = told.into_text()?;
    if found.as_bytes() == wanted {
        return Ok(None);
    }
    Ok(Some(format!(in alloc; "a mount without a history answers\n{found}")?))
}

// Plays the script on a new mount up to the next line that asks for a layer or the tree, and tells
// it; false where nothing is left to tell.
fn goes_on<F: Callback + Copy, R: Rule, H: Wait>(
    rt: &H,
    (alloc, keys): (Global, RandomState),
    keeps: Keeps,
    (manifest, script): (&[u8], &[u8]),
    hooks: &[Hook<F, R>],
    told: &mut Told,
) -> bool {
    let core = match core_of::<F, R>(alloc, keys, manifest, places_for(script)) {
        Ok(Some(core)) => core,
        Ok(None) => return told.end_without_mount(),
        Err(_) => return told.end_without_memory(),
    };
    match keeps {
        Keeps::Entries => match locked_history::Blank::new(alloc, core) {
            Ok(blank) => recorded_play::<Brand, F, R, H>(rt, alloc, blank, script, hooks, told),
            Err(core) => {
                drop(core);
                told.end_without_mount()
            }
        },
        Keeps::Nothing => {
            let blank = endless_mount::Blank::new(alloc, core);
            endless_play::<Brand, F, R, H>(rt, alloc, blank, script, hooks, told)
        }
    }
}

// More places of a history than a script can fill: a line is one deed, and each client keeps a
// place. A mount with more of them answers the same and takes longer to make.
fn places_for(script: &[u8]) -> u32 {
    let lines = u32::try_from(script.len()).unwrap_or(u32::MAX);
    lines.saturating_add(PLACES_SPARE)
}

// A core of a manifest's layers, whose history has at most so many places.
fn core_of<F: Callback + Drop, R: Rule>(
    alloc: Global,
    keys: RandomState,
    manifest: &[u8],
    places: u32,
) -> Result<Option<Core<F, R>>, AllocError>
    ensures { IfOk result (λ made. IfSome made (λ core. core_finished core ≡ 0)) }
{
    let blobs = all_blobs(alloc)?;
    let table = match table_of(alloc, manifest) {
        Ok(table) => table,
        Err(fault) => {
            drop(fault);
            return Ok(None);
        }
    };
    let layers = layers_of(alloc, keys, &table, blobs.as_slice());
    drop(table);
    let (upper, lowers, options) = match layers {
        Ok(layers) => layers,
        Err(fault) => {
            drop(fault);
            return Ok(None);
        }
    };
    let options = Options {
        history: options.history.min(places),
        ..options
    };
    match Core::mount(alloc, keys, upper, lowers, options) {
        Ok(core) => Ok(Some(core)),
        Err(unmounted) => {
            drop(unmounted);
            Ok(None)
        }
    }
}
