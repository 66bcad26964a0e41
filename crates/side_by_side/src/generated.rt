// Scripts made by a seeded generator, on the engine, on the slow reference and on a mount that threads
// share and that keeps no history.
use crate::engine::{look_ups_difference, look_ups_difference_in_turn, run_of};
use crate::shared::endless_difference;
use script_reference::{
    Dice, Manifest, Manifests, Text, push_arm_of, push_call, push_open_of, push_watch_call,
    reference_difference,
};
use std::alloc::{AllocError, Global};
use std::hash::RandomState;
use std::ops::Range;
use std::rt::Files;
use std::sync::Wait;
use std::{fs, io};

/// How many scripts are played over a manifest, and how many lines each has: of arms and opens at first, then of any calls, and more after a
/// client went.
const SCRIPTS: u64 = 1_000;

const ARMS: u32 = 12;

const OPENS: u32 = 12;

const LINES: u32 = 40;

const LINES_MORE: u32 = 20;

/// Plays generated scripts over the manifest of a file, a quarter of them on a mount that makes redirects, a quarter on one that copies files up
/// without their bytes, too, and a sixth on one without an upper, and tells how many get the same lines from the engine, from the reference and
/// from a mount that keeps no history.
pub fn play_generated<R: Files + AllocGlobal + Print + Wait>(
    rt: &R,
    keys: RandomState,
    (file, layers): (&str, u32),
) -> io::Result<()> {
    let manifests = Manifests::of(rt.alloc(), fs::read(rt, file)?)?;
    let mut count = 0u64;
    for seed in 0..SCRIPTS {
        let manifest = manifests.with_seed(seed);
        match seed_difference(rt, (rt.alloc(), keys), manifest, layers, seed)? {
            None => count = count.saturating_add(1),
            Some(found) => println!(rt; "script {seed} over {file} differs: {found}")?,
        }
    }
    println!(rt; "{count} generated scripts over {file} agree")
}

// How the answers to the script of a seed differ.
fn seed_difference<H: Wait>(
    rt: &H,
    (alloc, keys): (Global, RandomState),
    manifest: Manifest<'_>,
    layers: u32,
    seed: u64,
) -> io::Result<Option<String>> {
    let script = script_of(alloc, seed, manifest.numbers(layers))?;
    script_difference(rt, (alloc, keys), manifest.text, script.as_bytes())
}

fn script_difference<H: Wait>(
    rt: &H,
    (alloc, keys): (Global, RandomState),
    manifest: &[u8],
    script: &[u8],
) -> io::Result<Option<String>> {
    let engine = run_of(alloc, keys, manifest, Some(script))?;
    let text = engine.text.as_slice();
    if let Some(kept) = look_ups_difference(alloc, keys, manifest, script, text)? {
        return Ok(Some(format!(in alloc; "with {kept} look-ups kept")?));
    }
    if let Some(found) = reference_difference(alloc, manifest, Some(script), text)? {
        return Ok(Some(found));
    }
    let found = endless_difference(rt, (alloc, keys), manifest, Some(script), text)?;
    Ok(found)
}

/// How the engine and the reference differ in what they answer to a script. A further number of kept look-ups goes by turns, and each number
/// goes with each manifest.
pub fn script_difference_in_turn(
    alloc: Global,
    keys: RandomState,
    turn: u64,
    (manifest, script): (&[u8], &[u8]),
) -> io::Result<Option<String>> {
    let engine = run_of(alloc, keys, manifest, Some(script))?;
    let text = engine.text.as_slice();
    let kept = look_ups_difference_in_turn(alloc, keys, turn, (manifest, script), text)?;
    if let Some(kept) = kept {
        return Ok(Some(format!(in alloc; "with {kept} look-ups kept")?));
    }
    let found = reference_difference(alloc, manifest, Some(script), text)?;
    Ok(found)
}

// Three clients come, and the first, the first two or all of them watch, open files and make calls. One goes with what it has open, another
// comes, and one to three make more calls. Then what stands at some paths is read, and the layers and the whole tree are printed.
fn script_of(alloc: Global, seed: u64, layers: Range<u32>) -> Result<String, AllocError> {
    let mut dice = Dice::new(seed);
    let mut script = Text::new(alloc);
    script.add("attach\nattach\nattach\n");
    let clients = dice.front(&["0", "1", "2"]);
    push_first((ARMS, OPENS), &mut dice, clients, &mut script);
    push_calls(LINES, &mut dice, clients, &mut script);
    push_unread(&["1"], &mut script);
    script.add("1 detach\nattach\n");
    let clients = dice.front(&["0", "2", "3"]);
    push_calls(LINES_MORE, &mut dice, clients, &mut script);
    push_unread(&["0", "2", "3"], &mut script);
    push_readings(&mut script);
    push_unread(&["0", "2", "3"], &mut script);
    script.layers(alloc, layers);
    script.add("merge\n");
    script.end()
}

/// Appends lines of so many arms and opens of these clients.
pub fn push_first(
    (arms, opens): (u32, u32),
    dice: &mut Dice,
    clients: &[&'static str],
    script: &mut Text,
) {
    for _ in 0..arms {
        push_arm_of(dice, clients, script);
    }
    for _ in 0..opens {
        push_open_of(dice, clients, script);
    }
}

// Lines of calls of these clients, with some on watches among them.
fn push_calls(count: u32, dice: &mut Dice, clients: &[&'static str], script: &mut Text) {
    for _ in 0..count {
        push_call(dice, clients, script);
        if dice.roll(3) == 0 {
            push_watch_call(dice, clients, script);
        }
    }
}

// The lines by which clients read all that they haven't read.
fn push_unread(clients: &[&str], script: &mut Text) {
    for client in clients {
        script.add(client);
        script.add(" notices 65\n");
    }
}

// A further client reads the bytes and user attributes of paths of one name and of two.
fn push_readings(script: &mut Text) {
    script.add("attach\n");
    for first in ["/a", "/b", "/c", "/d"] {
        for second in ["", "/a", "/b", "/c", "/d"] {
            for (before, after) in [
                ("4 open r ", "\n4 fstat 0\n4 read 0 200\n4 close 0\n"),
                ("4 attrs ", "\n"),
                ("4 getattr ", " user.a\n"),
            ] {
                script.add(before);
                script.add(first);
                script.add(second);
                script.add(after);
            }
        }
    }
}
