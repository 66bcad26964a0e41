// Scripts on files that are about as long as they may be, made by a seeded generator, on the engine and on the slow reference.
use crate::generated::script_difference_in_turn;
use script_reference::{
    Dice, LIMIT_FILES, LIMITS, Limit, Manifests, Text, push_call_at_limit, push_open_at_limit,
};
use std::alloc::{AllocError, Global};
use std::hash::RandomState;
use std::ops::Range;
use std::rt::Files;
use std::{fs, io};

/// The manifest over which they are played, to which a limit and two files are added.
const MANIFEST: &str = "limits.toml";

/// How many layers it has.
const LAYERS: u32 = 3;

/// How many scripts are played, and how many lines each has: of opens at first, then of any calls, and more after a client went.
const SCRIPTS: u64 = 2_000;

const OPENS: u32 = 6;

const LINES: u32 = 40;

const LINES_MORE: u32 = 15;

/// One limit as that of the mounts of two manifests: with few bytes in their files, and with many.
#[derive(Drop)]
struct Limited {
    limit: Limit,
    few: Manifests,
    many: Manifests,
}

/// Plays generated scripts, each over one of seven limits of the bytes of a file, one of sixteen with lower files as long as that, and tells
/// how many get the same lines from the engine and from the reference.
pub fn play_generated_limits<R: Files + AllocGlobal + Print>(
    rt: &R,
    keys: RandomState,
) -> io::Result<()> {
    let text = fs::read_to_string(rt, MANIFEST)?;
    let limits = all_limited(rt.alloc(), text.as_str())?;
    let mut count = 0u64;
    for seed in 0..SCRIPTS {
        match limit_difference(rt.alloc(), keys, limits.as_slice(), seed)? {
            None => count = count.saturating_add(1),
            Some(found) => println!(rt; "script {seed} at a limit differs: {found}")?,
        }
    }
    println!(rt; "{count} generated scripts at a limit of files agree")
}

fn all_limited(alloc: Global, text: &str) -> Result<Vec<Limited>, AllocError> {
    let mut limits = Vec::new(alloc);
    for limit in LIMITS {
        let few = manifest_with(alloc, limit.key, text, limit.zeros)?;
        let many = manifest_with(alloc, limit.key, text, limit.many_zeros)?;
        limits.push(Limited {
            limit,
            few: Manifests::of(alloc, few)?,
            many: Manifests::of(alloc, many)?,
        })?;
    }
    Ok(limits)
}

// The manifest with a key on top, and two files more in the lowest layer.
fn manifest_with(
    alloc: Global,
    key: &str,
    text: &str,
    [first, second]: [&str; 2],
) -> Result<Vec<u8>, AllocError> {
    let mut manifest = Vec::from_slice(alloc, key.as_bytes())?;
    manifest.extend_from_slice(text.as_bytes())?;
    for (path, zeros) in [("/a/b/c", first), ("/c", second)] {
        let file = format!(in alloc;
            "[[layer.entry]]\npath = \"{path}\"\nkind = \"file\"\nzeros = {zeros}\n"
        )?;
        manifest.extend_from_slice(file.as_bytes())?;
    }
    Ok(manifest)
}

// How the engine and the reference differ in what they answer to the script of a seed.
fn limit_difference(
    alloc: Global,
    keys: RandomState,
    limits: &[Limited],
    seed: u64,
) -> io::Result<Option<String>> {
    let Some(limited) = limits.get((seed % 7) as usize) else {
        return Ok(Some(String::from_str(alloc, "there is no limit")?));
    };
    let manifests = if seed % 16 == 0 {
        &limited.many
    } else {
        &limited.few
    };
    let manifest = manifests.with_seed(seed);
    let script = script_of(alloc, seed, limited.limit, manifest.numbers(LAYERS))?;
    script_difference_in_turn(alloc, keys, seed >> 4, (manifest.text, script.as_bytes()))
}

// Two clients come, open files and make calls, one goes with what it has open, another comes, and there are more calls. Then what stands at
// the paths of files is read, and the layers and the whole tree are printed.
fn script_of(
    alloc: Global,
    seed: u64,
    limit: Limit,
    layers: Range<u32>,
) -> Result<String, AllocError> {
    let mut dice = Dice::new(seed);
    let mut script = Text::new(alloc);
    script.add("attach\nattach\n");
    for _ in 0..OPENS {
        let client = dice.pick(&["0", "1"]);
        push_open_at_limit(&mut dice, client, &mut script);
    }
    push_calls(LINES, &mut dice, &["0", "1"], limit, &mut script);
    script.add("1 detach\nattach\n");
    push_calls(LINES_MORE, &mut dice, &["0", "0", "2"], limit, &mut script);
    push_readings(&mut script);
    script.layers(alloc, layers);
    script.add("merge\n");
    script.end()
}

fn push_calls(
    count: u32,
    dice: &mut Dice,
    clients: &[&'static str],
    limit: Limit,
    script: &mut Text,
) {
    for _ in 0..count {
        let client = dice.pick(clients);
        push_call_at_limit(dice, client, limit, script);
    }
}

// A further client reads the first and the last bytes of each file.
fn push_readings(script: &mut Text) {
    script.add("attach\n");
    for path in LIMIT_FILES {
        script.add("3 open r ");
        script.add(path);
        script.add("\n3 fstat 0\n3 read 0 20\n3 seek 0 -9 end\n3 read 0 20\n3 close 0\n");
    }
}
