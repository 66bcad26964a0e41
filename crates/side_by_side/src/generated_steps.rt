// Scripts of calls in steps made by a seeded generator, on the engine and on the slow reference.
use crate::generated::{push_first, script_difference_in_turn};
use crate::stepper::Stepper;
use ov_server::{core_of, hooks_by_slot};
use ov_wire::table_of;
use script_reference::{Dice, Manifest, Manifests, PLACES, STEP_FILES, Text, push_line, push_turn};
use std::alloc::{AllocError, Global};
use std::hash::RandomState;
use std::rt::Files;
use std::{fs, io};
use watch_table::{Callback, Hook, Rule};

/// The manifest over which they are played, in which repeated words are written once.
const MANIFEST: &str = "steps.toml";

/// How many layers it has.
const LAYERS: u32 = 3;

/// How many scripts are played, and how many lines each has: of arms and opens at first, then of
/// calls in steps and others between them, and more after a client went.
const SCRIPTS: u64 = 2_000;

const ARMS: u32 = 4;

const OPENS: u32 = 3;

const LINES: u32 = 60;

const LINES_MORE: u32 = 40;

/// Plays generated scripts, a quarter of them on a mount that makes redirects, a quarter on one that
/// copies files up without their bytes, too, and a sixth on one without an upper, and tells how many
/// get the same lines from the engine and from the reference.
pub fn play_generated_steps<R: Files + AllocGlobal + Print>(
    rt: &R,
    keys: RandomState,
) -> io::Result<()> {
    let text = fs::read_to_string(rt, MANIFEST)?;
    let manifests = Manifests::of(rt.alloc(), expanded(rt.alloc(), text.as_str())?)?;
    let mut count = 0u64;
    for seed in 0..SCRIPTS {
        match step_difference(rt.alloc(), keys, manifests.with_seed(seed), seed)? {
            None => count = count.saturating_add(1),
            Some(found) => println!(rt; "script {seed} in steps differs: {found}")?,
        }
    }
    println!(rt; "{count} generated scripts in steps agree")
}

fn expanded(alloc: Global, text: &str) -> Result<Vec<u8>, AllocError> {
    let mut bytes = Vec::new(alloc);
    for line in text.lines() {
        push_line(alloc, &mut bytes, line)?;
    }
    Ok(bytes)
}

// How the engine and the reference differ in what they answer to the script of a seed.
fn step_difference(
    alloc: Global,
    keys: RandomState,
    manifest: Manifest<'_>,
    seed: u64,
) -> io::Result<Option<String>> {
    let hooks = hooks_by_slot(alloc)?;
    let Some(script) = drafted(alloc, keys, manifest, hooks.as_slice(), seed)? else {
        return Ok(Some(String::from_str(alloc, "there is no mount")?));
    };
    script_difference_in_turn(alloc, keys, seed >> 2, (manifest.text, script.as_bytes()))
}

// The script of a seed. None where there is no mount.
fn drafted<F: Callback + Copy, R: Rule>(
    alloc: Global,
    keys: RandomState,
    manifest: Manifest<'_>,
    hooks: &[Hook<F, R>],
    seed: u64,
) -> Result<Option<String>, AllocError> {
    let table = match table_of(alloc, manifest.text) {
        Ok(table) => table,
        Err(fault) => {
            drop(fault);
            return Ok(None);
        }
    };
    let core = core_of::<F, R>(alloc, keys, &table, &[], None);
    drop(table);
    let core = match core {
        Ok(core) => core,
        Err(fault) => {
            drop(fault);
            return Ok(None);
        }
    };
    let mut draft = Draft {
        manifest,
        dice: Dice::new(seed),
        text: Text::new(alloc),
        stepper: Stepper::new(alloc, core),
    };
    draft.fill(alloc, hooks);
    Ok(Some(draft.end().end()?))
}

// A script on its way, and the mount on which its lines were played, which tells whose call goes
// on.
struct Draft<'a, F: Callback, R: Rule> {
    manifest: Manifest<'a>,
    dice: Dice,
    text: Text,
    stepper: Stepper<F, R>,
}

impl<F: Callback + Copy, R: Rule> Draft<'_, F, R> {
    // Three clients come, and the first, the first two or all of them watch, open files and make calls
    // in steps. One goes, another comes, and one to three make more. What stands at some paths is
    // read, while calls may go on.
    fn fill(&mut self, alloc: Global, hooks: &[Hook<F, R>]) {
        let mut lines = Text::new(alloc);
        lines.add("attach\nattach\nattach\n");
        let clients = self.dice.front(&["0", "1", "2"]);
        push_first((ARMS, OPENS), &mut self.dice, clients, &mut lines);
        self.add(alloc, hooks, &mut lines);
        self.add_turns(alloc, hooks, LINES, clients);
        lines.add("1 detach\nattach\n");
        self.add(alloc, hooks, &mut lines);
        let clients = self.dice.front(&["0", "2", "3"]);
        self.add_turns(alloc, hooks, LINES_MORE, clients);
        push_readings(&mut lines);
        self.add(alloc, hooks, &mut lines);
        self.add_ends(alloc, hooks, &["0", "2", "3"]);
        push_sights(alloc, self.manifest, &mut lines);
        self.add(alloc, hooks, &mut lines);
    }

    // Adds so many lines of these clients.
    fn add_turns(
        &mut self,
        alloc: Global,
        hooks: &[Hook<F, R>],
        count: u32,
        clients: &[&'static str],
    ) {
        let mut line = Text::new(alloc);
        let sight = self.manifest.first_layer();
        for _ in 0..count {
            let client = self.dice.pick(clients);
            let is_calling = self.stepper.is_calling(number_of(client));
            push_turn(&mut self.dice, client, is_calling, sight, &mut line);
            self.add(alloc, hooks, &mut line);
        }
    }

    // Ends the calls of these clients, which read what they have heard then.
    fn add_ends(&mut self, alloc: Global, hooks: &[Hook<F, R>], clients: &[&'static str]) {
        let mut lines = Text::new(alloc);
        for client in clients {
            let is_calling = self.stepper.is_calling(number_of(client));
            push_end(client, is_calling, &mut lines);
        }
        self.add(alloc, hooks, &mut lines);
    }

    // Plays lines and adds them to the script. None are left.
    fn add(&mut self, alloc: Global, hooks: &[Hook<F, R>], lines: &mut Text) {
        let played = self.stepper.play(alloc, hooks, lines.as_str().as_bytes());
        self.text.note(played);
        self.text.take(lines);
    }

    // The script.
    fn end(self) -> Text {
        let Draft {
            manifest: _,
            dice: _,
            text,
            stepper,
        } = self;
        stepper.end();
        text
    }
}

fn number_of(client: &str) -> u32 {
    client.parse::<u32>().unwrap_or(0)
}

fn push_end(client: &str, is_calling: bool, lines: &mut Text) {
    if is_calling {
        lines.add(client);
        lines.add(" step 100000\n");
    }
    lines.add(client);
    lines.add(" notices 65\n");
}

// A further client reads bytes at the beginning, about the end of the first chunk and at the end
// of each file.
fn push_readings(lines: &mut Text) {
    lines.add("attach\n");
    for path in STEP_FILES {
        push_reading(path, lines);
    }
    for path in PLACES {
        push_reading(path, lines);
    }
}

fn push_reading(path: &str, lines: &mut Text) {
    lines.add("4 open r ");
    lines.add(path);
    lines.add("\n4 fstat 0\n4 read 0 20\n4 seek 0 4090 set\n4 read 0 12\n");
    lines.add("4 seek 0 -9 end\n4 read 0 20\n4 close 0\n");
}

// The layers and the tree. In the end no client is there, and no temp.
fn push_sights(alloc: Global, manifest: Manifest<'_>, lines: &mut Text) {
    lines.add("work\n");
    lines.layers(alloc, manifest.numbers(LAYERS));
    lines.add("merge\n0 detach\n2 detach\n3 detach\n4 detach\nwork\n");
    lines.add(manifest.first_layer());
}
