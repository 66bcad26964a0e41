//! Plays the rows of its data folder on the engine, on the slow reference and on mounts that
//! threads share, and tells of each row whether all answer what is wanted. Plays scripts made by a
//! generator on the engine and on the slow reference, and some on a mount that threads share.
#![tactic(auto)]

mod blobs;
mod endless_play;
mod engine;
mod generated;
mod generated_limits;
mod generated_steps;
mod judging;
mod kept_trees;
mod recorded_play;
mod rows;
mod shared;
mod shared_clients;
mod shared_mount;
mod sights;
mod stepper;
mod told;

use crate::generated::play_generated;
use crate::generated_limits::play_generated_limits;
use crate::generated_steps::play_generated_steps;
use crate::judging::{Verdict, judged};
use crate::rows::{Row, rows_in};
use std::hash::RandomState;
use std::rt::Files;
use std::sync::Wait;
use std::{fs, io};

/// The files of the rows, each on one subject.
const FILES: [&str; 21] = [
    "look_up.rows",
    "kept.rows",
    "redirects.rows",
    "listings.rows",
    "making_and_removing.rows",
    "links.rows",
    "renames.rows",
    "moved_directories.rows",
    "refusals.rows",
    "attributes.rows",
    "metacopy.rows",
    "read_only.rows",
    "descriptors_and_clients.rows",
    "script_forms.rows",
    "manifest_faults.rows",
    "entry_faults.rows",
    "manifest_objects.rows",
    "opens.rows",
    "files.rows",
    "watches.rows",
    "steps.rows",
];

/// The manifests over which generated scripts are played, and how many layers each has.
const MANIFESTS: [(&str, u32); 3] = [
    ("two_layers.toml", 2),
    ("three_layers.toml", 3),
    ("four_layers.toml", 4),
];

/// How many rows agree, how many of them were played on mounts that threads share, and to how many
/// of these the one that keeps no history gives the same lines.
#[derive(Clone, Copy)]
struct Counts {
    rows: u64,
    shared: u64,
    endless: u64,
}

impl Counts {
    fn count(&mut self, verdict: &Verdict) {
        let (is_shared, is_endless) = match verdict {
            Verdict::Agrees => (true, true),
            Verdict::FillsHistory => (true, false),
            Verdict::NoMount | Verdict::NotShared => (false, false),
            Verdict::Differs(_) => return,
        };
        self.rows = self.rows.saturating_add(1);
        self.shared = self.shared.saturating_add(u64::from(is_shared));
        self.endless = self.endless.saturating_add(u64::from(is_endless));
    }
}

fn main(rt: HostRuntime) -> io::Result<()> {
    let keys = RandomState::new(&rt)?;
    let mut counts = Counts {
        rows: 0,
        shared: 0,
        endless: 0,
    };
    for file in FILES {
        play_file(&rt, keys, file, &mut counts)?;
    }
    let Counts {
        rows,
        shared,
        endless,
    } = counts;
    print!(rt; "{rows} rows agree, {shared} of them on a mount that threads share, ")?;
    println!(rt; "{endless} of these on one that keeps no history")?;
    for manifest in MANIFESTS {
        play_generated(&rt, keys, manifest)?;
    }
    play_generated_steps(&rt, keys)?;
    play_generated_limits(&rt, keys)
}

// Plays the rows of a file.
fn play_file<R: Files + AllocGlobal + Print + Wait>(
    rt: &R,
    keys: RandomState,
    file: &str,
    counts: &mut Counts,
) -> io::Result<()> {
    let text = fs::read_to_string(rt, file)?;
    let rows = rows_in(rt.alloc(), text.as_str())?;
    for row in rows.as_slice() {
        play_row(rt, keys, row, counts)?;
    }
    Ok(())
}

// Plays a row, tells of it, and counts it if it agrees.
fn play_row<R: AllocGlobal + Print + Wait>(
    rt: &R,
    keys: RandomState,
    row: &Row<'_>,
    counts: &mut Counts,
) -> io::Result<()> {
    let name = row.name;
    let verdict = judged(rt, keys, row)?;
    counts.count(&verdict);
    match verdict {
        Verdict::Differs(found) => println!(rt; "{name}: differs: {found}"),
        _ => println!(rt; "{name}: agrees"),
    }
}
