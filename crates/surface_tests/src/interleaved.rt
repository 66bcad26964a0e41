// Jobs of many clients whose steps come between one another's, and jobs that are begun and dropped.
use crate::checks::{add_text, counts, holds, keys_of};
use crate::cores::{Answer, DEEDS_MAX, answer_of, answer_to, attached, mounted, unmount};
use crate::fixtures::{flags, path};
use crate::schedules::drop_all;
use ov_base::{Call, Path, Reply};
use overlay_core::{Core, Job, Turn, drive};
use program_hooks::{ByTag, ProgramRule};
use std::alloc::{AllocError, Global};
use std::hash::RandomState;
use std::process::Abort;
use watch_table::{Callback, Rule};

const CLIENTS: usize = 8;

const JOBS: usize = 200;

/// Files of the lower layer, in a directory that the upper lacks, and names that jobs speak of.
const FILES: usize = 24;

const NAMES: usize = 32;

/// Steps in no order, and then as many in turn, which end each job.
const MIXED: usize = 2_000;

const STEPS: usize = 4_000;

// A manifest with files of up to 16,101 bytes, which are one to four chunks.
fn files(rt: &impl Abort, alloc: Global) -> String {
    let mut manifest = String::new(alloc);
    let front = "[[layer]]\n[[layer]]\n[[layer.entry]]\npath = '/d'\nkind = 'dir'\n";
    add_text(rt, &mut manifest, front);
    for number in 0..FILES {
        let size = number * 700 + 1;
        let entry = format!(in alloc;
            "[[layer.entry]]\npath = '/d/{number}'\nkind = 'file'\nzeros = {size}\n"
        );
        add_text(rt, &mut manifest, entry.expect(rt, "memory").as_str());
    }
    manifest
}

// Opens for writing.
fn opening(path: Path) -> Call {
    Call::Open {
        path,
        flags: flags(true),
        mode: 0,
    }
}

// The path of one of the names.
fn named(rt: &impl Abort, alloc: Global, number: usize) -> Path {
    let name = number % NAMES;
    let text = format!(in alloc; "/d/{name}").expect(rt, "memory");
    path(rt, alloc, text.as_str())
}

// The path that the job of this number speaks of.
fn path_of(rt: &impl Abort, alloc: Global, number: usize) -> Path {
    named(rt, alloc, number.wrapping_mul(5))
}

// The path that it makes, where it makes one.
fn new_path_of(rt: &impl Abort, alloc: Global, number: usize) -> Path {
    named(rt, alloc, number.wrapping_mul(11))
}

// The call of the job of this number.
fn call_of(rt: &impl Abort, alloc: Global, number: usize) -> Call {
    let path = path_of(rt, alloc, number);
    match number % 5 {
        0 | 1 => opening(path),
        2 => Call::Hardlink {
            old: path,
            new: new_path_of(rt, alloc, number),
        },
        3 => Call::Rename {
            old: path,
            new: new_path_of(rt, alloc, number),
        },
        _ => Call::Stat { path },
    }
}

// The client of the job of this number.
fn client_of(number: usize) -> u64 {
    (number % CLIENTS) as u64
}

// A job for each number.
fn jobs_of(rt: &impl Abort, alloc: Global) -> Result<Vec<Job>, AllocError> {
    let mut jobs = Vec::with_capacity(alloc, JOBS)?;
    for number in 0..JOBS {
        jobs.push_reserved(Job::new(client_of(number), call_of(rt, alloc, number)));
    }
    Ok(jobs)
}

// Indexes of jobs: first by the upper half of a linear congruence, then in turn.
fn schedule_of(alloc: Global) -> Result<Vec<usize>, AllocError> {
    let mut schedule = Vec::with_capacity(alloc, STEPS)?;
    let mut state = 1u32;
    for turn in 0..STEPS {
        state = state.wrapping_mul(1_664_525).wrapping_add(1_013_904_223);
        let number = if turn < MIXED {
            (state >> 16) as usize
        } else {
            turn
        };
        schedule.push(number % JOBS)?;
    }
    Ok(schedule)
}

// Attaches the clients, whose numbers are 0 and up.
fn attach_all<F: Callback + Copy, H: Rule>(rt: &impl Abort, alloc: Global, core: &mut Core<F, H>) {
    for _client in 0..CLIENTS {
        let _ = attached(rt, core, Vec::new(alloc));
    }
}

// Gives jobs their steps: the replies, each with its job's number, in the order of finishing.
fn stepped<F: Callback + Copy, H: Rule>(
    rt: &impl Abort,
    alloc: Global,
    core: &mut Core<F, H>,
    jobs: &mut [Job],
    schedule: &[usize],
) -> Vec<(usize, Reply)> {
    assert!(rt; core.finished() < DEEDS_MAX);
    assert!(rt; schedule.len() <= STEPS);
    drive(alloc, core, jobs, schedule).expect(rt, "memory")
}

// The replies to all jobs, none of which leaves a temp.
fn driven<F: Callback + Copy, H: Rule>(
    rt: &impl Abort,
    alloc: Global,
    core: &mut Core<F, H>,
) -> Vec<(usize, Reply)> {
    attach_all(rt, alloc, core);
    let schedule = schedule_of(alloc).expect(rt, "memory");
    let mut jobs = jobs_of(rt, alloc).expect(rt, "memory");
    let replies = stepped(rt, alloc, core, jobs.as_mut_slice(), schedule.as_slice());
    drop_all(core, jobs);
    counts(rt, core.temps(), 0, "temps");
    replies
}

// Makes the jobs one after the other, in this order, and tells how many have the same reply.
fn repeated<F: Callback + Copy, H: Rule>(
    rt: &impl Abort,
    alloc: Global,
    core: &mut Core<F, H>,
    replies: &[(usize, Reply)],
) -> usize {
    attach_all(rt, alloc, core);
    let mut same = 0usize;
    for (number, wanted) in replies {
        let wanted = answer_of(wanted);
        let call = call_of(rt, alloc, *number);
        let made = answer_to(rt, core, client_of(*number), call);
        if made == wanted && made != Answer::Other {
            same = same.saturating_add(1);
        }
    }
    same
}

// The replies to all jobs on a mount of its own.
fn driven_apart<F: Callback + Copy, H: Rule>(
    rt: &impl Abort,
    alloc: Global,
    keys: RandomState,
    manifest: &str,
) -> Vec<(usize, Reply)> {
    let mut core: Core<F, H> = mounted(rt, alloc, keys, manifest);
    let replies = driven(rt, alloc, &mut core);
    unmount(core);
    replies
}

// How many replies are the same on a mount of its own, where the jobs come one after the other.
fn repeated_apart<F: Callback + Copy, H: Rule>(
    rt: &impl Abort,
    alloc: Global,
    keys: RandomState,
    manifest: &str,
    replies: &[(usize, Reply)],
) -> usize {
    let mut core: Core<F, H> = mounted(rt, alloc, keys, manifest);
    let same = repeated(rt, alloc, &mut core, replies);
    unmount(core);
    same
}

// What a schedule answers is what the same jobs are answered one after the other.
fn interleaves<F: Callback + Copy, H: Rule>(rt: &impl Abort, alloc: Global, keys: RandomState) {
    let manifest = files(rt, alloc);
    let replies = driven_apart::<F, H>(rt, alloc, keys, manifest.as_str());
    counts(rt, replies.len(), JOBS, "replies");
    let same = repeated_apart::<F, H>(rt, alloc, keys, manifest.as_str(), replies.as_slice());
    counts(rt, same, JOBS, "replies that are the same");
}

#[test]
fn interleaved_jobs_are_calls_one_by_one(rt: HostRuntime) {
    interleaves::<ByTag, ProgramRule>(&rt, rt.alloc(), keys_of(&rt));
}

const FILE: &str = "layer = [{}, {entry = [{path = '/f', kind = 'file', zeros = 8193}]}]";

const TIMES: usize = 100_000;

// Begins a job and drops it: after its first step it is open with a temp.
fn begins<F: Callback + Copy, H: Rule>(core: &mut Core<F, H>, client: u64, call: Call) -> bool {
    if core.finished() >= DEEDS_MAX || !core.is_attached(client) {
        drop(call);
        return false;
    }
    let mut job = Job::new(client, call);
    let turn = core.advance(&mut job);
    let kept = core.open_jobs(client) == 1 && core.temps() == 1;
    drop(core.drop_job(job));
    let has_more = matches!(&turn, Turn::More);
    drop(turn);
    kept && has_more
}

// How many of so many jobs were begun and dropped.
fn begun<F: Callback + Copy, H: Rule>(
    rt: &impl Abort,
    alloc: Global,
    core: &mut Core<F, H>,
    client: u64,
) -> usize {
    let mut count = 0usize;
    for _time in 0..TIMES {
        if begins(core, client, opening(path(rt, alloc, "/f"))) {
            count = count.saturating_add(1);
        }
    }
    count
}

fn keeps_nothing<F: Callback + Copy, H: Rule>(
    rt: &impl Abort,
    alloc: Global,
    core: &mut Core<F, H>,
) {
    let client = attached(rt, core, Vec::new(alloc));
    counts(
        rt,
        begun(rt, alloc, core, client),
        TIMES,
        "begun and dropped",
    );
    counts(rt, core.open_jobs(client), 0, "open jobs");
    counts(rt, core.temps(), 0, "temps");
    holds(rt, core.finished() == 1, "only the attach was done");
}

fn keeps_nothing_of_drops<F: Callback + Copy, H: Rule>(
    rt: &impl Abort,
    alloc: Global,
    keys: RandomState,
) {
    let mut core: Core<F, H> = mounted(rt, alloc, keys, FILE);
    keeps_nothing(rt, alloc, &mut core);
    unmount(core);
}

#[test]
fn dropped_jobs_leave_nothing(rt: HostRuntime) {
    keeps_nothing_of_drops::<ByTag, ProgramRule>(&rt, rt.alloc(), keys_of(&rt));
}
