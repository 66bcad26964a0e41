// Jobs that are stepped by a schedule.
use crate::checks::{counts, keys_of};
use crate::cores::{Answer, DEEDS_MAX, answer_of, attached, mounted, unmount};
use crate::fixtures::path;
use ov_base::{Call, Errno};
use overlay_core::{Core, Job, drive};
use program_hooks::hooks_by_slot;
use std::alloc::Global;
use std::hash::RandomState;
use std::process::Abort;
use watch_table::{Callback, Hook, Rule};

const DIRECTORY: &str = "layer = [{}, {entry = [{path = '/d', kind = 'dir'}]}]";

// Gives up what is left of jobs, the last one first.
pub fn drop_all<F: Callback + Copy, H: Rule>(core: &mut Core<F, H>, jobs: Vec<Job>) {
    let mut jobs = jobs;
    'jobs: while let Some(job) = jobs.pop() {
        drop(core.drop_job(job));
    }
    jobs.destroy_empty();
}

#[test]
fn answers_jobs_in_the_order_of_finishing(rt: HostRuntime) {
    let hooks = hooks_by_slot(rt.alloc()).expect(&rt, "memory");
    answers_in_order(&rt, rt.alloc(), keys_of(&rt), hooks);
}

fn answers_in_order<F: Callback + Copy, H: Rule>(
    rt: &impl Abort,
    alloc: Global,
    keys: RandomState,
    hooks: Vec<Hook<F, H>>,
) {
    let mut core: Core<F, H> = mounted(rt, alloc, keys, DIRECTORY);
    answers_on(rt, alloc, &mut core, hooks);
    unmount(core);
}

fn answers_on<F: Callback + Copy, H: Rule>(
    rt: &impl Abort,
    alloc: Global,
    core: &mut Core<F, H>,
    hooks: Vec<Hook<F, H>>,
) {
    let client = attached(rt, core, hooks);
    assert!(rt; core.finished() < DEEDS_MAX);
    let made = path(rt, alloc, "/d/x");
    let looked_up = path(rt, alloc, "/d/x");
    let mode = 0o700;
    let mut jobs = Vec::with_capacity(alloc, 2).expect(rt, "memory");
    jobs.push_reserved(Job::new(client, Call::Mkdir { path: made, mode }));
    jobs.push_reserved(Job::new(client, Call::Stat { path: looked_up }));
    let outcome = drive(alloc, core, jobs.as_mut_slice(), &[1, 7, 0, 1, 0]);
    drop_all(core, jobs);
    let replies = outcome.expect(rt, "memory");
    let mut indexes = [9, 9];
    for (place, (index, reply)) in replies.as_slice().iter().enumerate() {
        let is_wanted = match answer_of(reply) {
            Answer::Done | Answer::Refused(Errno::ENOENT) => true,
            _ => false,
        };
        if place < 2 && is_wanted {
            indexes[place] = *index;
        }
    }
    counts(rt, replies.len(), 2, "replies");
    counts(rt, indexes[0], 1, "the job that finishes first");
    counts(rt, indexes[1], 0, "the job that finishes second");
}
