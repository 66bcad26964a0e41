// The law of whole runs at the hooks of the program, applied to such a run.
ghost use Rattle.std.specs.Prelude.{◌≡◌, ◌∷◌, [], ℕ, map};
ghost use Rattle.plain_model.specs.Runs.{Attached, Called, Detached};
ghost use Rattle.overlay_core.specs.LegalHistories.{Legally, opening_of};
ghost use Rattle.overlay_core.specs.Views.{core_finished};
ghost use Rattle.overlay_core.specs.WholeRuns.{Goes, entries_of};

use crate::checks::{holds, keys_of};
use crate::cores::{mounted, unmount};
use crate::fixtures::{EMPTY, path};
use ov_base::{Call, Reply};
use overlay_core::{Core, Job, Turn, law_of_links, law_of_whole_runs};
use program_hooks::hooks_by_slot;
use std::alloc::Global;
use std::hash::RandomState;
use std::process::Abort;
use watch_table::{Callback, Hook, Rule};

// A client comes, makes a call and goes. What was done is one legal history of the plain machine.
fn visit<F: Callback + Copy, H: Rule>(
    rt: &impl Abort,
    core: &mut Core<F, H>,
    hooks: Vec<Hook<F, H>>,
    call: Call,
) -> Reply
    requires { core_finished core.old ≡ 0 }
    ensures { (c : ℕ) × ∥ Legally (opening_of core.old) (entries_of (
        Goes c (Attached (map (λ h. h.tag) hooks.items))
        ∷ Goes c (Called call result) ∷ Goes c Detached ∷ [])) core.new ∥₁ }
{
    let Ok(client) = core.attach(hooks) else {
        panic!(rt; "no client");
    };
    assert!(rt; core.is_attached(client));
    let mut job = Job::new(client, call);
    let turn = core.complete(&mut job);
    drop(job.into_call());
    let Turn::Done(reply) = turn else {
        panic!(rt; "no reply");
    };
    drop(core.detach(client));
    law_of_links::<F, H>();
    law_of_whole_runs::<F, H>();
    reply
}

fn visits<F: Callback + Copy, H: Rule>(
    rt: &impl Abort,
    alloc: Global,
    keys: RandomState,
    hooks: Vec<Hook<F, H>>,
) {
    let mut core: Core<F, H> = mounted(rt, alloc, keys, EMPTY);
    visits_on(rt, alloc, &mut core, hooks);
    unmount(core);
}

fn visits_on<F: Callback + Copy, H: Rule>(
    rt: &impl Abort,
    alloc: Global,
    core: &mut Core<F, H>,
    hooks: Vec<Hook<F, H>>,
) {
    assert!(rt; core.finished() == 0);
    let call = Call::Mkdir {
        path: path(rt, alloc, "/d"),
        mode: 0o755,
    };
    let made = visit(rt, core, hooks, call);
    let is_done = matches!(&made, Reply::Done);
    drop(made);
    holds(rt, is_done, "the directory is made");
    holds(rt, core.finished() == 3, "an attach, a call and a detach");
}

#[test]
fn a_visit_is_one_history(rt: HostRuntime) {
    let hooks = hooks_by_slot(rt.alloc()).expect(&rt, "memory");
    visits(&rt, rt.alloc(), keys_of(&rt), hooks);
}
