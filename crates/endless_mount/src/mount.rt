// A mount that threads share, whose history is kept nowhere.
ghost use Rattle.std.specs.Prelude.{◌≡◌, ◌≢◌, ◌+◌, ◌<◌, ◌≤◌, ◌↔◌, [], IfErr, IfOk, IfSome, IsSomeAnd, MatchResult, OnErr, OnOk, Some, length, map, slice_get, true, ℕ};
ghost use mathlib.Core.List.{IsPrefix};
ghost use Rattle.mount_calls.specs.Keeping.{takes_no_memory};
ghost use Rattle.overlay_core.specs.LegalHistories.{Legally};
ghost use Rattle.locked_history.specs.Entries.{history_of};
ghost use Rattle.work_dir.specs.declared.limits.TheConstants.{STEPS_MAX};

use crate::blank::Blank;
use crate::book::{BookName, Front};
use crate::recorded::{Answered, Pending, Recorded};
use locked_history::{Gate, Pass, Refused, Session, lock_soon, tags_of};
use ov_base::{Call, Errno, Reply};
use overlay_core::{Core, Job};
use std::alloc::Global;
use std::collections::BTreeMap;
use std::sync::{Mutex, Wait};
use watch_table::{Callback, Hook, NotAttached, Rule};
use work_dir::STEPS_MAX;

/// A mount that many threads share: the lock round its core. The calls of all threads are those of
/// one history, of which nothing is kept: who was answered has a front of it.
#[derive(Drop)]
pub struct EndlessMount<N: BookName, F: Callback, R: Rule> {
    alloc: Global,
    shared: Mutex<Recorded<N, F, R>>,
}

impl<N: BookName, F: Callback, R: Rule> EndlessMount<N, F, R> {
    ghost use Rattle.locked_history.specs.Claims.{IsAttachOf, IsDetachOf};
    ghost use Rattle.locked_history.specs.declared.entry.Deed.TheVariants.{Called};
    ghost use Rattle.endless_mount.specs.Names.{IsNamed};

    /// Opens a blank under its name, and gives the front that has seen nothing. It is called in a
    /// function that is generic in the name, which a program or a test calls with
    /// `std::marker::Brand`.
    pub fn open(blank: Blank<F, R>) -> (EndlessMount<N, F, R>, Front<N>)
        requires { IsNamed N.book N.opening blank }
        ensures { result.1 ≡ [] }
    {
        let Blank {
            alloc,
            core,
            opened,
        } = blank;
        let (book, front) = opened.named::<N>();
        let seen = front.again();
        let recorded = Recorded {
            core,
            next: BTreeMap::new(alloc),
            given: 0,
            book,
            front,
        };
        let mount = EndlessMount {
            alloc,
            shared: Mutex::new(recorded),
        };
        (mount, seen)
    }

    /// Attaches a client with its hooks, and gives the place of its entry and a front that has it.
    /// Where it is refused the hooks are handed back: EINVAL exactly for over 16 hooks, then ENFILE,
    /// ENOSPC and ENOMEM.
    pub fn attach<H: Wait>(
        &self,
        rt: &H,
        hooks: Vec<Hook<F, R>>,
    ) -> Result<(Session, u64, Front<N>), NotAttached<F, R>>
        ensures attach { IfOk result (λ r. IsSomeAnd (slice_get r.2 r.1) (λ e.
            IsAttachOf e r.0.client (map (λ h. h.tag) hooks.items))) }
        ensures number { IfOk result (λ r. r.0.number ≡ 2) }
        ensures few { OnOk result (length hooks.items ≤ 16) }
        ensures many { IfErr result (λ fault.
            (fault.errno ≡ Errno.EINVAL) ↔ (16 < length hooks.items)) }
        ensures back { IfErr result (λ fault. fault.hooks ≡ hooks) }
    {
        let tags = tags_of(self.alloc, hooks.as_slice()).ok();
        lock_soon(rt, &self.shared).attach(rt, hooks, tags)
    }

    /// Detaches a session's client, hands its hooks back, and gives the place of its entry, which the
    /// caller's front then has. It is refused for its session alone.
    pub fn detach<H: Wait>(
        &self,
        rt: &H,
        session: Session,
        seen: &mut Front<N>,
    ) -> Result<(Vec<Hook<F, R>>, u64), Refused>
        ensures detach { IfOk result (λ r. IsSomeAnd (slice_get seen.new r.1) (λ e.
            IsDetachOf e session.client session.number)) }
        ensures seen { IsPrefix seen.old seen.new }
        ensures unseen { OnErr result (seen.new ≡ seen.old) }
        ensures refused { IfErr result (λ why. why ≡ Refused.Session) }
    {
        lock_soon(rt, &self.shared).detach(rt, session, seen)
    }

    /// Makes a session's call, with the lock taken once for each of its steps, at most 66,049. Before
    /// each step the lock is free, and the gate is asked, which alone can stop it. It gives the reply
    /// with the place of the call's entry, which the caller's front then has. What is refused is no
    /// entry, and leaves the session's number and the front.
    pub fn call<H: Wait, G: Gate>(
        &self,
        rt: &H,
        session: &mut Session,
        seen: &mut Front<N>,
        call: Call,
        gate: &G,
    ) -> Result<(u64, Reply), Refused>
        ensures stands { IfOk result (λ r. slice_get seen.new r.0 ≡ Some (record {
          client = session.old.client;
          number = session.old.number;
          deed = Called call r.1;
        })) }
        ensures seen { IsPrefix seen.old seen.new }
        ensures unseen { OnErr result (seen.new ≡ seen.old) }
        ensures memory { IfErr result (λ why. takes_no_memory call ≡ true → why ≢ Refused.Memory) }
        ensures session { MatchResult result
            (λ _. (session.new.client ≡ session.old.client)
            × (session.new.number ≡ session.old.number + 1))
            (λ _. session.new ≡ session.old) }
        ensures stopped { IfErr result (λ why. why ≡ Refused.Stopped →
            (step : ℕ) × (step ≤ STEPS_MAX)
            × G.may_stop gate.now session.old.client step) }
    {
        let client = session.client;
        let mut job = Job::new(client, call);
        for step in 1..=STEPS_MAX as u64 {
            if gate.pass(client, step) == Pass::Stop {
                lock_soon(rt, &self.shared).give_up(job);
                return Err(Refused::Stopped);
            }
            let made = lock_soon(rt, &self.shared).step(rt, *session, job, seen);
            match made {
                Ok(Answered { place, reply, call }) => {
                    drop(call);
                    session.number += 1;
                    return Ok((place, reply));
                }
                Err(Pending::Refused(why)) => return Err(why),
                Err(Pending::More(same)) => job = same,
            }
        }
        unreachable!()
    }

    /// The core, once the threads have ended, and a front that has the whole history, which ends in
    /// it. What is handed in, a front that a thread has, is a beginning of that.
    pub fn finish<H: Wait>(self, rt: &H, seen: Front<N>) -> (Core<F, R>, Front<N>)
        ensures legal { ∥ Legally N.opening (history_of result.1) result.0 ∥₁ }
        ensures seen { IsPrefix seen result.1 }
    {
        let EndlessMount { alloc: _, shared } = self;
        let Recorded { core, front, .. } = shared.into_inner();
        if !seen.begins(&front) {
            for _ in rt.forever() {}
            unreachable!()
        }
        (core, front)
    }
}
