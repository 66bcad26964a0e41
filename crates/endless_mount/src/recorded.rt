// What stands under the lock: a core, and the length of the history of what was done to it.
ghost use Rattle.std.specs.Prelude.{◌≡◌, ◌≢◌, ◌+◌, ◌<◌, ◌≤◌, ◌^◌, ◌++◌, ◌∷◌, [], length, map, true, IfErr, IfOk, IfSome, IfNone, OnErr, OnOk, None, Some, IsSome, IsTrue, ℕ, ◌↔◌, slice_get, unwrap_or};
ghost use Rattle.std.specs.BTreeMap.{get, btree_map_len};
ghost use Rattle.std.specs.Ordering.{nat_cmp};
ghost use mathlib.Core.List.{IsPrefix};
ghost use Rattle.mount_calls.specs.Keeping.{takes_no_memory};
ghost use Rattle.plain_model.specs.Machine.{instance_of};
ghost use Rattle.overlay_core.specs.Views.{core_clients, core_finished, core_watches, next_client};
ghost use Rattle.overlay_core.specs.LegalHistories.{Legally};
ghost use Rattle.locked_history.specs.Entries.{history_of};
ghost use Rattle.locked_history.specs.declared.entry.Deed.TheVariants.{Called};
ghost use Rattle.ov_base.specs.Calls.{Call};
ghost use Rattle.ov_base.specs.declared.reply.Reply.{Reply};
ghost use Rattle.endless_mount.specs.Numbered.{NumbersIn};

use crate::book::{Book, BookName, Front};
use locked_history::{Deed, Entry, Refused, Session};
use ov_base::{Call, Errno, Reply};
use overlay_core::{Core, Job, Standing, Turn};
use std::collections::BTreeMap;
use std::sync::Wait;
use watch_table::{Callback, Hook, NotAttached, Rule};

/// The most entries of a history to which a call or an attach is added.
pub const ENTRIES_MAX: u64 = 1 << 61;

/// A core, and the length of its history. Its type keeps that the history is a legal one, which
/// begins with what was mounted and ends in a state that agrees with the core, and that numbers are
/// kept for the attached clients alone.
#[derive(Drop)]
pub struct Recorded<N: BookName, F: Callback, R: Rule> {
    pub(crate) core: Core<F, R>,
    // The number of the next entry of each attached client.
    pub(crate) next: BTreeMap<u64, u64>,
    // The number of the next client.
    pub(crate) given: u64,
    pub(crate) book: Book<N>,
    pub(crate) front: Front<N>,
    ghost legal: { ∥ Legally N.opening (history_of front) core ∥₁ },
    ghost due: { ∥ NumbersIn (history_of front) (get nat_cmp next) (core_clients core) ∥₁ },
    ghost given_is: { next_client core ≡ given },
    ghost finished: { core_finished core ≡ length front },
    ghost few: { btree_map_len next ≤ 64 },
    ghost fits: { length front + btree_map_len next ≤ 2 ^ 61 + 64 },
}

/// What a call's last step leaves: the place of its entry, the reply, and the call, which is let go
/// where the lock is free.
pub struct Answered {
    pub place: u64,
    pub reply: Reply,
    pub call: Call,
}

/// What a step leaves that isn't a call's last: the call that goes on, or why it was refused.
pub enum Pending {
    More(Job),
    Refused(Refused),
}

// Makes the history longer by an entry, which the caller's front then has, and gives its place. Only
// who holds the lock calls this, so nobody else adds an entry, and the first try is the last.
fn append<N: BookName, H: Wait>(
    rt: &H,
    book: &Book<N>,
    front: &mut Front<N>,
    seen: &mut Front<N>,
    entry: &Entry,
) -> u64
    requires room { length front.old < 2 ^ 62 }
    ensures entries { front.new ≡ front.old ++ entry.now ∷ [] }
    ensures place { result ≡ length front.old }
    ensures stands { slice_get seen.new result ≡ Some entry.now }
    ensures seen { IsPrefix seen.old seen.new }
{
    let place = front.len();
    let mut longer = front.again();
    if !longer.add(book, entry) {
        for _ in rt.forever() {}
        unreachable!()
    }
    *seen = seen.longer(&longer);
    *front = longer;
    place
}

// Keeps another number for a client.
fn renumber(next: &mut BTreeMap<u64, u64>, client: u64, number: u64)
    requires { IsSome (get nat_cmp next.old client) }
    ensures kept { get nat_cmp next.new client ≡ Some number }
    ensures others { (c : ℕ) → c ≢ client → get nat_cmp next.new c ≡ get nat_cmp next.old c }
    ensures len { btree_map_len next.new ≡ btree_map_len next.old }
{
    *next.get_mut(&client).unwrap() = number;
}

// What the entry of a call has, at this place.
fn answered_by(place: u64, entry: Entry) -> Answered
    requires { (call : Call) × (reply : Reply) × (entry.deed ≡ Called call reply) }
    ensures { (call : Call) (reply : Reply) → entry.deed ≡ Called call reply →
        result ≡ record { place = place; reply = reply; call = call } }
{
    match entry.deed {
        Deed::Called(call, reply) => Answered { place, reply, call },
        _ => unreachable!(),
    }
}

impl<N: BookName, F: Callback, R: Rule> Recorded<N, F, R> {
    ghost use Rattle.locked_history.specs.Claims.{IsAttachOf};
    ghost use Rattle.locked_history.specs.declared.entry.Entry.{Entry};
    ghost use Rattle.locked_history.specs.Steps.{GivesUp, IsDue, IsIdle};
    ghost use Rattle.locked_history.specs.declared.entry.Deed.TheVariants.{Detached};
    ghost use Rattle.endless_mount.specs.Steps.{Guards, HasPlace, IsCause, IsPendingWhere, IsStill};
    ghost use Rattle.endless_mount.specs.Steps.{attach_refusal};
    ghost use Rattle.endless_mount.specs.Views.{Appends, LeavesAlone, core_in, entries_in};

    // Whether the session's number is that of its client's next entry, and that is attached.
    fn is_due(&self, session: Session) -> bool
        ensures { IsTrue result
            ↔ IsDue (entries_in self.now) (core_in self.now) session.client session.number }
    {
        match self.next.get(&session.client) {
            Some(number) => *number == session.number,
            None => false,
        }
    }

    // Whether the session is due, and no call of its client is on its way.
    fn may_leave(&self, session: Session) -> bool
        ensures { IsTrue result
            ↔ (IsDue (entries_in self.now) (core_in self.now) session.client session.number
            × IsIdle (core_in self.now) session.client) }
    {
        self.is_due(session) && self.core.open_jobs(session.client) == 0
    }

    // Says why there can be no call of a session, if there can be none.
    fn judge(&self, session: Session) -> Result<(), Refused>
        ensures due { OnOk result (
            IsDue (entries_in self.now) (core_in self.now) session.client session.number
            × HasPlace (entries_in self.now)) }
        ensures refused { IfErr result (λ why.
            IsCause (entries_in self.now) (core_in self.now) why session.client session.number) }
        ensures memory { IfErr result (λ why. why ≢ Refused.Memory) }
    {
        if !self.is_due(session) {
            return Err(Refused::Session);
        }
        if self.front.len() >= ENTRIES_MAX {
            return Err(Refused::Full);
        }
        Ok(())
    }

    /// Gives up a call that is on its way, with its temp.
    pub fn give_up(&mut self, job: Job)
        ensures stays { LeavesAlone self.old self.new }
        ensures gives_up { GivesUp (core_in self.old) job (core_in self.new) }
    {
        let _ = self.core.drop_job(job);
    }

    /// Makes one step of a session's call. The step that finishes the call makes the history longer
    /// by its entry, which the caller's front then has, and gives its place, the reply and the call.
    /// It is refused where the session isn't due, then where the history is full, then for want of
    /// memory.
    pub fn step<H: Wait>(
        &mut self,
        rt: &H,
        session: Session,
        job: Job,
        seen: &mut Front<N>,
    ) -> Result<Answered, Pending>
        requires client { job.client ≡ session.client }
        requires open { job.standing ≡ Standing.Open }
        ensures due { OnOk result (
            IsDue (entries_in self.old) (core_in self.old) session.client session.number
            × HasPlace (entries_in self.old)) }
        ensures made { IfOk result (λ r. Appends self.old (record {
          client = session.client;
          number = session.number;
          deed = Called job.call r.reply;
        }) r.place self.new) }
        ensures stands { IfOk result (λ r. slice_get seen.new r.place ≡ Some (record {
          client = session.client;
          number = session.number;
          deed = Called job.call r.reply;
        })) }
        ensures call { IfOk result (λ r. r.call ≡ job.call) }
        ensures seen { IsPrefix seen.old seen.new }
        ensures unseen { OnErr result (seen.new ≡ seen.old) }
        ensures number { OnOk result (session.number ≤ 2 ^ 61) }
        ensures stays { OnErr result (LeavesAlone self.old self.new) }
        ensures pending { IfErr result (λ pending. IsStill pending job.client job.call) }
        ensures refused { IfErr result (λ pending.
            IsPendingWhere (entries_in self.old) (core_in self.old) pending
            session.client session.number) }
        ensures memory { IfErr result (λ pending. takes_no_memory job.call ≡ true →
            pending ≢ Pending.Refused Refused.Memory) }
        ensures guarded { Guards (core_in self.old) job (core_in self.new) result }
    {
        if let Err(why) = self.judge(session) {
            self.give_up(job);
            return Err(Pending::Refused(why));
        }
        let mut job = job;
        match self.core.advance(&mut job) {
            Turn::More => Err(Pending::More(job)),
            Turn::NoMemory => {
                let _ = job.into_call();
                Err(Pending::Refused(Refused::Memory))
            }
            Turn::Done(reply) => {
                let entry = Entry {
                    client: session.client,
                    number: session.number,
                    deed: Deed::Called(job.into_call(), reply),
                };
                renumber(&mut self.next, session.client, session.number + 1);
                let place = append(rt, &self.book, &mut self.front, seen, &entry);
                Ok(answered_by(place, entry))
            }
        }
    }

    // Why no client with so many hooks can be attached.
    fn attach_fault(&self, hooks: usize) -> Option<Errno>
        ensures { result ≡ attach_refusal (entries_in self.now) (core_in self.now) hooks }
    {
        if let Some(errno) = self.core.client_refusal(hooks) {
            return Some(errno);
        }
        if self.front.len() >= ENTRIES_MAX {
            return Some(Errno::ENOSPC);
        }
        None
    }

    /// Attaches a client with its hooks, of which these are the tags. Over 16 hooks are EINVAL, where
    /// 64 are attached it is ENFILE, where the history is full ENOSPC, and where memory runs out
    /// ENOMEM. The hooks are handed back then.
    pub fn attach<H: Wait>(
        &mut self,
        rt: &H,
        hooks: Vec<Hook<F, R>>,
        tags: Option<Vec<u32>>,
    ) -> Result<(Session, u64, Front<N>), NotAttached<F, R>>
        requires tags { IfSome tags (λ tags. tags.items ≡ map (λ h. h.tag) hooks.items) }
        ensures admitted { OnOk result (
            attach_refusal (entries_in self.old) (core_in self.old) (length hooks.items) ≡ None) }
        ensures made { IfOk result (λ r. (e : Entry) × Appends self.old e r.1 self.new
            × IsAttachOf e r.0.client (map (λ h. h.tag) hooks.items)
            × (slice_get r.2 r.1 ≡ Some e)) }
        ensures session { IfOk result (λ r.
            r.0 ≡ record { client = next_client (core_in self.old); number = 2 }) }
        ensures stays { OnErr result (LeavesAlone self.old self.new) }
        ensures refusal { IfErr result (λ fault. fault.errno ≡ unwrap_or
            (attach_refusal (entries_in self.old) (core_in self.old) (length hooks.items))
            Errno.ENOMEM) }
        ensures back { IfErr result (λ fault. fault.hooks ≡ hooks) }
    {
        if let Some(errno) = self.attach_fault(hooks.len()) {
            return Err(NotAttached { errno, hooks });
        }
        let Some(tags) = tags else {
            return Err(NotAttached {
                errno: Errno::ENOMEM,
                hooks,
            });
        };
        let client = self.given;
        let Ok(_) = self.next.insert(client, 2) else {
            return Err(NotAttached {
                errno: Errno::ENOMEM,
                hooks,
            });
        };
        if let Err(fault) = self.core.attach(hooks) {
            let _ = self.next.remove(&client);
            return Err(fault);
        }
        self.given = client + 1;
        let entry = Entry {
            client,
            number: 1,
            deed: Deed::Attached(tags),
        };
        let mut seen = self.front.again();
        let place = append(rt, &self.book, &mut self.front, &mut seen, &entry);
        Ok((Session { client, number: 2 }, place, seen))
    }

    /// Detaches a session's client, whose hooks are handed back. It is refused exactly where the
    /// session isn't due or a call of the client is on its way.
    pub fn detach<H: Wait>(
        &mut self,
        rt: &H,
        session: Session,
        seen: &mut Front<N>,
    ) -> Result<(Vec<Hook<F, R>>, u64), Refused>
        ensures due { OnOk result (
            IsDue (entries_in self.old) (core_in self.old) session.client session.number
            × IsIdle (core_in self.old) session.client) }
        ensures made { IfOk result (λ r. Appends self.old
            (record { client = session.client; number = session.number; deed = Detached })
            r.1 self.new) }
        ensures stands { IfOk result (λ r. slice_get seen.new r.1 ≡ Some
            (record { client = session.client; number = session.number; deed = Detached })) }
        ensures seen { IsPrefix seen.old seen.new }
        ensures unseen { OnErr result (seen.new ≡ seen.old) }
        ensures stays { OnErr result (self.new ≡ self.old) }
        ensures refused { IfErr result (λ why. (why ≡ Refused.Session)
            × (IsDue (entries_in self.old) (core_in self.old) session.client session.number
            → IsIdle (core_in self.old) session.client → ⊥)) }
        ensures hooks { IfOk result (λ r.
            IfSome (instance_of (core_watches (core_in self.old)).instances session.client)
            (λ e. map (λ h. h.tag) r.0.items ≡ e.tags)) }
    {
        if !self.may_leave(session) {
            return Err(Refused::Session);
        }
        let hooks = self.core.detach(session.client);
        let _ = self.next.remove(&session.client);
        let entry = Entry {
            client: session.client,
            number: session.number,
            deed: Deed::Detached,
        };
        let place = append(rt, &self.book, &mut self.front, seen, &entry);
        Ok((hooks, place))
    }
}
