// What stands under the lock: a core, and the history of what was done to it.
ghost use Rattle.std.specs.Prelude.{◌≡◌, ◌+◌, ◌<◌, ◌≤◌, ◌++◌, ◌∷◌, [], length, map, take, true, IfErr, IfOk, IfSome, IsTrue, None, OnErr, OnOk, Some, ◌↔◌, is_some, slice_index, unwrap_or, vec_capacity, vec_len};
ghost use Rattle.once_cell.specs.Once.{cell_name};
ghost use Rattle.mount_calls.specs.Keeping.{takes_no_memory};
ghost use Rattle.overlay_core.specs.Histories.{HasPlaces};
ghost use Rattle.plain_model.specs.Machine.{instance_of};
ghost use Rattle.overlay_core.specs.Views.{core_clients, core_finished, core_options, core_watches, next_client};
ghost use Rattle.locked_history.specs.Entries.{entry_in, history_of};
ghost use Rattle.overlay_core.specs.LegalHistories.{Legally, Numbers};
ghost use Rattle.locked_history.specs.Holding.{HasBoxes};

use crate::entry::{Deed, Entry};
use crate::mount_name::MountName;
use crate::receipt::Receipt;
use crate::row::set_cell;
use crate::session::{Refused, Session};
use once_cell::race::{Note, OnceBox};
use ov_base::Errno;
use overlay_core::{Core, Job, Standing, Turn};
use std::sync::Wait;
use std::sync::ledger::{Book, Share};
use watch_table::{Callback, Hook, NotAttached, Rule};

/// A core and its history. Its type keeps that the history is a legal one, which begins with what
/// was mounted and ends in a state that agrees with the core; that it is as long as the ledger's
/// total; and that each attached client has a place and a box left for its detach.
#[derive(Drop)]
pub struct Locked<N: MountName, F: Callback, R: Rule> {
    pub(crate) core: Core<F, R>,
    pub(crate) notes: Vec<Note<Entry>>,
    pub(crate) numbers: Vec<u64>,
    pub(crate) boxes: Vec<Option<Box<Entry>>>,
    pub(crate) book: Book<N>,
    pub(crate) rest: Share<N>,
    ghost legal: { ∥ Legally N.opening (history_of (map (λ n. entry_in n.known) notes.items))
        core ∥₁ },
    ghost due: { ∥ Numbers (history_of (map (λ n. entry_in n.known) notes.items)) numbers.items
        (core_clients core) ∥₁ },
    ghost names: { map (λ n. n.cell) notes.items ≡ take (vec_len notes) N.cells },
    ghost known: { map (λ n. is_some n.known) notes.items ≡ map (λ n. true) notes.items },
    ghost numbers_long: { vec_len numbers ≡ next_client core },
    ghost numbers_room: { length N.cells ≤ vec_capacity numbers },
    ghost spare: { HasBoxes boxes.items (core_clients core) },
    ghost boxes_long: { vec_len boxes ≡ next_client core },
    ghost boxes_room: { length N.cells ≤ vec_capacity boxes },
    ghost finished: { core_finished core ≡ vec_len notes },
    ghost history: { (core_options core).history ≡ length N.cells },
    ghost places: { HasPlaces core },
    ghost notes_room: { length N.cells ≤ vec_capacity notes },
    ghost total: { book.total ≡ vec_len notes },
    ghost parts: { rest.parts + vec_len notes ≡ length N.cells },
    ghost amount: { rest.amount ≡ 0 },
}

/// What a step leaves that isn't a call's last: the call that goes on and the box for its entry, or
/// why it was refused.
pub enum Pending {
    More(Job, Box<Entry>),
    Refused(Refused),
}

/// What an attach needs, made before the lock is taken: the tags of its hooks, a box for its entry,
/// and one for the entry of the detach.
#[derive(Drop)]
pub struct Arrival {
    pub tags: Vec<u32>,
    pub entry: Box<Entry>,
    pub detach: Box<Entry>,
}

// The box, with this entry in it.
fn filled(room: Box<Entry>, session: Session, deed: Deed) -> Box<Entry>
    ensures { result.value
        ≡ record { client = session.client; number = session.number; deed = deed } }
{
    let mut room = room;
    *room = Entry {
        client: session.client,
        number: session.number,
        deed,
    };
    room
}

// Sets the cell of the next place to this entry, makes the history longer by what is known of it,
// and counts the receipt.
fn append<N: MountName, H: Wait>(
    rt: &H,
    row: &[OnceBox<Entry>],
    notes: &mut Vec<Note<Entry>>,
    book: &mut Book<N>,
    rest: &mut Share<N>,
    entry: Box<Entry>,
) -> Receipt<N>
    requires row { map cell_name row.now ≡ N.cells }
    requires room { (vec_len notes.old < length N.cells)
        × (vec_len notes.old < vec_capacity notes.old) }
    requires parts { (0 < rest.old.parts) × (rest.old.amount ≡ 0) }
    ensures names { map (λ n. n.cell) notes.new.items
        ≡ map (λ n. n.cell) notes.old.items ++ slice_index N.cells (vec_len notes.old) ∷ [] }
    ensures entries { map (λ n. entry_in n.known) notes.new.items
        ≡ map (λ n. entry_in n.known) notes.old.items ++ entry.value ∷ [] }
    ensures known { map (λ n. is_some n.known) notes.new.items
        ≡ map (λ n. is_some n.known) notes.old.items ++ true ∷ [] }
    ensures long { (vec_len notes.new ≡ vec_len notes.old + 1)
        × (vec_capacity notes.new ≡ vec_capacity notes.old) }
    ensures counts { (book.new.total ≡ book.old.total + 1)
        × (rest.new.parts + 1 ≡ rest.old.parts) × (rest.new.amount ≡ 0) }
    ensures receipt { result
        ≡ record { place = vec_len notes.old; entry = entry.value; counted = true } }
{
    let place = notes.len();
    let mut note = set_cell(rt, &row[place], entry);
    let mut share = rest.split_off(1, 0);
    book.add(&mut share, 1);
    notes.push_reserved(note.again());
    Receipt {
        place,
        note,
        share: Some(share),
    }
}

impl<N: MountName, F: Callback, R: Rule> Locked<N, F, R> {
    ghost use Rattle.overlay_core.specs.Histories.{attach_refusal};
    ghost use Rattle.locked_history.specs.Claims.{IsAttachOf, IsCallOf, IsDetachOf};
    ghost use Rattle.locked_history.specs.Steps.{HasPlace, IsCause, IsDue, IsIdle};
    ghost use Rattle.locked_history.specs.Steps.{GivesUp, Guards, IsPendingWhere, IsStill};
    ghost use Rattle.locked_history.specs.Views.{Appends, LeavesAlone, core_in, entries_in};

    // Whether the session's number is that of its client's next entry.
    fn is_due(&self, session: Session) -> bool
        ensures { IsTrue result
            ↔ IsDue (entries_in self.now) (core_in self.now) session.client session.number }
    {
        self.core.is_attached(session.client)
            && self.numbers[session.client as usize] == session.number
    }

    // Whether the session is due, and no call of its client is on its way.
    fn may_leave(&self, session: Session) -> bool
        ensures { IsTrue result
            ↔ (IsDue (entries_in self.now) (core_in self.now) session.client session.number
            × IsIdle (core_in self.now) session.client) }
    {
        self.is_due(session) && self.core.open_jobs(session.client) == 0
    }

    // Gives the box for the entry of a session's call back, or says why there can be no call.
    fn judge(&self, session: Session, room: Option<Box<Entry>>) -> Result<Box<Entry>, Refused>
        ensures due { OnOk result (
            IsDue (entries_in self.now) (core_in self.now) session.client session.number
            × HasPlace (entries_in self.now) (core_in self.now)) }
        ensures refused { IfErr result (λ why.
            IsCause (entries_in self.now) (core_in self.now) why session.client session.number) }
        ensures memory { IfErr result (λ why. why ≡ Refused.Memory → room ≡ None) }
    {
        if !self.is_due(session) {
            return Err(Refused::Session);
        }
        match self.core.call_refusal() {
            Some(_) => Err(Refused::Full),
            None => room.ok_or(Refused::Memory),
        }
    }

    /// Gives up a call that is on its way, with its temp.
    pub fn give_up(&mut self, job: Job)
        ensures stays { LeavesAlone self.old self.new }
        ensures gives_up { GivesUp (core_in self.old) job (core_in self.new) }
    {
        let _ = self.core.drop_job(job);
    }

    /// Makes one step of a session's call, with a box for its entry, or none where memory ran out.
    /// The step that finishes the call makes the history longer by its entry. It is refused where
    /// the session isn't due, then where the history is full, then for want of memory.
    pub fn step<H: Wait>(
        &mut self,
        rt: &H,
        row: &[OnceBox<Entry>],
        session: Session,
        job: Job,
        room: Option<Box<Entry>>,
    ) -> Result<Receipt<N>, Pending>
        requires row { map cell_name row.now ≡ N.cells }
        requires client { job.client ≡ session.client }
        requires open { job.standing ≡ Standing.Open }
        ensures due { OnOk result (
            IsDue (entries_in self.old) (core_in self.old) session.client session.number
            × HasPlace (entries_in self.old) (core_in self.old)) }
        ensures made { IfOk result (λ receipt. Appends self.old receipt self.new) }
        ensures call { IfOk result (λ receipt.
            IsCallOf receipt.entry session.client session.number job.call) }
        ensures number { OnOk result (session.number ≤ 1000000) }
        ensures stays { OnErr result (LeavesAlone self.old self.new) }
        ensures pending { IfErr result (λ pending. IsStill pending job.client job.call) }
        ensures refused { IfErr result (λ pending.
            IsPendingWhere (entries_in self.old) (core_in self.old) pending
            session.client session.number) }
        ensures memory { IfErr result (λ pending. pending ≡ Pending.Refused Refused.Memory →
            takes_no_memory job.call ≡ true → room ≡ None) }
        ensures guarded { Guards (core_in self.old) job room (core_in self.new) result }
    {
        let room = match self.judge(session, room) {
            Ok(room) => room,
            Err(why) => {
                self.give_up(job);
                return Err(Pending::Refused(why));
            }
        };
        let mut job = job;
        match self.core.advance(&mut job) {
            Turn::More => Err(Pending::More(job, room)),
            Turn::NoMemory => {
                let _ = job.into_call();
                Err(Pending::Refused(Refused::Memory))
            }
            Turn::Done(reply) => {
                let entry = filled(room, session, Deed::Called(job.into_call(), reply));
                let Locked {
                    notes,
                    numbers,
                    book,
                    rest,
                    ..
                } = self;
                numbers[session.client as usize] = session.number + 1;
                Ok(append(rt, row, notes, book, rest, entry))
            }
        }
    }

    /// Attaches a client with its hooks, where the history has a place for it and one for its
    /// detach. Over 16 hooks are EINVAL, where 64 are attached it is ENFILE, then ENOSPC, and where
    /// memory runs out ENOMEM. The hooks are handed back then.
    pub fn attach<H: Wait>(
        &mut self,
        rt: &H,
        row: &[OnceBox<Entry>],
        hooks: Vec<Hook<F, R>>,
        room: Option<Arrival>,
    ) -> Result<(Session, Receipt<N>), NotAttached<F, R>>
        requires row { map cell_name row.now ≡ N.cells }
        requires tags { IfSome room (λ arrival.
            arrival.tags.items ≡ map (λ h. h.tag) hooks.items) }
        ensures admitted { OnOk result (
            attach_refusal (core_in self.old) (length hooks.items) ≡ None) }
        ensures made { IfOk result (λ r. Appends self.old r.1 self.new) }
        ensures attach { IfOk result (λ r.
            IsAttachOf r.1.entry r.0.client (map (λ h. h.tag) hooks.items)) }
        ensures session { IfOk result (λ r.
            r.0 ≡ record { client = next_client (core_in self.old); number = 2 }) }
        ensures stays { OnErr result (LeavesAlone self.old self.new) }
        ensures refusal { IfErr result (λ fault. fault.errno ≡ unwrap_or
            (attach_refusal (core_in self.old) (length hooks.items)) Errno.ENOMEM) }
        ensures back { IfErr result (λ fault. fault.hooks ≡ hooks) }
    {
        if let Some(errno) = self.core.attach_refusal(hooks.len()) {
            return Err(NotAttached { errno, hooks });
        }
        let Some(arrival) = room else {
            return Err(NotAttached {
                errno: Errno::ENOMEM,
                hooks,
            });
        };
        let Arrival {
            tags,
            entry,
            detach,
        } = arrival;
        let client = self.core.attach(hooks)?;
        let entry = filled(entry, Session { client, number: 1 }, Deed::Attached(tags));
        let Locked {
            notes,
            numbers,
            boxes,
            book,
            rest,
            ..
        } = self;
        numbers.push_reserved(2);
        boxes.push_reserved(Some(detach));
        let session = Session { client, number: 2 };
        Ok((session, append(rt, row, notes, book, rest, entry)))
    }

    /// Detaches a session's client, whose hooks are handed back. It is refused exactly where the
    /// session isn't due or a call of the client is on its way.
    pub fn detach<H: Wait>(
        &mut self,
        rt: &H,
        row: &[OnceBox<Entry>],
        session: Session,
    ) -> Result<(Vec<Hook<F, R>>, Receipt<N>), Refused>
        requires row { map cell_name row.now ≡ N.cells }
        ensures due { OnOk result (
            IsDue (entries_in self.old) (core_in self.old) session.client session.number
            × IsIdle (core_in self.old) session.client) }
        ensures made { IfOk result (λ r. Appends self.old r.1 self.new) }
        ensures detach { IfOk result (λ r.
            IsDetachOf r.1.entry session.client session.number) }
        ensures stays { OnErr result (self.new ≡ self.old) }
        ensures refused { IfErr result (λ why. (why ≡ Refused.Session)
            × (IsDue (entries_in self.old) (core_in self.old) session.client session.number
            → IsIdle (core_in self.old) session.client → ⊥)) }
        ensures hooks { IfOk result (λ r.
            IfSome (instance_of (core_watches (core_in self.old)).instances session.client)
            (λ e. map (λ h. h.tag) r.0.items ≡ e.tags)) }
    {
        if !self.may_leave(session) {
            return Err(Refused::Session);
        }
        let Some(room) = self.boxes[session.client as usize].take() else {
            unreachable!()
        };
        let hooks = self.core.detach(session.client);
        let entry = filled(room, session, Deed::Detached);
        let Locked {
            notes,
            book,
            rest,
            ..
        } = self;
        Ok((hooks, append(rt, row, notes, book, rest, entry)))
    }
}
