// The inotify instance of one client.
ghost use Rattle.std.specs.Prelude.{◌≡◌, ◌<◌, ◌≤◌, ◌+◌, ◌^◌, [], Option, None, Some, IfOk, IfErr, OnOk, OnErr, ◌↔◌, All, MatchResult, MatchOption, false, find, option_map, map, flat_map, length, nat_eq, nat_lt, take, drop};
ghost use Rattle.std.specs.Vec.{vec_capacity};
ghost use Rattle.std.specs.List.{list_any, IsDistinct};
ghost use Rattle.ov_base.specs.declared.node_id.NodeId.TheVariants.{New};
ghost use Rattle.ov_base.specs.declared.notice.Notice.{Notice};
ghost use Rattle.plain_model.specs.Watching as plain;
ghost use Rattle.plain_model.specs.Watching.{IsEvent, Puts, put_answer, silent};
ghost use Rattle.plain_model.specs.Tree.{same_id};
ghost use Rattle.plain_model.specs.Machine.{watch_on};
ghost use Rattle.plain_model.specs.Refusals.{is_busy};
ghost use Rattle.plain_model.specs.Changes.{armed_on};
ghost use Rattle.plain_model.specs.Replies.{number_of};
ghost use Rattle.watch_table.specs.Subjects.{IsSubject, subject_of};
ghost use Rattle.watch_table.specs.Clients.{AreOnlyOn};
ghost use Rattle.watch_table.specs.Listening as listening;
ghost use Rattle.watch_table.specs.Listening.{slot_refusal, rearmed, asked_of, HearsOne, IsEventOf};

use crate::hook::{Callback, Hook, Rule};
use crate::queue::Queue;
use crate::subject::{IGNORED, Subject};
use crate::watch::{EVENTS, Watch};
use ov_base::{Errno, Event, Notices};
use std::alloc::{AllocError, Global};
use std::marker::Model;

/// The most hooks of a client.
pub const HOOKS_MAX: usize = 16;

// The most watch numbers that a client is given.
const WATCHES_MAX: u32 = 0x7fff_ffff;

// The bits that arm takes: those of events, ONLYDIR, MASK_ADD and ONESHOT (inotify_add_watch(2)).
const ARM_BITS: u32 = 0xa100_0fff;

// The inotify instance of one client: its hooks by slot, its watches in the order of their numbers, with room for one for each slot, how
// many numbers it was given, and the notices that it has not read.
#[derive(Drop)]
pub(crate) struct Listener<F: Callback, R: Rule> {
    client: u64,
    hooks: Vec<Hook<F, R>>,
    watches: Vec<Watch>,
    armed: u32,
    queue: Queue,
}

impl<F: Callback, R: Rule> Model for Listener<F, R> {
    ghost use Rattle.std.specs.Prelude.{◌≤◌, map};
    ghost use Rattle.std.specs.Vec.{vec_capacity};
    ghost use Rattle.plain_model.specs.Watching.{Instance};
    ghost use Rattle.watch_table.specs.Listening.{IsInstance};

    ghost Value = { Instance };

    ghost view = { λ l. record { client = l.client; tags = map (λ h. h.tag) l.hooks.items; watches = l.watches.items; armed = l.armed; queue = l.queue } };

    ghost invariant = { λ l. IsInstance (record { client = l.client; tags = map (λ h. h.tag) l.hooks.items; watches = l.watches.items; armed = l.armed; queue = l.queue }) × (16 ≤ vec_capacity l.watches) };
}

/// Why a client is not attached, and the hooks that it came with.
#[derive(Drop)]
pub struct NotAttached<F: Callback, R: Rule> {
    pub errno: Errno,
    pub hooks: Vec<Hook<F, R>>,
}

// Asks a hook, and puts what it answers.
fn ask<F: Callback, R: Rule>(hook: &Hook<F, R>, queue: &mut Queue, event: &Event)
    requires { IsEvent event.now }
    ensures { (answer : Option Notice) × R.shows hook.now.tag event.now answer × (queue.new ≡ put_answer queue.old answer) }
{
    let answer = hook.fire(event);
    queue.put_answer(&answer);
}

// Asks what a subject asks at one watch. The subject's event is given, for a watch of any number.
fn tell_watch<F: Callback, R: Rule>(
    client: u64,
    hooks: &[Hook<F, R>],
    watch: &Watch,
    queue: &mut Queue,
    subject: &Subject<'_>,
    event: &mut Event,
)
    requires slot { watch.now.slot < length hooks.now }
    requires number { (0 < watch.now.number) × (watch.now.number < 2 ^ 31) }
    requires subject { IsSubject (subject_of subject.now) }
    requires event { IsEventOf (subject_of subject.now) event.old }
    ensures puts { Puts R.shows (asked_of client (map (λ h. h.tag) hooks.now) (subject_of subject.now) watch.now) queue.old queue.new }
    ensures event { IsEventOf (subject_of subject.now) event.new }
{
    if !watch.is_reached(client, subject) {
        return;
    }
    let hook = &hooks[watch.slot() as usize];
    event.watch = watch.number();
    event.lawful();
    ask(hook, queue, event);
    if watch.is_once() && subject.bits != IGNORED {
        let end = Event {
            watch: watch.number(),
            bits: IGNORED,
            cookie: 0,
            name: None,
        };
        ask(hook, queue, &end);
    }
}

// Asks what a subject asks at each watch.
fn tell_watches<F: Callback, R: Rule>(
    client: u64,
    hooks: &[Hook<F, R>],
    watches: &[Watch],
    queue: &mut Queue,
    subject: &Subject<'_>,
    event: &mut Event,
)
    requires watches { All (λ w. (w.slot < length hooks.now) × (0 < w.number) × (w.number < 2 ^ 31)) watches.now }
    requires subject { IsSubject (subject_of subject.now) }
    requires event { IsEventOf (subject_of subject.now) event.old }
    ensures puts { Puts R.shows (flat_map (asked_of client (map (λ h. h.tag) hooks.now) (subject_of subject.now)) watches.now) queue.old queue.new }
    ensures event { IsEventOf (subject_of subject.now) event.new }
{
    for watch in watches {
        tell_watch(client, hooks, watch, queue, subject, event);
    }
}

// Whether the slot is armed on another object, or the object through another slot.
fn is_taken(watches: &[Watch], slot: u32, object: u64) -> bool
    ensures { result ≡ is_busy watches.now slot (Some (New object)) }
{
    watches.iter().any(|watch| {
        (!watch.is_on(object) && watch.slot() == slot)
            || (watch.is_on(object) && watch.slot() != slot)
    })
}

// Whether the slot has a watch.
fn is_armed(watches: &[Watch], slot: u32) -> bool
    ensures { result ≡ list_any (λ w. nat_eq w.slot slot) watches.now }
{
    watches.iter().any(|watch| watch.slot() == slot)
}

// Whether one of the watches is on an object.
fn is_on(watches: &[Watch], object: u64) -> bool
    ensures { result ≡ listening.is_on object watches.now }
{
    watches.iter().any(|watch| watch.is_on(object))
}

// The number of the watch on an object.
fn number_on(watches: &[Watch], object: u64) -> Option<u32>
    ensures { result ≡ option_map (λ w. w.number) (watch_on watches.now (Some (New object))) }
{
    watches
        .iter()
        .find(|watch| watch.is_on(object))
        .map(|watch| watch.number())
}

// The object of the watch of a number.
fn object_of(watches: &[Watch], number: i32) -> Option<u64>
    ensures { option_map New result ≡ option_map (λ w. w.node) (find (plain.is_numbered number) watches.now) }
{
    match watches.iter().find(|watch| watch.is_numbered(number)) {
        Some(watch) => Some(watch.object()),
        None => None,
    }
}

// Arms the watch on an object again.
fn rearm(watches: &mut [Watch], object: u64, mask: u32)
    ensures { watches.new ≡ map (rearmed (New object) mask) watches.old }
{
    for watch in watches.iter_mut() {
        watch.rearm_on(object, mask);
    }
}

// An empty queue, and room for the watches of a client.
fn rooms(alloc: Global) -> Result<(Queue, Vec<Watch>), AllocError>
    ensures queue { IfOk result (λ r. r.0 ≡ []) }
    ensures watches { IfOk result (λ r. r.1.items ≡ []) }
    ensures room { IfOk result (λ r. 16 ≤ vec_capacity r.1) }
{
    let queue = Queue::new(alloc)?;
    let watches = Vec::with_capacity(alloc, HOOKS_MAX)?;
    Ok((queue, watches))
}

impl<F: Callback, R: Rule> Listener<F, R> {
    // The instance of a client as it begins, with at most 16 hooks. Out of memory is ENOMEM, and
    // the hooks are handed back.
    pub(crate) fn new(
        alloc: Global,
        client: u64,
        hooks: Vec<Hook<F, R>>,
    ) -> Result<Listener<F, R>, NotAttached<F, R>>
        requires { length hooks.items ≤ 16 }
        ensures begins { IfOk result (λ l. l ≡ silent client (map (λ h. h.tag) hooks.items)) }
        ensures back { IfErr result (λ fault. fault.hooks ≡ hooks) }
        ensures memory { IfErr result (λ fault. fault.errno ≡ Errno.ENOMEM) }
    {
        match rooms(alloc) {
            Ok((queue, watches)) => Ok(Listener {
                client,
                hooks,
                watches,
                armed: 0,
                queue,
            }),
            Err(_) => Err(NotAttached {
                errno: Errno::ENOMEM,
                hooks,
            }),
        }
    }

    // The client's number.
    pub(crate) fn client(&self) -> u64
        ensures { result ≡ self.now.client }
    {
        self.client
    }

    // The client's watches, no two on one object.
    pub(crate) fn watches(&self) -> &[Watch]
        ensures watches { result.now ≡ self.now.watches }
        ensures apart { IsDistinct same_id (map (λ w. w.node) result.now) }
    {
        self.watches.as_slice()
    }

    // Ends the instance, and hands back the hooks.
    pub(crate) fn into_hooks(self) -> Vec<Hook<F, R>>
        ensures { map (λ h. h.tag) result.items ≡ self.tags }
    {
        self.hooks
    }

    // Whether the client has a watch on an object.
    pub(crate) fn is_on(&self, object: u64) -> bool
        ensures { result ≡ listening.is_on object self.now.watches }
    {
        is_on(self.watches.as_slice(), object)
    }

    // Whether the client has a watch of this number.
    pub(crate) fn has_watch(&self, number: i32) -> bool
        ensures { result ≡ list_any (plain.is_numbered number) self.now.watches }
    {
        self.watches.iter().any(|watch| watch.is_numbered(number))
    }

    // The object of the client's watch of a number.
    pub(crate) fn object_of(&self, number: i32) -> Option<u64>
        ensures { MatchOption result (list_any (plain.is_numbered number) self.now.watches ≡ false) (λ object. AreOnlyOn number object self.now.watches) }
    {
        object_of(self.watches.as_slice(), number)
    }

    // Whether the slot has a hook, and the mask an event and no bit that no arm takes; else it is EINVAL.
    pub(crate) fn may_arm(&self, slot: u32, mask: u32) -> Result<(), Errno>
        ensures { MatchResult result (λ _. slot_refusal (length self.now.tags) slot mask ≡ None) (λ e. slot_refusal (length self.now.tags) slot mask ≡ Some e) }
    {
        if slot as usize >= self.hooks.len() {
            return Err(Errno::EINVAL);
        }
        if mask & EVENTS == 0 || mask & ARM_BITS != mask {
            return Err(Errno::EINVAL);
        }
        Ok(())
    }

    // Why an object isn't armed through a slot. A slot that is armed on another object, or an object that is armed through another
    // slot, is EBUSY; a new watch where all numbers were given is ENOSPC.
    pub(crate) fn arm_refusal(&self, slot: u32, object: u64) -> Option<Errno>
        ensures { result ≡ listening.arm_refusal self.now.watches self.now.armed slot (New object) }
    {
        if is_taken(self.watches.as_slice(), slot, object) {
            return Some(Errno::EBUSY);
        }
        if number_on(self.watches.as_slice(), object).is_none() && self.armed >= WATCHES_MAX {
            return Some(Errno::ENOSPC);
        }
        None
    }

    // Why an object that nobody watches isn't armed through a slot: a slot that is armed is EBUSY,
    // and where all numbers were given it is
    // ENOSPC.
    pub(crate) fn new_refusal(&self, slot: u32) -> Option<Errno>
        ensures { result ≡ listening.new_refusal self.now.watches self.now.armed slot }
    {
        if is_armed(self.watches.as_slice(), slot) {
            return Some(Errno::EBUSY);
        }
        if self.armed >= WATCHES_MAX {
            return Some(Errno::ENOSPC);
        }
        None
    }

    // Arms an object through a slot, where nothing refuses it, and gives the watch's number. It takes no memory.
    pub(crate) fn arm(&mut self, slot: u32, object: u64, mask: u32) -> u32
        requires slot { slot_refusal (length self.old.tags) slot mask ≡ None }
        requires allowed { listening.arm_refusal self.old.watches self.old.armed slot (New object) ≡
            None }
        ensures number { result ≡ number_of (watch_on self.old.watches (Some (New object))) (self.old.armed + 1) }
        ensures fits { result < 2 ^ 31 }
        ensures arms { self.new ≡ armed_on slot (Some (New object)) mask self.old }
    {
        if let Some(number) = number_on(self.watches.as_slice(), object) {
            rearm(self.watches.as_mut_slice(), object, mask);
            return number;
        }
        let number = self.armed + 1;
        self.watches
            .push_reserved(Watch::new(number, slot, object, mask));
        self.armed = number;
        number
    }

    // Takes out the first unread notices, at most so many. An allocation failure leaves them all.
    pub(crate) fn take(&mut self, alloc: Global, count: u32) -> Result<Notices, AllocError>
        ensures taken { IfOk result (λ notices. notices ≡ take count self.old.queue) }
        ensures left { OnOk result (self.new ≡ record self.old { queue = drop count self.old.queue }) }
        ensures err { OnErr result (self.new ≡ self.old) }
        ensures client { self.new.client ≡ self.old.client }
    {
        self.queue.take(alloc, count as usize)
    }

    // Hears one subject, whose event is given: it asks the hooks of the watches that the subject reaches, and ends those that end with it.
    // It tells whether any ended. It takes no memory.
    pub(crate) fn hear(&mut self, subject: &Subject<'_>, event: &mut Event) -> bool
        requires subject { IsSubject (subject_of subject.now) }
        requires event { IsEventOf (subject_of subject.now) event.old }
        ensures hears { HearsOne R.shows (subject_of subject.now) self.old self.new }
        ensures ended { result ≡ nat_lt (length self.new.watches) (length self.old.watches) }
        ensures event { IsEventOf (subject_of subject.now) event.new }
    {
        tell_watches(
            self.client,
            self.hooks.as_slice(),
            self.watches.as_slice(),
            &mut self.queue,
            subject,
            event,
        );
        let client = self.client;
        let before = self.watches.len();
        self.watches
            .retain(|watch| !watch.is_ended(client, subject));
        self.watches.len() < before
    }
}
