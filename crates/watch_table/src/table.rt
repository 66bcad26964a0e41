// The watches of all clients.
ghost use Rattle.std.specs.Prelude.{◌≡◌, ℕ, ◌<◌, ◌≤◌, ◌^◌, ◌∷◌, ◌++◌, ◌+◌, [], Some, None, All, IsSome, IfOk, IfErr, OnOk, OnErr, ◌↔◌, IfSome, MatchResult, cond, not, nat_eq, filter, map, count_by, length, take, drop, MatchOption, false};
ghost use Rattle.std.specs.List.{list_any, IsDistinct};
ghost use Rattle.ov_base.specs.declared.node_id.NodeId.TheVariants.{New};
ghost use Rattle.plain_model.specs.Watching.{AllHear, silent, is_numbered};
ghost use Rattle.plain_model.specs.Tree.{same_id};
ghost use Rattle.plain_model.specs.Machine.{instance_of, hooks_of, watches_of, armed_of, watch_on};
ghost use Rattle.plain_model.specs.Changes.{at_client, armed_on};
ghost use Rattle.plain_model.specs.Replies.{queue_of, number_of, next_number};
ghost use Rattle.watch_table.specs.Clients.{AllHearOne, AreRising, clients_of, watches, AreOnlyOn};
ghost use Rattle.watch_table.specs.Listening as listening;
ghost use Rattle.watch_table.specs.Listening.{is_on, number_refusal, slot_refusal};
ghost use Rattle.watch_table.specs.Subjects.{IsSubject, subject_of, subjects_of};
ghost use Rattle.watch_table.specs.Watched.{watchers_of};
ghost use Rattle.watch_table.specs.declared.subject.Aim.TheVariants.{On, Only};

use crate::hook::{Callback, Hook, Rule};
use crate::listener::NotAttached;
use crate::listeners::Listeners;
use crate::subject::{Aim, Subject};
use crate::watch::Watch;
use crate::watched_objects::WatchedObjects;
use ov_base::{Errno, Notices};
use std::alloc::{AllocError, Global};
use std::marker::Model;

/// The inotify instances of the attached clients, in the order of the clients' numbers. Who watches an object stands in a row by the objects'
/// numbers, which are to be small, as the places of a slab are: the row is as long as the greatest that was ever armed.
#[derive(Drop)]
pub struct WatchTable<F: Callback, R: Rule> {
    listeners: Listeners<F, R>,
    objects: WatchedObjects,
}

impl<F: Callback, R: Rule> Model for WatchTable<F, R> {
    ghost use Rattle.std.specs.Prelude.{List};
    ghost use Rattle.plain_model.specs.Watching.{Instance};
    ghost use Rattle.watch_table.specs.Watched.{IsIndexOf};

    ghost Value = { List Instance };

    ghost view = { λ t. t.listeners };

    ghost invariant = { λ t. IsIndexOf t.listeners t.objects };
}

// The clients of objects that a client watched are those that still watch them.
fn refresh_all<F: Callback, R: Rule>(
    objects: &mut WatchedObjects,
    listeners: &Listeners<F, R>,
    ended: &[Watch],
)
    ensures { (n : ℕ) → watchers_of objects.new n ≡ cond (is_on n ended.now) (filter (watches listeners.now n) (watchers_of objects.old n)) (watchers_of objects.old n) }
{
    for watch in ended {
        objects.refresh(listeners, watch.object());
    }
}

impl<F: Callback, R: Rule> WatchTable<F, R> {
    /// No client is attached.
    pub fn new(alloc: Global) -> WatchTable<F, R>
        ensures { result ≡ [] }
    {
        WatchTable {
            listeners: Listeners::new(alloc),
            objects: WatchedObjects::new(alloc),
        }
    }

    /// What always holds, for those who reason about it; it does nothing.
    pub fn lawful(&self)
        ensures { AreRising (clients_of self.now) }
    {
        self.listeners.lawful();
    }

    /// How many clients watch the object of a number. It hashes nothing.
    pub fn watchers(&self, object: u64) -> usize
        ensures { result ≡ count_by (λ e. is_on object e.watches) self.now }
    {
        self.listeners.lawful();
        self.objects.watchers(object).len()
    }

    /// The watches of a client, in the order of their numbers, no two on one object: at most 16.
    pub fn watches(&self, client: u64) -> &[Watch]
        requires { IsSome (instance_of self.now client) }
        ensures watches { result.now ≡ watches_of (instance_of self.now client) }
        ensures apart { IsDistinct same_id (map (λ w. w.node) result.now) }
    {
        self.listeners.get(client).watches()
    }

    /// Whether a client has a watch of this number.
    pub fn has_watch(&self, client: u64, number: i32) -> bool
        requires { IsSome (instance_of self.now client) }
        ensures { result ≡ list_any (is_numbered number) (watches_of (instance_of self.now client)) }
    {
        self.listeners.get(client).has_watch(number)
    }

    /// The object of the watch of a number that a client, if it is attached, has.
    pub fn object_of(&self, client: u64, number: i32) -> Option<u64>
        ensures { MatchOption result (list_any (is_numbered number) (watches_of (instance_of self.now client)) ≡ false) (λ object. AreOnlyOn number object (watches_of (instance_of self.now client))) }
    {
        self.listeners.object_of(client, number)
    }

    /// Notifies subjects in their order, each to the watches that it reaches. It takes no memory.
    pub fn fire(&mut self, subjects: &[Subject<'_>])
        requires { All (λ s. IsSubject (subject_of s)) subjects.now }
        ensures { AllHear R.shows (subjects_of subjects.now) self.old self.new }
    {
        for subject in subjects {
            self.tell(subject);
        }
    }

    // Tells one subject.
    fn tell(&mut self, subject: &Subject<'_>)
        requires { IsSubject (subject_of subject.now) }
        ensures { AllHearOne R.shows (subject_of subject.now) self.old self.new }
    {
        match subject.aim {
            Aim::On(object) => {
                let _ = self.tell_watchers(object, subject);
            }
            Aim::Only(client, number) => self.tell_one(client, number, subject),
        }
    }

    /// Notifies a subject to the watches on the object of a number, and gives how many clients
    /// watch it no more. It takes no memory.
    pub fn tell_watchers(&mut self, object: u64, subject: &Subject<'_>) -> usize
        requires aim { subject.now.aim ≡ On object }
        requires subject { IsSubject (subject_of subject.now) }
        ensures hear { AllHear R.shows (subject_of subject.now ∷ []) self.old self.new }
        ensures ended { count_by (λ e. is_on object e.watches) self.new + result ≡ count_by (λ e. is_on object e.watches) self.old }
    {
        self.listeners.lawful();
        let clients = self.objects.watchers(object);
        let before = clients.len();
        if before == 0 {
            return 0;
        }
        if !self.listeners.tell(clients, subject) {
            return 0;
        }
        self.objects.refresh(&self.listeners, object);
        before - self.objects.watchers(object).len()
    }

    // Tells a subject for one watch of a client to that client.
    fn tell_one(&mut self, client: u64, number: i32, subject: &Subject<'_>)
        requires aim { subject.now.aim ≡ Only client number }
        requires subject { IsSubject (subject_of subject.now) }
        ensures { AllHearOne R.shows (subject_of subject.now) self.old self.new }
    {
        self.listeners.lawful();
        if let Some(object) = self.listeners.object_of(client, number) {
            self.listeners.tell(&[client], subject);
            self.objects.refresh(&self.listeners, object);
        }
    }

    /// Attaches a client, whose number is above all others, with its hooks. Over 16 hooks are
    /// EINVAL, and out of memory is ENOMEM; the hooks are handed back.
    pub fn attach(
        &mut self,
        alloc: Global,
        client: u64,
        hooks: Vec<Hook<F, R>>,
    ) -> Result<(), NotAttached<F, R>>
        requires { All (λ e. e.client < client) self.old }
        ensures attached { IfOk result (λ _. self.new ≡ self.old ++ silent client (map (λ h. h.tag) hooks.items) ∷ []) }
        ensures few { OnOk result (length hooks.items ≤ 16) }
        ensures back { IfErr result (λ fault. fault.hooks ≡ hooks) }
        ensures many { IfErr result (λ fault. (fault.errno ≡ Errno.EINVAL) ↔ (16 < length hooks.items)) }
        ensures memory { IfErr result (λ fault. length hooks.items ≤ 16 → fault.errno ≡ Errno.ENOMEM) }
        ensures same { OnErr result (self.new ≡ self.old) }
    {
        self.listeners.attach(alloc, client, hooks)
    }

    /// Detaches a client: its watches end unheard. Its hooks are handed back. It takes no memory.
    pub fn detach(&mut self, client: u64) -> Vec<Hook<F, R>>
        requires { IsSome (instance_of self.old client) }
        ensures gone { self.new ≡ filter (λ e. not (nat_eq e.client client)) self.old }
        ensures hooks { IfSome (instance_of self.old client) (λ e. map (λ h. h.tag) result.items ≡ e.tags) }
    {
        let listener = self.listeners.detach(client);
        refresh_all(&mut self.objects, &self.listeners, listener.watches());
        listener.into_hooks()
    }

    /// Whether a slot of a client has a hook, and the mask an event and no bit that no arm takes; else it is EINVAL.
    pub fn may_arm(&self, client: u64, slot: u32, mask: u32) -> Result<(), Errno>
        requires { IsSome (instance_of self.now client) }
        ensures { MatchResult result (λ _. slot_refusal (hooks_of (instance_of self.now client)) slot mask ≡ None) (λ e. slot_refusal (hooks_of (instance_of self.now client)) slot mask ≡ Some e) }
    {
        self.listeners.get(client).may_arm(slot, mask)
    }

    /// Why the object of a number, or one that has none yet, isn't armed for a client through a
    /// slot. A slot that is armed on another object, or an object that is armed through another
    /// slot, is EBUSY; a new watch where all numbers were given is ENOSPC.
    pub fn arm_refusal(&self, client: u64, slot: u32, object: Option<u64>) -> Option<Errno>
        requires { IsSome (instance_of self.now client) }
        ensures { result ≡ number_refusal (watches_of (instance_of self.now client))
            (armed_of (instance_of self.now client)) slot object }
    {
        let listener = self.listeners.get(client);
        match object {
            Some(number) => listener.arm_refusal(slot, number),
            None => listener.new_refusal(slot),
        }
    }

    /// Arms an object for a client through a slot, where nothing refuses it, and gives the watch's
    /// number. An allocation failure changes nothing.
    pub fn arm(
        &mut self,
        alloc: Global,
        client: u64,
        slot: u32,
        object: u64,
        mask: u32,
    ) -> Result<u32, AllocError>
        requires attached { IsSome (instance_of self.old client) }
        requires slot { slot_refusal (hooks_of (instance_of self.old client)) slot mask ≡ None }
        requires allowed { listening.arm_refusal (watches_of (instance_of self.old client)) (armed_of (instance_of self.old client)) slot (New object) ≡ None }
        ensures armed { IfOk result (λ n. n ≡ number_of (watch_on (watches_of (instance_of self.old client)) (Some (New object))) (next_number (instance_of self.old client))) }
        ensures fits { IfOk result (λ n. n < 2 ^ 31) }
        ensures arms { OnOk result (self.new ≡ at_client client (armed_on slot (Some (New object)) mask) self.old) }
        ensures err { OnErr result (self.new ≡ self.old) }
    {
        let listener = self.listeners.get(client);
        if !listener.is_on(object) {
            self.objects.add(alloc, object, client)?;
        }
        Ok(self.listeners.arm(client, slot, object, mask))
    }

    /// Takes out the first unread notices of a client, at most so many. An allocation failure
    /// leaves them all.
    pub fn take(&mut self, alloc: Global, client: u64, count: u32) -> Result<Notices, AllocError>
        requires { IsSome (instance_of self.old client) }
        ensures taken { IfOk result (λ notices. notices ≡ take count (queue_of (instance_of self.old client))) }
        ensures left { OnOk result (self.new ≡ at_client client (λ e. record e { queue = drop count e.queue }) self.old) }
        ensures err { OnErr result (self.new ≡ self.old) }
    {
        self.listeners.take(alloc, client, count)
    }
}
