// The instances of all clients.
ghost use Rattle.std.specs.Prelude.{◌≡◌, ◌<◌, ◌≤◌, ◌^◌, ◌∷◌, ◌++◌, [], Some, None, All, IsSome, IfOk, IfErr, OnOk, OnErr, ◌↔◌, MatchOption, false, not, nat_eq, filter, map, length, take, drop};
ghost use Rattle.std.specs.List.{list_any, IsDistinct};
ghost use Rattle.ov_base.specs.declared.node_id.NodeId.TheVariants.{New};
ghost use Rattle.plain_model.specs.Watching.{silent, is_numbered};
ghost use Rattle.plain_model.specs.Machine.{instance_of, hooks_of, watches_of, armed_of, watch_on};
ghost use Rattle.plain_model.specs.Changes.{at_client, armed_on};
ghost use Rattle.plain_model.specs.Replies.{queue_of, number_of, next_number};
ghost use Rattle.watch_table.specs.Clients as clients;
ghost use Rattle.watch_table.specs.Clients.{AreRising, clients_of, IsPlace, AreTold, AreOnlyOn, KeepWatches};
ghost use Rattle.watch_table.specs.Listening.{slot_refusal, arm_refusal, IsEventOf};
ghost use Rattle.watch_table.specs.Subjects.{IsSubject, subject_of};

use crate::hook::{Callback, Hook, Rule};
use crate::listener::{HOOKS_MAX, Listener, NotAttached};
use crate::subject::Subject;
use ov_base::{Errno, Event, Notices};
use std::alloc::{AllocError, Global};
use std::marker::Model;

// The instances of the attached clients, in the order of the clients' numbers.
#[derive(Drop)]
pub(crate) struct Listeners<F: Callback, R: Rule> {
    listeners: Vec<Listener<F, R>>,
}

impl<F: Callback, R: Rule> Model for Listeners<F, R> {
    ghost use Rattle.std.specs.Prelude.{List};
    ghost use Rattle.plain_model.specs.Watching.{Instance};
    ghost use Rattle.watch_table.specs.Clients.{AreRising, clients_of};

    ghost Value = { List Instance };

    ghost view = { λ l. l.listeners.items };

    ghost invariant = { λ l. AreRising (clients_of l.listeners.items) };
}

impl<F: Callback, R: Rule> Listeners<F, R> {
    // No client is attached.
    pub(crate) fn new(alloc: Global) -> Listeners<F, R>
        ensures { result ≡ [] }
    {
        Listeners {
            listeners: Vec::new(alloc),
        }
    }

    // What instances are; it does nothing.
    pub(crate) fn lawful(&self)
        ensures { AreRising (clients_of self.now) }
    {
        let _ = &self.listeners;
    }

    // Where a client's instance stands, if it is attached.
    fn find(&self, client: u64) -> Option<usize>
        ensures { MatchOption result (instance_of self.now client ≡ None) (λ i. IsPlace client i self.now) }
    {
        match self
            .listeners
            .binary_search_by_key(&client, |listener| listener.client())
        {
            Ok(i) => Some(i),
            Err(_) => None,
        }
    }

    // Where an attached client's instance stands.
    fn place_of(&self, client: u64) -> usize
        requires { IsSome (instance_of self.now client) }
        ensures { IsPlace client result self.now }
    {
        match self.find(client) {
            Some(i) => i,
            None => unreachable!(),
        }
    }

    // The instance of an attached client.
    pub(crate) fn get(&self, client: u64) -> &Listener<F, R>
        requires { IsSome (instance_of self.now client) }
        ensures { instance_of self.now client ≡ Some result.now }
    {
        let i = self.place_of(client);
        &self.listeners[i]
    }

    // Whether a client has a watch on an object.
    pub(crate) fn is_watching(&self, client: u64, object: u64) -> bool
        ensures { result ≡ clients.watches self.now object client }
    {
        match self.find(client) {
            Some(i) => self.listeners[i].is_on(object),
            None => false,
        }
    }

    // The object of the watch of a number that a client, if it is attached, has.
    pub(crate) fn object_of(&self, client: u64, number: i32) -> Option<u64>
        ensures { MatchOption result (list_any (is_numbered number) (watches_of (instance_of self.now client)) ≡ false) (λ object. AreOnlyOn number object (watches_of (instance_of self.now client))) }
    {
        match self.find(client) {
            Some(i) => self.listeners[i].object_of(number),
            None => None,
        }
    }

    // Attaches a client, whose number is above all others, with its hooks. Over 16 hooks are
    // EINVAL, and out of memory is ENOMEM; the hooks are handed back.
    pub(crate) fn attach(
        &mut self,
        alloc: Global,
        client: u64,
        hooks: Vec<Hook<F, R>>,
    ) -> Result<(), NotAttached<F, R>>
        requires { All (λ e. e.client < client) self.old }
        ensures attached { IfOk result (λ _. self.new ≡ self.old ++ silent client (map (λ h. h.tag) hooks.items) ∷ []) }
        ensures few { OnOk result (length hooks.items ≤ 16) }
        ensures back { IfErr result (λ fault. fault.hooks ≡ hooks) }
        ensures many { IfErr result (λ fault. (fault.errno ≡ Errno.EINVAL) ↔ (16 < length hooks.items)) }
        ensures memory { IfErr result (λ fault. length hooks.items ≤ 16 → fault.errno ≡ Errno.ENOMEM) }
        ensures same { OnErr result (self.new ≡ self.old) }
    {
        if hooks.len() > HOOKS_MAX {
            return Err(NotAttached {
                errno: Errno::EINVAL,
                hooks,
            });
        }
        if self.listeners.reserve(1).is_err() {
            return Err(NotAttached {
                errno: Errno::ENOMEM,
                hooks,
            });
        }
        let listener = Listener::new(alloc, client, hooks)?;
        self.listeners.push_reserved(listener);
        Ok(())
    }

    // Detaches a client, and gives its instance.
    pub(crate) fn detach(&mut self, client: u64) -> Listener<F, R>
        requires { IsSome (instance_of self.old client) }
        ensures gone { self.new ≡ filter (λ e. not (nat_eq e.client client)) self.old }
        ensures instance { instance_of self.old client ≡ Some result }
    {
        let i = self.place_of(client);
        self.listeners.remove(i)
    }

    // Takes out the first unread notices of a client, at most so many. An allocation failure leaves
    // them all.
    pub(crate) fn take(
        &mut self,
        alloc: Global,
        client: u64,
        count: u32,
    ) -> Result<Notices, AllocError>
        requires { IsSome (instance_of self.old client) }
        ensures taken { IfOk result (λ notices. notices ≡ take count (queue_of (instance_of self.old client))) }
        ensures left { OnOk result (self.new ≡ at_client client (λ e. record e { queue = drop count e.queue }) self.old) }
        ensures err { OnErr result (self.new ≡ self.old) }
    {
        let i = self.place_of(client);
        let listener = &mut self.listeners[i];
        listener.take(alloc, count)
    }

    // Arms an object for a client through a slot, where nothing refuses it, and gives the watch's number. It takes no memory.
    pub(crate) fn arm(&mut self, client: u64, slot: u32, object: u64, mask: u32) -> u32
        requires attached { IsSome (instance_of self.old client) }
        requires slot { slot_refusal (hooks_of (instance_of self.old client)) slot mask ≡ None }
        requires allowed { arm_refusal (watches_of (instance_of self.old client)) (armed_of (instance_of self.old client)) slot (New object) ≡ None }
        ensures number { result ≡ number_of (watch_on (watches_of (instance_of self.old client)) (Some (New object))) (next_number (instance_of self.old client)) }
        ensures fits { result < 2 ^ 31 }
        ensures arms { self.new ≡ at_client client (armed_on slot (Some (New object)) mask) self.old }
    {
        let i = self.place_of(client);
        let listener = &mut self.listeners[i];
        listener.arm(slot, object, mask)
    }

    // Where a client's instance stands, if it is attached; it is looked for at this place first.
    fn find_near(&self, client: u64, near: usize) -> Option<usize>
        ensures { MatchOption result (instance_of self.now client ≡ None) (λ i. IsPlace client i self.now) }
    {
        if near < self.listeners.len() && self.listeners[near].client() == client {
            return Some(near);
        }
        self.find(client)
    }

    // A client, if it is attached, hears a subject, whose event is given; its instance is looked for at this place first. It gives the
    // place after it, and whether a watch ended.
    fn hear(
        &mut self,
        client: u64,
        near: usize,
        subject: &Subject<'_>,
        event: &mut Event,
    ) -> (usize, bool)
        requires subject { IsSubject (subject_of subject.now) }
        requires event { IsEventOf (subject_of subject.now) event.old }
        ensures told { AreTold R.shows (subject_of subject.now) (client ∷ []) self.old self.new }
        ensures last { result.1 ≡ false → KeepWatches self.old self.new }
        ensures event { IsEventOf (subject_of subject.now) event.new }
    {
        match self.find_near(client, near) {
            Some(i) => {
                let listener = &mut self.listeners[i];
                let ended = listener.hear(subject, event);
                (i.saturating_add(1), ended)
            }
            None => (near, false),
        }
    }

    // Clients hear a subject, each once. It tells whether a watch ended.
    pub(crate) fn tell(&mut self, clients: &[u64], subject: &Subject<'_>) -> bool
        requires once { IsDistinct nat_eq clients.now }
        requires subject { IsSubject (subject_of subject.now) }
        ensures told { AreTold R.shows (subject_of subject.now) clients.now self.old self.new }
        ensures last { result ≡ false → KeepWatches self.old self.new }
    {
        let mut event = subject.event();
        let mut near = 0;
        let mut is_ended = false;
        for client in clients {
            let (next, ended) = self.hear(*client, near, subject, &mut event);
            near = next;
            is_ended |= ended;
        }
        is_ended
    }
}
