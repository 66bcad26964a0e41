// What the handles of all clients are on, by number.
ghost use Rattle.std.specs.Prelude.{◌≡◌, ℕ, ◌+◌, ◌*◌, ◌<◌, ◌≤◌, ◌^◌, ◌∷◌, ◌++◌, [], Some, None, true, false, OnOk, OnErr, ◌↔◌, MatchOption, not, cond, ◌||◌, ◌&&◌, nat_eq, filter, length, option_copied, option_map};
ghost use Rattle.std.specs.List.{list_any};
ghost use Rattle.open_handles.specs.declared.tracked_client.TrackedHandle.{TrackedHandle};
ghost use Rattle.open_handles.specs.TrackedHandles.{AreTracked, IsOn, IsPlace, SetsTracked, clients_of, handle_uses, handles_by, is_tracked, re_way_of, slot_is_on, slot_uses, tracked_by, uses};

use crate::tracked_client::{TrackedClient, TrackedHandle, Way};
use std::alloc::{AllocError, Global};
use std::marker::Model;

/// What the handles of the attached clients are on, and the ways by which they were opened, by the
/// numbers of objects. The clients stand in the order of their numbers.
#[derive(Drop)]
pub struct TrackedHandles {
    clients: Vec<TrackedClient>,
}

impl Model for TrackedHandles {
    ghost use Rattle.open_handles.specs.TrackedHandles.{TrackedTables, AreTracked};

    ghost Value = { TrackedTables };

    ghost view = { λ t. t.clients.items };

    ghost invariant = { λ t. AreTracked t.clients.items };
}

impl TrackedHandles {
    /// No client is attached.
    pub fn new(alloc: Global) -> TrackedHandles
        ensures { result ≡ [] }
    {
        TrackedHandles {
            clients: Vec::new(alloc),
        }
    }

    /// What always holds, for those who reason about it; it does nothing.
    pub fn lawful(&self)
        ensures tracked { AreTracked self.now }
        ensures used { (c d n : ℕ) (h : TrackedHandle) → tracked_by self.now c d ≡ Some h → handle_uses n h ≤ uses self.now n }
    {
        let _ = &self.clients;
    }

    // Where a client stands, if it is attached.
    fn find(&self, client: u64) -> Option<usize>
        ensures { MatchOption result (is_tracked self.now client ≡ false) (λ i. IsPlace client i self.now) }
    {
        match self
            .clients
            .binary_search_by_key(&client, |tracked| tracked.number())
        {
            Ok(i) => Some(i),
            Err(_) => None,
        }
    }

    /// Attaches a client, whose number is above all others, with nothing open. All memory for its
    /// handles is taken here; an allocation failure changes nothing.
    pub fn attach(&mut self, alloc: Global, client: u64) -> Result<(), AllocError>
        requires { (c : ℕ) → is_tracked self.old c ≡ true → c < client }
        ensures clients { OnOk result (clients_of self.new ≡ clients_of self.old ++ client ∷ []) }
        ensures attached { OnOk result ((c : ℕ) → is_tracked self.new c ≡ (is_tracked self.old c || nat_eq c client)) }
        ensures handles { (c d : ℕ) → tracked_by self.new c d ≡ tracked_by self.old c d }
        ensures uses { (n : ℕ) → uses self.new n ≡ uses self.old n }
        ensures err { OnErr result (self.new ≡ self.old) }
    {
        let tracked = TrackedClient::new(alloc, client)?;
        self.clients.push(tracked)?;
        Ok(())
    }

    /// Detaches a client with nothing open.
    pub fn detach(&mut self, client: u64)
        requires { (d : ℕ) → tracked_by self.old client d ≡ None }
        ensures clients { clients_of self.new ≡ filter (λ c. not (nat_eq c client)) (clients_of self.old) }
        ensures attached { (c : ℕ) → is_tracked self.new c ≡ (is_tracked self.old c && not (nat_eq c client)) }
        ensures handles { (c d : ℕ) → tracked_by self.new c d ≡ tracked_by self.old c d }
        ensures uses { (n : ℕ) → uses self.new n ≡ uses self.old n }
    {
        if let Some(i) = self.find(client) {
            let _ = self.clients.remove(i);
        }
    }

    /// What a client's descriptor is on, and the way by which it was opened.
    pub fn get(&self, client: u64, descriptor: u32) -> Option<&TrackedHandle>
        ensures { option_copied result ≡ tracked_by self.now client descriptor }
    {
        match self.find(client) {
            Some(i) => self.clients[i].get(descriptor),
            None => None,
        }
    }

    /// Notes what a free descriptor of an attached client is on from now on. It takes no memory.
    pub fn open(&mut self, client: u64, descriptor: u32, handle: TrackedHandle)
        requires attached { is_tracked self.old client ≡ true }
        requires slot { descriptor < 64 }
        requires free { tracked_by self.old client descriptor ≡ None }
        ensures sets { SetsTracked self.old self.new client descriptor (Some handle) }
        ensures uses { (n : ℕ) → uses self.new n ≡ uses self.old n + handle_uses n handle }
    {
        if let Some(i) = self.find(client) {
            let tracked = &mut self.clients[i];
            tracked.set(descriptor, handle);
        }
    }

    /// Takes out what a client's descriptor is on, which is on nothing then.
    pub fn close(&mut self, client: u64, descriptor: u32) -> Option<TrackedHandle>
        ensures value { result ≡ tracked_by self.old client descriptor }
        ensures sets { SetsTracked self.old self.new client descriptor None }
        ensures uses { (n : ℕ) → uses self.new n + slot_uses n result ≡ uses self.old n }
    {
        match self.find(client) {
            Some(i) => {
                let tracked = &mut self.clients[i];
                tracked.take(descriptor)
            }
            None => None,
        }
    }

    /// Whether a handle is on an object. It goes through all handles.
    pub fn is_on(&self, object: u64) -> bool
        ensures { (result ≡ true) ↔ IsOn self.now object }
    {
        any_on(self.clients.as_slice(), object)
    }

    /// How many handles are on an object by exactly this way, at most 64 of each client. It goes
    /// through all handles.
    pub fn count_by(&self, object: u64, way: &Way) -> usize
        requires { 64 * length (clients_of self.now) < 2 ^ 64 }
        ensures count { result ≡ handles_by self.now object way.now }
        ensures few { result ≤ 64 * length (clients_of self.now) }
    {
        let mut count = 0;
        for client in self.clients.iter() {
            count += client.count_by(object, way);
        }
        count
    }

    /// Notes that an object has another way in place of one: each handle on it that was opened by
    /// exactly the one has the other, as after a rename. It goes through all handles and takes no
    /// memory.
    pub fn re_way(&mut self, object: u64, from: &Way, to: Way)
        ensures handles { (c d : ℕ) → tracked_by self.new c d ≡ option_map (re_way_of object from.now to) (tracked_by self.old c d) }
        ensures clients { clients_of self.new ≡ clients_of self.old }
        ensures uses { (n : ℕ) → let count = handles_by self.old object from.now in uses self.new n + cond (nat_eq from.now.directory n) count 0 ≡ uses self.old n + cond (nat_eq to.directory n) count 0 }
    {
        for client in self.clients.iter_mut() {
            client.re_way(object, from, &to);
        }
    }
}

// Whether a handle of some client is on an object.
fn any_on(clients: &[TrackedClient], object: u64) -> bool
    ensures { result ≡ list_any (λ k. list_any (slot_is_on object) k.slots) clients.now }
{
    clients.iter().any(|client| client.is_on(object))
}
