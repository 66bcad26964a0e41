// What a mount keeps for watches.
ghost use Rattle.std.specs.Prelude.{◌≡◌, ℕ, ◌+◌, [], ◌∷◌, ◌↔◌, ◌<◌, ◌≢◌, None, Some, IsSome, IfOk, OnOk, option_copied, true, ◌≤◌};
ghost use Rattle.ov_base.specs.declared.node_id.NodeId.TheVariants.{New};
ghost use Rattle.plain_model.specs.Watching.{IsSubject};
ghost use Rattle.plain_model.specs.Watching as plain;
ghost use Rattle.object_table.specs.Objects.{Nowhere, Upper, Spot, spot_of, holders_of, room, IsBare, IsVacant, SameSpots, SetsSpot};
ghost use Rattle.open_handles.specs.TrackedHandles.{IsOn, SetsTracked, slot_uses, tracked_by, uses};
ghost use Rattle.notice_laws.specs.Notified.{AreKnown};
ghost use Rattle.notice_laws.specs.Objects.{IsNumberOf, IsWayTo};
ghost use Rattle.notice_laws.specs.Opens.{AreFewer};
ghost use Rattle.notice_laws.specs.Telling.{IsEnd};
ghost use Rattle.notifier.specs.Notifying.{AreCounted, IsTold};
ghost use Rattle.notifier.specs.Opening.{AreHeld};

use notice_laws::{Object, Pin};
use object_table::ObjectTable;
use open_handles::{TrackedHandle, TrackedHandles, Way};
use ov_base::{EventName, Path};
use std::alloc::{AllocError, Global};
use std::hash::RandomState;
use std::marker::Model;
use watch_table::{Aim, Callback, Rule, Subject, WatchTable};

/// What a mount keeps for watches: the objects that watches and handles pin, as the inodes that a kernel pins for them, what each handle is
/// on, the watches of the clients, and how many renames moved something. An object is held once for each client that watches it, for each
/// handle on it, and for each handle that was opened by a way in it; and beforehand for each that a rename leads to a way in it.
#[derive(Drop)]
pub struct Notifier<F: Callback, R: Rule> {
    pub(crate) objects: ObjectTable,
    pub(crate) handles: TrackedHandles,
    pub(crate) watches: WatchTable<F, R>,
    pub(crate) renames: u64,
    pub(crate) pinned: Option<Pin>,
}

impl<F: Callback, R: Rule> Model for Notifier<F, R> {
    ghost use Rattle.notice_laws.specs.Notified.{Notified};
    ghost use Rattle.notifier.specs.Notifying.{AreCounted};

    ghost Value = { Notified };

    ghost use Rattle.std.specs.Coded.{codes};
    ghost use Rattle.object_table.specs.Objects.{objects_code};

    ghost coded = { Prim.hlevel (codes, objects_code) };

    ghost view = { λ k. record { objects = k.objects; handles = k.handles; instances = k.watches; renames = k.renames; pinned = k.pinned } };

    ghost invariant = { λ k. AreCounted (record { objects = k.objects; handles = k.handles; instances = k.watches; renames = k.renames; pinned = k.pinned }) };
}

impl<F: Callback, R: Rule> Notifier<F, R> {
    /// Nothing is tracked, and no client is attached. Names, keys and numbers are hashed with these keys.
    pub fn new(alloc: Global, keys: RandomState) -> Result<Notifier<F, R>, AllocError>
        ensures none { IfOk result (λ k. (n : ℕ) → spot_of k.objects n ≡ None) }
        ensures handles { IfOk result (λ k. k.handles ≡ []) }
        ensures instances { IfOk result (λ k. k.instances ≡ []) }
        ensures renames { IfOk result (λ k. k.renames ≡ 0) }
        ensures unpinned { IfOk result (λ k. k.pinned ≡ None) }
    {
        let objects = ObjectTable::new(alloc, keys)?;
        objects.lawful();
        Ok(Notifier {
            objects,
            handles: TrackedHandles::new(alloc),
            watches: WatchTable::new(alloc),
            renames: 0,
            pinned: None,
        })
    }

    /// What always holds, for those who reason about it; it does nothing.
    pub fn lawful(&self)
        ensures known { AreKnown self.now }
        ensures counts { AreCounted self.now }
        ensures held { AreHeld self.now.objects }
        ensures one_there { (spot : Spot) (m n : ℕ) → spot ≢ Nowhere → spot_of self.now.objects m ≡ Some spot → spot_of self.now.objects n ≡ Some spot → m ≡ n }
    {
        self.objects.lawful();
        self.handles.lawful();
    }

    /// The number of what stands at a path, if it is tracked.
    pub fn number_of(&self, path: &Path, object: Object) -> Option<u64>
        ensures { IsNumberOf self.now.objects path.now object result }
    {
        match object {
            Object::Other => None,
            Object::Directory => self.objects.number_at(path),
            Object::Lower => self.objects.number_at(path),
            Object::Upper { key, last: _ } => self.objects.number_of_key(key),
        }
    }

    /// The way in to a path, if its directory is tracked; the root has none.
    pub fn way_to(&self, path: &Path) -> Option<Way>
        ensures { IsWayTo self.now.objects path.now result }
    {
        let (name, parents) = path.split_last()?;
        let directory = self.objects.number_at_names(parents)?;
        Some(Way {
            directory,
            name: EventName::of(name),
        })
    }

    /// Whether a handle is on the object of a number.
    pub(crate) fn is_opened(&self, number: u64) -> bool
        ensures { (result ≡ true) ↔ IsOn self.now.handles number }
    {
        self.handles.is_on(number)
    }

    /// The object of a number, if it ends by losing its last name: where no handle is on it.
    pub(crate) fn end_of(&self, number: Option<u64>, is_lost: bool) -> Option<u64>
        ensures { IsEnd self.now.handles is_lost number result }
    {
        match number {
            Some(lost) => {
                if is_lost && !self.is_opened(lost) {
                    number
                } else {
                    None
                }
            }
            None => None,
        }
    }

    /// What a client's descriptor is on, which is open.
    pub(crate) fn handle(&self, client: u64, descriptor: u32) -> TrackedHandle
        requires { IsSome (tracked_by self.now.handles client descriptor) }
        ensures { tracked_by self.now.handles client descriptor ≡ Some result }
    {
        match self.handles.get(client, descriptor) {
            Some(handle) => *handle,
            None => unreachable!(),
        }
    }

    /// Whether an object is tracked, and under no path any more.
    pub(crate) fn is_lost(&self, number: u64) -> bool
        ensures { (result ≡ true) ↔ (spot_of self.now.objects number ≡ Some Nowhere) }
    {
        self.objects.is_lost(number)
    }

    // Tells the object of a number to those who watch it, and lets go what the watches held that end
    // by it. Where nobody watches it only its place among the watched objects is read.
    pub(crate) fn tell(&mut self, object: u64, bits: u32, cookie: u32, name: Option<&EventName>)
        requires { IsSubject (record { aim = plain.On (New object); bits = bits; cookie = cookie; name = option_copied name }) }
        ensures { IsTold R.shows self.old self.new (record { aim = plain.On (New object); bits = bits; cookie = cookie; name = option_copied name.entry } ∷ []) }
    {
        let subject = Subject {
            aim: Aim::On(object),
            bits,
            cookie,
            name,
        };
        let ended = self.watches.tell_watchers(object, &subject);
        self.objects.release(object, ended);
    }

    // Closes a client's descriptor, and lets go what it held.
    pub(crate) fn shut(&mut self, client: u64, descriptor: u32)
        ensures sets { SetsTracked self.old.handles self.new.handles client descriptor None }
        ensures uses { (n : ℕ) → uses self.new.handles n + slot_uses n (tracked_by self.old.handles client descriptor) ≡ uses self.old.handles n }
        ensures fewer { AreFewer self.old.objects self.new.objects }
        ensures instances { self.new.instances ≡ self.old.instances }
        ensures renames { self.new.renames ≡ self.old.renames }
        ensures pinned { self.new.pinned ≡ self.old.pinned }
    {
        if let Some(handle) = self.handles.close(client, descriptor) {
            self.objects.release(handle.object, 1);
            if let Some(way) = handle.way {
                self.objects.release(way.directory, 1);
            }
        }
    }

    // Tells that the object of a number is under no path any more.
    pub(crate) fn lose(&mut self, number: u64)
        requires there { IsSome (spot_of self.old.objects number) }
        requires bare { IsBare self.old.objects number }
        ensures loses { SetsSpot self.old.objects self.new.objects number (Some Nowhere) (holders_of self.old.objects number) }
        ensures room { room self.old.objects ≤ room self.new.objects }
        ensures rest { self.new ≡ record self.old { objects = self.new.objects } }
    {
        self.objects.lose(number);
    }

    // Tells that the object of a number was copied up: it is in the upper under a key now.
    pub(crate) fn rise(&mut self, number: u64, key: usize)
        requires there { IsSome (spot_of self.old.objects number) }
        requires low { (k : ℕ) → spot_of self.old.objects number ≢ Some (Upper k) }
        requires bare { IsBare self.old.objects number }
        requires vacant { IsVacant self.old.objects (Upper key) }
        requires room { 0 < room self.old.objects }
        ensures rises { SetsSpot self.old.objects self.new.objects number (Some (Upper key)) (holders_of self.old.objects number) }
        ensures rest { self.new ≡ record self.old { objects = self.new.objects } }
    {
        self.objects.rise(number, key);
    }

    // Makes room for one object to come into the upper, so that `rise` takes no memory.
    pub(crate) fn reserve(&mut self) -> Result<(), AllocError>
        ensures same { SameSpots self.old.objects self.new.objects }
        ensures rest { self.new ≡ record self.old { objects = self.new.objects } }
        ensures made { OnOk result (0 < room self.new.objects) }
    {
        self.objects.reserve()
    }
}
