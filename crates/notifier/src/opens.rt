// What opens take before a mount changes, and what they tell after it.
ghost use Rattle.std.specs.Prelude.{◌≡◌, ◌≢◌, ◌<◌, ◌≤◌, ◌+◌, ℕ, [], None, Some, IfOk, OnErr, OnOk, IsSome, cond, nat_eq, true};
ghost use Rattle.open_handles.specs.declared.tracked_client.TrackedHandle.{TrackedHandle};
ghost use Rattle.object_table.specs.Objects.{At, Holds, Upper, IsVacant, SameSpots, holders_of, room};
ghost use Rattle.open_handles.specs.TrackedHandles.{handle_uses, is_tracked, tracked_by, way_uses};
ghost use Rattle.notice_laws.specs.declared.object.Object.TheVariants as stands;
ghost use Rattle.notifier.specs.Opening.{AreHeld, AreNoMore, HoldsBoth, HoldsFor, HoldsNew, HoldsObject, HoldsWay, IsBack, IsOpenAt, IsOpenNowhere, IsReady, IsReadyNew, Readies};
ghost use Rattle.plain_model.specs.Layers.{Path as Names};
ghost use Rattle.notice_laws.specs.Notified.{Notified};
ghost use Rattle.notice_laws.specs.Objects.{IsNumberOf};
ghost use Rattle.notice_laws.specs.Opens.{AreFewer, IsHeldWay, Opened, OpenedNew, opens_to};
ghost use Rattle.notice_laws.specs.Telling.{of_both};
ghost use Rattle.plain_model.specs.Watching.{MODIFY};
ghost use Rattle.notifier.specs.Notifying.{Becomes, HasRoom, IsTold, MayLift};

use crate::bits::{self, CREATE, OPEN};
use crate::kept::Notifier;
use crate::telling::marks;
use notice_laws::Object;
use object_table::ObjectTable;
use open_handles::{TrackedHandle, Way};
use ov_base::{EventName, OpenFlags, Path};
use std::alloc::AllocError;
use watch_table::{Callback, Rule};

// Holds the directory of a path, and gives the way in to the path; the root has none.
fn hold_way(objects: &mut ObjectTable, path: &Path) -> Result<Option<Way>, AllocError>
    ensures holds { IfOk result (λ way. HoldsWay objects.old objects.new path.now way) }
    ensures held { IfOk result (λ way. HoldsFor objects.old objects.new (λ n. way_uses n way)) }
    ensures room { room objects.new ≡ room objects.old }
    ensures err { OnErr result (SameSpots objects.old objects.new) }
{
    objects.lawful();
    let Some((name, parents)) = path.split_last() else {
        return Ok(None);
    };
    let directory = objects.hold_at_names(parents)?;
    Ok(Some(Way {
        directory,
        name: EventName::of(name),
    }))
}

// Holds what stands at a path for one holder more, and gives its number. It fails only when out of
// memory, or where as many hold it as can be counted, and changes nothing then.
pub(crate) fn hold_object(
    objects: &mut ObjectTable,
    path: &Path,
    object: Object,
) -> Result<u64, AllocError>
    requires { object ≢ stands.Other }
    ensures holds { IfOk result (λ n. HoldsObject objects.old objects.new path.now object n) }
    ensures held { IfOk result (λ n. HoldsFor objects.old objects.new (λ m. cond (nat_eq n m) 1 0)) }
    ensures err { OnErr result (SameSpots objects.old objects.new) }
{
    objects.lawful();
    match object {
        Object::Upper { key, last: _ } => objects.hold_key(key),
        Object::Directory => objects.hold_at(path),
        Object::Lower => objects.hold_at(path),
        Object::Other => unreachable!(),
    }
}

// Holds what is at a path whose way in is held: by one step from its directory, and the root, which
// has no way, by its path.
fn hold_step(objects: &mut ObjectTable, path: &Path, way: &Option<Way>) -> Result<u64, AllocError>
    requires { IsHeldWay objects.old path.now way.now }
    ensures holds { IfOk result (λ n. Holds objects.old objects.new (At path.now) n) }
    ensures room { room objects.new ≡ room objects.old }
    ensures err { OnErr result (SameSpots objects.old objects.new) }
{
    let Some(way) = way else {
        return objects.hold_at(path);
    };
    match path.split_last() {
        Some((name, _)) => objects.hold_below(way.directory, name),
        None => objects.hold_at(path),
    }
}

// Holds what stands at a path whose way in is held, as `hold_object` does, without a second walk.
fn hold_by_way(
    objects: &mut ObjectTable,
    path: &Path,
    way: &Option<Way>,
    object: Object,
) -> Result<u64, AllocError>
    requires stands { object ≢ stands.Other }
    requires entered { IsHeldWay objects.old path.now way.now }
    ensures holds { IfOk result (λ n. HoldsObject objects.old objects.new path.now object n) }
    ensures held { IfOk result (λ n. HoldsFor objects.old objects.new (λ m. cond (nat_eq n m) 1 0)) }
    ensures room { object ≡ stands.Lower → room objects.new ≡ room objects.old }
    ensures err { OnErr result (SameSpots objects.old objects.new) }
{
    objects.lawful();
    match object {
        Object::Upper { key, last: _ } => objects.hold_key(key),
        Object::Directory => hold_step(objects, path, way),
        Object::Lower => hold_step(objects, path, way),
        Object::Other => unreachable!(),
    }
}

// Lets the directory of a way go.
fn release_way(objects: &mut ObjectTable, way: Option<Way>)
    requires { (n : ℕ) → way_uses n way ≤ holders_of objects.old n }
    ensures fewer { AreFewer objects.old objects.new }
    ensures left { (n : ℕ) → holders_of objects.new n + way_uses n way ≡ holders_of objects.old n }
    ensures counted { AreHeld objects.new }
{
    if let Some(way) = way {
        objects.release(way.directory, 1);
    }
    objects.lawful();
}

// Holds what a handle on what stands at a path uses, by one walk: the way in, and the object. There
// is room for this to come into the upper then.
fn hold_both(
    objects: &mut ObjectTable,
    path: &Path,
    object: Object,
) -> Result<TrackedHandle, AllocError>
    requires { object ≢ stands.Other }
    ensures holds { IfOk result (λ h. HoldsBoth objects.old objects.new path.now object h) }
    ensures held { IfOk result (λ h. HoldsFor objects.old objects.new (λ n. handle_uses n h)) }
    ensures room { OnOk result (HasRoom objects.new path.now object) }
    ensures err { OnErr result (AreNoMore objects.old objects.new) }
{
    objects.lawful();
    if let Object::Lower = object {
        objects.reserve()?;
    }
    let way = hold_way(objects, path)?;
    objects.lawful();
    match hold_by_way(objects, path, &way, object) {
        Ok(number) => Ok(TrackedHandle {
            object: number,
            way,
        }),
        Err(fault) => {
            release_way(objects, way);
            Err(fault)
        }
    }
}

// Holds what a handle on a file that is to be made at a path uses: the way in, and a number that was
// nobody's. There is room for it in the upper then.
fn hold_new(objects: &mut ObjectTable, path: &Path) -> Result<TrackedHandle, AllocError>
    ensures holds { IfOk result (λ h. HoldsNew objects.old objects.new path.now h) }
    ensures held { IfOk result (λ h. HoldsFor objects.old objects.new (λ n. handle_uses n h)) }
    ensures room { OnOk result (0 < room objects.new) }
    ensures err { OnErr result (AreNoMore objects.old objects.new) }
{
    objects.lawful();
    objects.reserve()?;
    let way = hold_way(objects, path)?;
    objects.lawful();
    match objects.hold_new() {
        Ok(number) => Ok(TrackedHandle {
            object: number,
            way,
        }),
        Err(fault) => {
            release_way(objects, way);
            Err(fault)
        }
    }
}

impl<F: Callback, R: Rule> Notifier<F, R> {
    /// Takes all memory that an open of what stands at a path needs, and puts the client's
    /// descriptor on it. An allocation failure leaves what is tracked.
    pub fn prepare_open(
        &mut self,
        client: u64,
        descriptor: u32,
        path: &Path,
        object: Object,
    ) -> Result<(), AllocError>
        requires attached { is_tracked self.old.handles client ≡ true }
        requires slot { descriptor < 64 }
        requires free { tracked_by self.old.handles client descriptor ≡ None }
        requires stands { object ≢ stands.Other }
        ensures ready { OnOk result (IsReady self.old self.new client descriptor path.now object) }
        ensures room { OnOk result (HasRoom self.new.objects path.now object) }
        ensures err { OnErr result (IsBack self.old self.new) }
    {
        let handle = hold_both(&mut self.objects, path, object)?;
        self.handles.open(client, descriptor, handle);
        Ok(())
    }

    /// Takes all memory that an open needs that makes its file at a path, and puts the client's
    /// descriptor on it; the file is nowhere yet. An allocation failure leaves what is tracked.
    pub fn prepare_new(
        &mut self,
        client: u64,
        descriptor: u32,
        path: &Path,
    ) -> Result<(), AllocError>
        requires attached { is_tracked self.old.handles client ≡ true }
        requires slot { descriptor < 64 }
        requires free { tracked_by self.old.handles client descriptor ≡ None }
        ensures ready { OnOk result (IsReadyNew self.old self.new client descriptor path.now) }
        ensures room { OnOk result (0 < room self.new.objects) }
        ensures err { OnErr result (IsBack self.old self.new) }
    {
        let handle = hold_new(&mut self.objects, path)?;
        self.handles.open(client, descriptor, handle);
        Ok(())
    }

    /// Takes back an open that was prepared: all is as before. It takes no memory.
    pub fn cancel_open(&mut self, client: u64, descriptor: u32)
        ensures { (before : Notified) (h : TrackedHandle) → Readies before self.old client descriptor h → IsBack before self.new }
    {
        self.lawful();
        self.shut(client, descriptor);
        self.lawful();
    }

    // Notes what becomes of a file of a lower layer that is opened: for writing it is in the upper
    // under a key now.
    fn lift_for(&mut self, writes: bool, number: u64, object: Object, key: usize)
        requires { (p : Names) × IsNumberOf self.old.objects p object (Some number) × (writes ≡ true → MayLift self.old.objects p object key) }
        ensures lifted { (p : Names) → IsNumberOf self.old.objects p object (Some number) → Becomes (opens_to writes p object key) self.old.objects self.new.objects }
        ensures rest { self.new ≡ record self.old { objects = self.new.objects } }
    {
        if writes {
            self.lift_number(number, object, key);
        }
    }

    // Tells that an open emptied its file, where it did.
    fn tell_emptied(&mut self, is_emptied: bool, way: &Option<Way>, number: u64)
        ensures { IsTold R.shows self.old self.new (cond is_emptied (of_both way.now (Some number) MODIFY) []) }
    {
        if is_emptied {
            self.tell_both(way, Some(number), bits::MODIFY);
        }
    }

    /// Notifies that a client opened what was prepared for it; a file of a lower layer that is
    /// opened for writing is in the upper under a key by that. It takes no memory.
    pub fn opened(
        &mut self,
        client: u64,
        descriptor: u32,
        object: Object,
        key: usize,
        flags: OpenFlags,
    )
        requires { (p : Names) × IsOpenAt self.old client descriptor p object × (flags.writes ≡ true → MayLift self.old.objects p object key) }
        ensures { (before : Notified) (p : Names) → IsReady before self.old client descriptor p object → Opened R.shows (record before { objects = self.old.objects }) self.new client descriptor p object key flags }
    {
        let handle = self.handle(client, descriptor);
        self.lift_for(flags.writes, handle.object, object, key);
        self.tell_emptied(flags.truncate, &handle.way, handle.object);
        self.tell_both(&handle.way, Some(handle.object), marks(object, OPEN));
    }

    /// Notifies that a client opened a file that was made for it, which was prepared; the file is in
    /// the upper under a key. It takes no memory.
    pub fn opened_new(&mut self, client: u64, descriptor: u32, key: usize)
        requires open { IsOpenNowhere self.old client descriptor }
        requires room { 0 < room self.old.objects }
        requires vacant { IsVacant self.old.objects (Upper key) }
        ensures { (before : Notified) (p : Names) → (ready : IsReadyNew before self.old client descriptor p) → OpenedNew R.shows (record before { objects = ready.holds.mid }) self.new client descriptor p key }
    {
        self.lawful();
        let handle = self.handle(client, descriptor);
        self.rise(handle.object, key);
        self.tell_way(&handle.way, CREATE);
        self.tell_way(&handle.way, OPEN);
        self.lawful();
    }
}
