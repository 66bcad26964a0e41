// What renames hold beforehand, lead along and tell.
ghost use Rattle.std.specs.Prelude.{◌≡◌, ◌≢◌, ℕ, suc, ◌+◌, ◌*◌, ◌<◌, ◌^◌, [], None, Some, IsSome, IfSome, OnErr, OnOk, length, reverse, true};
ghost use Rattle.ov_base.specs.Cookies as cookies;
ghost use Rattle.plain_model.specs.Watching.{MOVES, is_one_of};
ghost use Rattle.object_table.specs.Objects.{IsBare, IsPrepared, IsVacant, SameSpots, SetsSpot, Spot, Upper, holders_of, room, spot_of};
ghost use Rattle.open_handles.specs.TrackedHandles.{clients_of};
ghost use Rattle.notice_laws.specs.declared.object.Object.TheVariants as objects;
ghost use Rattle.notice_laws.specs.Moves.{Moved, Moves, ReWays, of_replaced};
ghost use Rattle.notice_laws.specs.Objects.{IsNumberOf};
ghost use Rattle.notice_laws.specs.Opens.{AreFewer};
ghost use Rattle.notice_laws.specs.Telling.{in_way};
ghost use Rattle.notifier.specs.Notifying.{Becomes, HasRoom, IsBareAt, IsTold};
ghost use Rattle.notifier.specs.Moving.{IsFreeFor, IsHeldFor, IsPin, IsPinOf, IsPinned, IsPlaceFor, IsReady, LetsGo, MayHold, MayHoldAt, led_by};

use crate::bits::{ATTRIB, MOVE_SELF, MOVED_FROM, MOVED_TO};
use crate::kept::Notifier;
use crate::names::is_last_name;
use crate::telling::marks;
use notice_laws::{Object, Pin};
use open_handles::Way;
use ov_base::{Name, Path, cookie_of};
use std::alloc::AllocError;
use watch_table::{Callback, Rule};

// What a rename finds: the number of what moves, the ways to its old path and to its new one, and the number of what is replaced.
#[derive(Clone, Copy)]
struct Course {
    number: Option<u64>,
    from: Option<Way>,
    to: Option<Way>,
    replaced: Option<u64>,
}

impl<F: Callback, R: Rule> Notifier<F, R> {
    /// Takes the memory that a rename of what stands at the old path to the new one needs, whose
    /// directory is there. Nothing that is shown changes by it: the new directory may be held, which
    /// `cancel_move` lets go. Where memory runs out, nothing is held.
    pub fn prepare_move(&mut self, old: &Path, new: &Path, object: Object) -> Result<(), AllocError>
        requires clients { 64 * length (clients_of self.old.handles) < 2 ^ 64 }
        requires below { new.now ≢ [] }
        ensures held { OnOk result (IsHeldFor self.old self.new new.now) }
        ensures ready { OnOk result (IsReady self.new old.now new.now object) }
        ensures err { OnErr result (LetsGo self.old self.new) }
    {
        self.cancel_move();
        self.lawful();
        match self.reserve_move(old, new, object) {
            Ok(()) => Ok(()),
            Err(fault) => {
                self.cancel_move();
                self.lawful();
                Err(fault)
            }
        }
    }

    // `prepare_move`, where no rename holds anything; where memory runs out, this one may.
    fn reserve_move(&mut self, old: &Path, new: &Path, object: Object) -> Result<(), AllocError>
        requires clients { 64 * length (clients_of self.old.handles) < 2 ^ 64 }
        requires unpinned { self.old.pinned ≡ None }
        requires below { new.now ≢ [] }
        ensures held { MayHold self.old.objects self.new.objects new.now }
        ensures rest { self.new ≡ record self.old { objects = self.new.objects; pinned = self.new.pinned } }
        ensures ready { OnOk result (IsReady self.new old.now new.now object) }
    {
        if self.renames == u64::MAX {
            return Err(AllocError);
        }
        let number = self.number_of(old, object);
        self.pin_ways(old, new, number)?;
        self.prepare_spots(old, new, object, number)
    }

    // Takes the memory for what is tracked to go along with a rename of what has this number.
    fn prepare_spots(
        &mut self,
        old: &Path,
        new: &Path,
        object: Object,
        number: Option<u64>,
    ) -> Result<(), AllocError>
        requires { IsNumberOf self.old.objects old.now object number }
        ensures same { SameSpots self.old.objects self.new.objects }
        ensures rest { self.new ≡ record self.old { objects = self.new.objects } }
        ensures room { OnOk result (HasRoom self.new.objects old.now object) }
        ensures prepared { OnOk result (object ≡ objects.Directory → IsPrepared self.new.objects old.now new.now) }
    {
        match object {
            Object::Directory => self.objects.prepare_rename(old, new),
            Object::Lower if number.is_some() => self.reserve(),
            _ => Ok(()),
        }
    }

    // Holds the new directory once for each handle on what moves, by its number, that came by the old way.
    fn pin_ways(&mut self, old: &Path, new: &Path, number: Option<u64>) -> Result<(), AllocError>
        requires clients { 64 * length (clients_of self.old.handles) < 2 ^ 64 }
        requires unpinned { self.old.pinned ≡ None }
        requires below { new.now ≢ [] }
        ensures held { MayHold self.old.objects self.new.objects new.now }
        ensures rest { self.new ≡ record self.old { objects = self.new.objects; pinned = self.new.pinned } }
        ensures pinned { OnOk result ((object : Object) → IsNumberOf self.old.objects old.now object number → IsPinned self.new old.now new.now object) }
        ensures known { (object : Object) → IsNumberOf self.old.objects old.now object number → IsNumberOf self.new.objects old.now object number }
    {
        let from = self.way_to(old);
        let count = self.count_by(number, from);
        if count == 0 {
            return Ok(());
        }
        match new.split_last() {
            Some((_, parents)) => {
                let pinned = self.pin(parents, count);
                self.lawful();
                pinned
            }
            None => Ok(()),
        }
    }

    // How many handles are on the object of a number by exactly this way.
    fn count_by(&self, number: Option<u64>, way: Option<Way>) -> usize
        requires { 64 * length (clients_of self.now.handles) < 2 ^ 64 }
        ensures { result ≡ led_by self.now.handles number way }
    {
        match (number, way) {
            (Some(number), Some(way)) => self.handles.count_by(number, &way),
            _ => 0,
        }
    }

    // Holds what is at the path of names from the root down so often, for a rename that is under way.
    fn pin(&mut self, directory: &[Name], count: usize) -> Result<(), AllocError>
        requires unpinned { self.old.pinned ≡ None }
        requires some { 0 < count }
        ensures held { MayHoldAt self.old.objects self.new.objects (reverse directory.now) }
        ensures rest { self.new ≡ record self.old { objects = self.new.objects; pinned = self.new.pinned } }
        ensures pinned { OnOk result (IsPinOf self.new (reverse directory.now) count) }
        ensures kept { (n : ℕ) (spot : Spot) → spot_of self.old.objects n ≡ Some spot → spot_of self.new.objects n ≡ Some spot }
    {
        self.lawful();
        let number = self.objects.hold_at_names(directory)?;
        let more = self.objects.hold(number, count - 1);
        let count = if more.is_ok() { count } else { 1 };
        self.pinned = Some(Pin { number, count });
        more
    }

    /// Gives up a rename that was prepared, and lets go what it held. It takes no memory.
    pub fn cancel_move(&mut self)
        ensures fewer { AreFewer self.old.objects self.new.objects }
        ensures unpinned { self.new.pinned ≡ None }
        ensures rest { self.new ≡ record self.old { objects = self.new.objects; pinned = None } }
    {
        if let Some(pin) = self.pinned {
            self.objects.release(pin.number, pin.count);
        }
        self.pinned = None;
        self.objects.cancel_rename();
    }

    // Leads what is tracked along with a rename: a directory with all below it, a file of a lower layer into the upper. What is replaced
    // loses a name.
    fn move_numbers(
        &mut self,
        old: &Path,
        new: &Path,
        object: Object,
        replaced: Object,
        key: usize,
        course: &Course,
    )
        requires found { IsNumberOf self.old.objects old.now object course.now.number }
        requires present { IsNumberOf self.old.objects new.now replaced course.now.replaced }
        requires ready { IsReady self.old old.now new.now object }
        requires bare { IsBareAt self.old.objects new.now }
        requires free { IsFreeFor self.old.objects old.now new.now object replaced key }
        requires place { object ≡ objects.Directory → IsPlaceFor self.old old.now new.now replaced }
        ensures moves { Becomes (Moves old.now new.now object replaced key) self.old.objects self.new.objects }
        ensures rest { self.new ≡ record self.old { objects = self.new.objects } }
    {
        self.lawful();
        match object {
            Object::Directory => self.objects.rename(old, new),
            Object::Lower => {
                self.lose_number(course.replaced, replaced);
                self.rise_number(course.number, key);
            }
            _ => self.lose_number(course.replaced, replaced),
        }
    }

    // Tells that a file of a lower layer, by its number, was copied up: it is in the upper under a key now.
    fn rise_number(&mut self, number: Option<u64>, key: usize)
        requires there { (n : ℕ) → number ≡ Some n → IsSome (spot_of self.old.objects n) }
        requires low { (n k : ℕ) → number ≡ Some n → spot_of self.old.objects n ≢ Some (Upper k) }
        requires bare { (n : ℕ) → number ≡ Some n → IsBare self.old.objects n }
        requires vacant { (n : ℕ) → number ≡ Some n → IsVacant self.old.objects (Upper key) }
        requires room { (n : ℕ) → number ≡ Some n → 0 < room self.old.objects }
        ensures rises { IfSome number (λ n. SetsSpot self.old.objects self.new.objects n (Some (Upper key)) (holders_of self.old.objects n)) }
        ensures none { number ≡ None → self.new.objects ≡ self.old.objects }
        ensures rest { self.new ≡ record self.old { objects = self.new.objects } }
    {
        if let Some(risen) = number {
            self.rise(risen, key);
        }
    }

    // Leads the handles on what moves that came by the old way to the new one, whose directory was held for them. The old directory is let
    // go as often. Where it was held for none, no handle is looked at.
    fn lead_ways(&mut self, course: &Course)
        requires { IsPin course.now.to (led_by self.old.handles course.now.number course.now.from) self.old.pinned }
        ensures ways { ReWays self.old.handles self.new.handles course.now.number course.now.from course.now.to }
        ensures clients { clients_of self.new.handles ≡ clients_of self.old.handles }
        ensures fewer { AreFewer self.old.objects self.new.objects }
        ensures instances { self.new.instances ≡ self.old.instances }
        ensures renames { self.new.renames ≡ self.old.renames }
    {
        let Some(pin) = self.pinned else {
            return;
        };
        let Some(number) = course.number else {
            return;
        };
        let Some(from) = &course.from else {
            return;
        };
        let Some(to) = course.to else {
            return;
        };
        self.handles.re_way(number, from, to);
        self.objects.release(from.directory, pin.count);
        self.pinned = None;
    }

    // Counts a rename that moves something, and gives its cookie.
    fn count_rename(&mut self) -> u32
        requires { self.old.renames + 1 < 2 ^ 64 }
        ensures cookie { result ≡ cookies.cookie_of (suc self.old.renames) }
        ensures rest { self.new ≡ record self.old { renames = suc self.old.renames } }
    {
        self.renames += 1;
        cookie_of(self.renames)
    }

    // Tells the directory of a way that a name moved out of it or into it.
    fn tell_move(&mut self, way: &Option<Way>, bits: u32, cookie: u32)
        requires bits { is_one_of MOVES bits ≡ true }
        requires cookie { cookie ≢ 0 }
        ensures { IsTold R.shows self.old self.new (in_way way.now bits cookie) }
    {
        if let Some(way) = way {
            self.tell(way.directory, bits, cookie, Some(&way.name));
        }
    }

    // Tells what was replaced that it has a name less, where it is no directory.
    fn tell_replaced(&mut self, replaced: Object, number: Option<u64>)
        ensures { IsTold R.shows self.old self.new (of_replaced replaced number) }
    {
        match replaced {
            Object::Directory => (),
            _ => self.tell_number(number, ATTRIB),
        }
    }

    /// Notifies that what stood at the old path moved to the new one, where something else was
    /// replaced, or nothing; a file of a lower layer is in the upper under a key by that. It takes
    /// no memory, which `prepare_move` took.
    pub fn moved(&mut self, old: &Path, new: &Path, object: Object, replaced: Object, key: usize)
        requires ready { IsReady self.old old.now new.now object }
        requires bare { IsBareAt self.old.objects new.now }
        requires free { IsFreeFor self.old.objects old.now new.now object replaced key }
        requires place { object ≡ objects.Directory → IsPlaceFor self.old old.now new.now replaced }
        ensures { Moved R.shows self.old self.new old.now new.now object replaced key }
    {
        self.lawful();
        let course = Course {
            number: self.number_of(old, object),
            from: self.way_to(old),
            to: self.way_to(new),
            replaced: self.number_of(new, replaced),
        };
        let is_last = is_last_name(replaced);
        let ended = self.end_of(course.replaced, is_last);
        self.move_numbers(old, new, object, replaced, key, &course);
        self.lead_ways(&course);
        let cookie = self.count_rename();
        self.tell_move(&course.from, marks(object, MOVED_FROM), cookie);
        self.tell_move(&course.to, marks(object, MOVED_TO), cookie);
        self.tell_replaced(replaced, course.replaced);
        self.tell_number(course.number, MOVE_SELF);
        self.tell_end(ended);
    }
}
