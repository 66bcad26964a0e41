// What changes of attributes and further names tell.
ghost use Rattle.std.specs.Prelude.{◌≡◌, OnOk, Some};
ghost use Rattle.plain_model.specs.Layers.{Path as Names};
ghost use Rattle.object_table.specs.Objects.{SameSpots};
ghost use Rattle.notice_laws.specs.Objects.{IsNumberOf};
ghost use Rattle.notice_laws.specs.Steps.{Altered, Lifts, Linked};
ghost use Rattle.notifier.specs.Notifying.{Becomes, HasRoom, IsFree, MayLift};

use crate::bits::{ATTRIB, CREATE};
use crate::kept::Notifier;
use crate::telling::marks;
use notice_laws::Object;
use ov_base::Path;
use std::alloc::AllocError;
use watch_table::{Callback, Rule};

impl<F: Callback, R: Rule> Notifier<F, R> {
    /// Makes room for what stands at a path to come into the upper, where that is a file of a lower layer that is tracked. Nothing that is
    /// kept changes by it.
    pub fn prepare_lift(&mut self, path: &Path, object: Object) -> Result<(), AllocError>
        ensures same { SameSpots self.old.objects self.new.objects }
        ensures rest { self.new ≡ record self.old { objects = self.new.objects } }
        ensures room { OnOk result (HasRoom self.new.objects path.now object) }
    {
        match object {
            Object::Lower if self.number_of(path, object).is_some() => self.reserve(),
            _ => Ok(()),
        }
    }

    // Notifies that what stands at a path, where it is a file of a lower layer, is in the upper
    // under a key now. It gives its number.
    pub(crate) fn lift(&mut self, path: &Path, object: Object, key: usize) -> Option<u64>
        requires room { HasRoom self.old.objects path.now object }
        requires free { IsFree self.old.objects path.now object key }
        ensures number { IsNumberOf self.old.objects path.now object result }
        ensures lifted { Becomes (Lifts path.now object key) self.old.objects self.new.objects }
        ensures rest { self.new ≡ record self.old { objects = self.new.objects } }
    {
        let number = self.number_of(path, object);
        if let Some(risen) = number {
            self.lift_number(risen, object, key);
        }
        number
    }

    // Notes that the object of a number, where it is a file of a lower layer, is in the upper under
    // a key now.
    pub(crate) fn lift_number(&mut self, number: u64, object: Object, key: usize)
        requires { (p : Names) × IsNumberOf self.old.objects p object (Some number) × MayLift self.old.objects p object key }
        ensures lifted { (p : Names) → IsNumberOf self.old.objects p object (Some number) → Becomes (Lifts p object key) self.old.objects self.new.objects }
        ensures rest { self.new ≡ record self.old { objects = self.new.objects } }
    {
        self.lawful();
        if let Object::Lower = object {
            self.rise(number, key);
        }
    }

    /// Notifies that attributes of what stands at a path changed; a file of a lower layer is in the
    /// upper under a key by that. It takes no memory.
    pub fn altered(&mut self, path: &Path, object: Object, key: usize)
        requires room { HasRoom self.old.objects path.now object }
        requires free { IsFree self.old.objects path.now object key }
        ensures { Altered R.shows self.old self.new path.now object key }
    {
        let way = self.way_to(path);
        let number = self.lift(path, object, key);
        self.tell_both(&way, number, marks(object, ATTRIB));
    }

    /// Notifies that what stands at the old path has the new path too; a file of a lower layer is
    /// in the upper under a key by that. It takes no memory.
    pub fn linked(&mut self, old: &Path, new: &Path, object: Object, key: usize)
        requires room { HasRoom self.old.objects old.now object }
        requires free { IsFree self.old.objects old.now object key }
        ensures { Linked R.shows self.old self.new old.now new.now object key }
    {
        let way = self.way_to(new);
        let number = self.lift(old, object, key);
        self.tell_way(&way, CREATE);
        self.tell_number(number, ATTRIB);
    }
}
