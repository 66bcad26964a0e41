// What names that come and go tell.
ghost use Rattle.std.specs.Prelude.{◌≡◌, ◌≤◌, ℕ, Some, IsSome};
ghost use Rattle.plain_model.specs.Layers.{Path as Names};
ghost use Rattle.object_table.specs.Objects.{IsBare, room, spot_of};
ghost use Rattle.notice_laws.specs.Objects.{IsNumberOf};
ghost use Rattle.notice_laws.specs.Steps.{Loses, Made, Removed, Unlinked, is_last_name};
ghost use Rattle.notice_laws.specs.Telling.{IsEnd};
ghost use Rattle.notifier.specs.Notifying.{Becomes, IsBareAt, IsOther};

use crate::bits::{ATTRIB, DELETE, ISDIR};
use crate::kept::Notifier;
use notice_laws::Object;
use ov_base::Path;
use watch_table::{Callback, Rule};

// Whether what stands at a path has no other name.
pub(crate) fn is_last_name(object: Object) -> bool
    ensures { result ≡ is_last_name object }
{
    match object {
        Object::Upper { key: _, last } => last,
        _ => true,
    }
}

impl<F: Callback, R: Rule> Notifier<F, R> {
    /// Notifies that a directory or a link was made at a path, by the bits of that event. It takes
    /// no memory.
    pub fn made(&mut self, path: &Path, bits: u32)
        requires { IsOther bits }
        ensures { Made R.shows self.old self.new path.now bits }
    {
        let way = self.way_to(path);
        self.tell_way(&way, bits);
    }

    // Notifies that what stands at a path loses this name. It gives its number, and again where the
    // object ends by it.
    pub(crate) fn lose_name(&mut self, path: &Path, object: Object) -> (Option<u64>, Option<u64>)
        requires { IsBareAt self.old.objects path.now }
        ensures number { IsNumberOf self.old.objects path.now object result.0 }
        ensures ended { IsEnd self.old.handles (is_last_name object) result.0 result.1 }
        ensures lost { Becomes (Loses path.now object) self.old.objects self.new.objects }
        ensures room { room self.old.objects ≤ room self.new.objects }
        ensures rest { self.new ≡ record self.old { objects = self.new.objects } }
    {
        self.lawful();
        let number = self.number_of(path, object);
        let is_last = is_last_name(object);
        let ended = self.end_of(number, is_last);
        self.lose_number(number, object);
        (number, ended)
    }

    // Notifies that what has this number loses a name.
    pub(crate) fn lose_number(&mut self, number: Option<u64>, object: Object)
        requires there { (n : ℕ) → number ≡ Some n → IsSome (spot_of self.old.objects n) }
        requires bare { (n : ℕ) → number ≡ Some n → IsBare self.old.objects n }
        ensures lost { (path : Names) → IsNumberOf self.old.objects path object number → Becomes (Loses path object) self.old.objects self.new.objects }
        ensures there { (n : ℕ) → IsSome (spot_of self.old.objects n) → IsSome (spot_of self.new.objects n) }
        ensures room { room self.old.objects ≤ room self.new.objects }
        ensures rest { self.new ≡ record self.old { objects = self.new.objects } }
    {
        self.lawful();
        let is_last = is_last_name(object);
        match number {
            Some(lost) if is_last => self.lose(lost),
            _ => (),
        }
    }

    /// Notifies that a name of a file or link is gone. It takes no memory.
    pub fn unlinked(&mut self, path: &Path, object: Object)
        requires { IsBareAt self.old.objects path.now }
        ensures { Unlinked R.shows self.old self.new path.now object }
    {
        let way = self.way_to(path);
        let (number, ended) = self.lose_name(path, object);
        self.tell_way(&way, DELETE);
        self.tell_number(number, ATTRIB);
        self.tell_end(ended);
    }

    /// Notifies that a directory is gone. It takes no memory.
    pub fn removed(&mut self, path: &Path)
        requires { IsBareAt self.old.objects path.now }
        ensures { Removed R.shows self.old self.new path.now }
    {
        let way = self.way_to(path);
        let (_, ended) = self.lose_name(path, Object::Directory);
        self.tell_way(&way, DELETE + ISDIR);
        self.tell_end(ended);
    }
}
