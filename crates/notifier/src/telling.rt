// What is told of objects and of names in directories.
ghost use Rattle.notice_laws.specs.Telling.{in_way, marks, of_both, of_end, of_number};
ghost use Rattle.std.specs.Prelude.{◌≡◌, ◌+◌, ◌<◌, ◌^◌};
ghost use Rattle.notifier.specs.Notifying.{IsOther, IsTold};

use crate::bits::{DELETE_SELF, ISDIR};
use crate::kept::Notifier;
use notice_laws::Object;
use open_handles::Way;
use watch_table::{Callback, IGNORED, Rule};

// The bits of an event, with ISDIR where a directory stands there.
pub(crate) fn marks(object: Object, bits: u32) -> u32
    requires { bits < 2 ^ 30 }
    ensures { result ≡ marks object bits }
{
    match object {
        Object::Directory => bits + ISDIR,
        _ => bits,
    }
}

impl<F: Callback, R: Rule> Notifier<F, R> {
    // Tells the directory of a way, with the name.
    pub(crate) fn tell_way(&mut self, way: &Option<Way>, bits: u32)
        requires { IsOther bits }
        ensures { IsTold R.shows self.old self.new (in_way way.now bits 0) }
    {
        if let Some(way) = way {
            self.tell(way.directory, bits, 0, Some(&way.name));
        }
    }

    // Tells the object of a number.
    pub(crate) fn tell_number(&mut self, number: Option<u64>, bits: u32)
        requires { IsOther bits }
        ensures { IsTold R.shows self.old self.new (of_number number bits) }
    {
        if let Some(number) = number {
            self.tell(number, bits, 0, None);
        }
    }

    // Tells both.
    pub(crate) fn tell_both(&mut self, way: &Option<Way>, number: Option<u64>, bits: u32)
        requires { IsOther bits }
        ensures { IsTold R.shows self.old self.new (of_both way.now number bits) }
    {
        self.tell_way(way, bits);
        self.tell_number(number, bits);
    }

    // Tells the end of an object.
    pub(crate) fn tell_end(&mut self, ended: Option<u64>)
        ensures { IsTold R.shows self.old self.new (of_end ended) }
    {
        self.tell_number(ended, DELETE_SELF);
        self.tell_number(ended, IGNORED);
    }
}
