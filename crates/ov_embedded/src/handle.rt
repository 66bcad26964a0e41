// What a C program holds.
ghost use Rattle.std.specs.Prelude.{◌≡◌, Option};
ghost use Rattle.std.specs.declared.option.Option.TheVariants.{None, Some};
ghost use Rattle.std.specs.Option.{MatchOption};
ghost use Rattle.std.specs.contracts.impls.GlobalAllocator.TheImpl.{ghosts};
ghost use Rattle.ov_embedded.specs.declared.mounted.Mounted.{Mounted};
ghost use Rattle.ov_embedded.specs.contracts.mounted.Mounted.{the_row};
ghost use Rattle.ov_embedded.specs.Holding.{holds, mounted_coded};

use crate::mounted::Mounted;
use crate::unboxed::Unboxed;
use std::alloc::Global;
use std::marker::Model;
use std::{mem, ptr};

/// What a C program holds: a mount, or a null pointer.
#[repr(C)]
pub struct Handle {
    at: *mut u8,
    alloc: Global,
    pub ghost mounted: { Option Mounted } by { mounted_coded },
}

impl Model for Handle {
    ghost also_owns = { λ h. holds (ghosts.dealloc_token h.alloc) the_row h.at h.mounted };
}

impl Handle {
    /// A handle of nothing.
    pub(crate) fn empty(alloc: Global) -> Handle
        ensures { result.mounted ≡ None }
    {
        Handle {
            at: ptr::null_mut(),
            alloc,
        }
    }

    // A handle of what was a box.
    fn of_unboxed(mounted: Unboxed<Mounted, Global>) -> Handle
        ensures { result.mounted ≡ Some mounted.value }
    {
        let Unboxed { block, alloc } = mounted;
        Handle {
            at: block as *mut u8,
            alloc,
        }
    }

    // What was a box, if there is one.
    fn into_unboxed(self) -> Option<Unboxed<Mounted, Global>>
        ensures { MatchOption result (self.mounted ≡ None) (λ it. self.mounted ≡ Some it.value) }
    {
        let Handle { at, alloc } = self;
        if at.is_null() {
            None
        } else {
            Some(Unboxed {
                block: at as *mut Mounted,
                alloc,
            })
        }
    }

    /// A handle of this mount.
    pub(crate) fn of(mounted: Box<Mounted>) -> Handle
        ensures { result.mounted ≡ Some mounted.value }
    {
        Handle::of_unboxed(Unboxed::of(mounted))
    }

    /// The mount, if there is one.
    fn into_box(self) -> Option<Box<Mounted>>
        ensures { MatchOption result (self.mounted ≡ None) (λ it. self.mounted ≡ Some it.value) }
    {
        match self.into_unboxed() {
            Some(mounted) => Some(mounted.into_box()),
            None => None,
        }
    }

    /// The mount of a handle, which has none then.
    pub(crate) fn take(&mut self, alloc: Global) -> Option<Box<Mounted>>
        ensures gone { self.new.mounted ≡ None }
        ensures mounted { MatchOption result (self.old.mounted ≡ None)
            (λ it. self.old.mounted ≡ Some it.value) }
    {
        mem::replace(self, Handle::empty(alloc)).into_box()
    }
}

impl Drop for Handle {
    fn drop(self) {
        drop(self.into_box());
    }
}

unsafe impl Send for Handle {}
