// A box that was let go: the address of its block, and the right to free that.
ghost use Rattle.std.specs.Prelude.{◌≡◌};
ghost use Rattle.std.specs.Box.Ownership.{box_owns};

use std::alloc::Allocator;
use std::marker::Model;

// What was a box, and owns the same.
pub(crate) struct Unboxed<T, A: Allocator> {
    pub(crate) block: *mut T,
    pub(crate) alloc: A,
    pub(crate) ghost value: { T },
}

impl<T, A: Allocator> Model for Unboxed<T, A> {
    ghost also_owns = { λ u. box_owns (A.dealloc_token u.alloc) T.row u.block u.value };
}

impl<T: Drop, A: Allocator> Unboxed<T, A> {
    // Lets a box go.
    pub(crate) fn of(value: Box<T, A>) -> Unboxed<T, A>
        ensures { result.value ≡ value.value }
    {
        let (block, alloc) = Box::into_raw_with_allocator(value);
        Unboxed { block, alloc }
    }

    // The box again.
    pub(crate) fn into_box(self) -> Box<T, A>
        ensures { result.value ≡ self.value }
    {
        let Unboxed { block, alloc } = self;
        unsafe { Box::from_raw(alloc, block) }
    }
}
