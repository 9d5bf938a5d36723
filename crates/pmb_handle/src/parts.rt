//! A box as its pointer and its allocator.
ghost use Rattle.std.specs.Prelude.{◌≡◌};
ghost use Rattle.std.specs.Box.Ownership.{box_owns};
ghost use Rattle.std.specs.contracts.impls.GlobalAllocator.TheImpl.{ghosts};

use std::alloc::Global;
use std::marker::Model;

/// A box that is taken apart. It owns the value behind the pointer and the right to free its block, as the
/// box did; whoever splits the two up has to see to both.
pub struct Parts<T> {
    pub ptr: *mut T,
    pub alloc: Global,
    pub ghost value: { T } by { T.code },
}

impl<T> Model for Parts<T> {
    ghost also_owns = { λ p. box_owns (ghosts.dealloc_token p.alloc) T.row p.ptr p.value };
}

impl<T: Drop> Parts<T> {
    /// Takes a box apart.
    pub fn of(whole: Box<T>) -> Parts<T>
        ensures { result.value ≡ whole.value }
    {
        let (ptr, alloc) = Box::into_raw_with_allocator(whole);
        Parts { ptr, alloc }
    }

    /// Puts the box together again.
    pub fn into_box(self) -> Box<T>
        ensures { result.value ≡ self.value }
    {
        let Parts { ptr, alloc } = self;
        unsafe { Box::from_raw(alloc, ptr) }
    }
}
