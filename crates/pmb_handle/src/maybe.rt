//! A box as its pointer, or null.
ghost use Rattle.std.specs.Prelude.{◌≡◌, Option, Some, None, option_map};
ghost use Rattle.std.specs.Coded.{coded_option};
ghost use Rattle.pmb_handle.specs.Owned.{handle_owns};

use std::alloc::Global;
use std::marker::Model;
use std::ptr::null_mut;

/// What a handle for C is made of: the pointer to a box, or null, which owns nothing.
pub struct Maybe<T> {
    pub at: *mut T,
    pub alloc: Global,
    pub ghost held: { Option T } by { coded_option T.code },
}

impl<T> Model for Maybe<T> {
    ghost also_owns = { λ h. handle_owns T.row h.alloc h.at h.held };
}

impl<T> Maybe<T> {
    /// Null.
    pub fn closed(alloc: Global) -> Maybe<T>
        ensures { result.held ≡ None }
    {
        Maybe {
            at: null_mut(),
            alloc,
        }
    }
}

impl<T: Drop> Maybe<T> {
    /// The pointer of a box.
    pub fn of(held: Box<T>) -> Maybe<T>
        ensures { result.held ≡ Some held.value }
    {
        let (at, alloc) = Box::into_raw_with_allocator(held);
        Maybe { at, alloc }
    }

    /// The box that it leads to, if it isn't null.
    pub fn into_box(self) -> Option<Box<T>>
        ensures { option_map (λ b. b.value) result ≡ self.held }
    {
        let Maybe { at, alloc } = self;
        if at.is_null() {
            return None;
        }
        Some(unsafe { Box::from_raw(alloc, at) })
    }
}
