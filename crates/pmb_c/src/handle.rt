//! A handle: one pointer in C's memory, and what the library holds behind it.
//!
//! A closed handle is null, so that C begins with `{ 0 }`. Its contracts speak of what it holds, `held`.

ghost use Rattle.std.specs.Prelude.{◌≡◌, Option, Some, None, option_map};
ghost use Rattle.std.specs.Coded.{coded_option};
ghost use Rattle.pmb_handle.specs.Owned.{handle_owns};
ghost use Rattle.pmb_c.specs.declared.held.Held.{Held as HeldData};
ghost use Rattle.pmb_c.specs.contracts.held.Held.{the_row as held_row};

use crate::held::Held;
use pmb_handle::Maybe;
use std::alloc::Global;
use std::marker::Model;
use std::mem::replace;

/// A handle.
#[repr(C)]
pub struct PmbHandle {
    at: *mut u8,
    alloc: Global,
    pub ghost held: { Option HeldData } by { coded_option held_row.coded },
}

impl Model for PmbHandle {
    ghost also_owns = { λ h. handle_owns held_row h.alloc h.at h.held };
}

unsafe impl Send for PmbHandle {}

impl PmbHandle {
    /// The pointer, with the type of what it leads to.
    fn take_apart(self) -> Maybe<Held>
        ensures { result.held ≡ self.held }
    {
        let PmbHandle { at, alloc } = self;
        Maybe {
            at: at as *mut Held,
            alloc,
        }
    }

    /// The pointer, as C has it.
    fn put_together(maybe: Maybe<Held>) -> PmbHandle
        ensures { result.held ≡ maybe.held }
    {
        let Maybe { at, alloc } = maybe;
        PmbHandle {
            at: at as *mut u8,
            alloc,
        }
    }

    /// A closed one.
    pub(crate) fn closed(alloc: Global) -> PmbHandle
        ensures { result.held ≡ None }
    {
        PmbHandle::put_together(Maybe::closed(alloc))
    }

    /// One that holds this.
    pub(crate) fn of(held: Box<Held>) -> PmbHandle
        ensures { result.held ≡ Some held.value }
    {
        PmbHandle::put_together(Maybe::of(held))
    }

    /// What it holds.
    fn into_held(self) -> Option<Box<Held>>
        ensures { option_map (λ b. b.value) result ≡ self.held }
    {
        self.take_apart().into_box()
    }

    /// Takes out what it holds: it is closed then.
    pub(crate) fn take(&mut self, alloc: Global) -> Option<Box<Held>>
        ensures held { option_map (λ b. b.value) result ≡ self.old.held }
        ensures closed { self.new.held ≡ None }
    {
        replace(self, PmbHandle::closed(alloc)).into_held()
    }
}

impl Drop for PmbHandle {
    fn drop(self) {
        drop(self.into_held());
    }
}
