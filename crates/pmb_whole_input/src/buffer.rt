//! What is put out waits here.

ghost use Rattle.std.specs.Prelude.{◌≡◌, [], IfSome};

use pmb_io::Waiting;
use std::alloc::Global;

/// A buffer in which nothing waits, on the heap. It is never inlined, so that its caller has none.
#[inline(never)]
pub(crate) fn empty_buffer(alloc: Global) -> Option<Box<Waiting>>
    ensures { IfSome result (λ buffer. buffer.value.items ≡ []) }
{
    match Box::new(alloc, Waiting::new()) {
        Ok(buffer) => Some(buffer),
        Err(_) => None,
    }
}
