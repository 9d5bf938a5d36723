//! Which room it is, for proofs alone.
ghost use Rattle.std.specs.Prelude.{ℕ, List, []};

use std::marker::Brand;

/// The reference by which a room is lent, and the bytes that were in it before. A function over each
/// place is called at [`Brand`](std::marker::Brand), and the proof of the call says which it is.
pub trait BufferId {
    ghost name: { ℕ };

    ghost before: { List ℕ };
}

impl BufferId for Brand {
    ghost name = { 0 };

    ghost before = { [] };
}
