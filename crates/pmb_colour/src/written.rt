//! What was written so far, for proofs alone.
ghost use Rattle.std.specs.Prelude.{◌≡◌, ℕ, List, [], ◌++◌};
ghost use Rattle.std.specs.Borrow.{ftrue};

use std::marker::Model;

/// All bytes that were written so far, which only proofs read. It takes no memory, and its methods do
/// nothing at run time.
#[derive(Drop)]
pub struct Written {
    pub ghost bytes: { List ℕ },
}

// It owns nothing.
impl Model for Written {
    ghost also_owns = { λ _. ftrue };
}

impl Written {
    /// Nothing was written yet.
    pub(crate) fn new() -> Written
        ensures { result.bytes ≡ [] }
    {
        Written {}
    }

    /// Some bytes more were written.
    pub(crate) fn append(&mut self, _more: &[u8])
        ensures { self.new.bytes ≡ self.old.bytes ++ _more.now }
    {}
}
