//! What is known of a writer that paints from its start on, for proofs alone.
ghost use Rattle.std.specs.Prelude.{ℕ, List, Option, None};
ghost use Rattle.pmb_colour.specs.declared.lines.Lines.{Lines as Painting};

use std::marker::Brand;

/// How a writer that paints began, which only proofs read. A function over each is called at
/// [`Brand`](std::marker::Brand), and the proof of the call says which it is.
pub trait Start {
    /// What the other writer held, where it tells that.
    ghost before: { Option (List ℕ) };

    /// What lines are painted, if any are.
    ghost lines: { Option Painting };
}

impl Start for Brand {
    ghost before = { None };

    ghost lines = { None };
}
