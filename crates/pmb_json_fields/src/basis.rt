//! What the VOUT_MODE of a value rests on.
//!
//! Its rows: `tests_json`, `src/fields/voltages.rt`.

ghost use Rattle.std.specs.Prelude.{◌≡◌};
ghost use Rattle.pmb_json_fields.specs.Value.{basis_of};

/// What the VOUT_MODE rests on by which an output voltage is read.
#[derive(Clone, Copy, Debug, PartialEq, Eq)]
pub enum Basis {
    /// The bus told it.
    Told,
    /// It is assumed: a capture that begins in the middle would not have told it.
    Assumed,
}

impl Basis {
    /// By whether it is assumed.
    pub fn of(assumed: bool) -> Basis
        ensures { result ≡ basis_of assumed }
    {
        if assumed { Basis::Assumed } else { Basis::Told }
    }
}
