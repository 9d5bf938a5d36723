//! What values are fractions over.
//!
//! Its rows: `tests_numbers`, `src/means.rt`.

ghost use Rattle.std.specs.Prelude.{◌≡◌, ◌^◌, ◌<◌};
ghost use Rattle.pmb_coefficients.specs.Coefficients.{Coefficients};
ghost use Rattle.pmb_mean.specs.Numbers.{denominator, same};
ghost use Rattle.pmb_mean.specs.Words.{denominators_of};

use pmb_format::codes::Codes;
use pmb_value::{Direct, NumberFormat, VoutFormat};

/// What the values of a format are fractions over. Values over different denominators are not put
/// together.
#[derive(Clone, Copy, Debug, PartialEq, Eq)]
pub enum Denominators {
    /// 2^24: LINEAR11, ULINEAR16, SLINEAR16 and half precision.
    Dyadic,
    /// The slope times ten to R: DIRECT with these coefficients.
    Over(Direct),
    /// 800: the tables of VID, whose steps are 1/160, 1/200 and 1/100 of a volt.
    Vids,
}

impl Denominators {
    /// What a value in a format is a fraction over.
    pub(crate) fn of(format: &NumberFormat) -> Denominators
        ensures { result ≡ denominators_of format.now }
    {
        match format {
            NumberFormat::Linear11 | NumberFormat::Linear11Fixed(_) | NumberFormat::Half => {
                Denominators::Dyadic
            }
            NumberFormat::Word(format) => Denominators::of_vout(format),
            NumberFormat::Vid(_) => Denominators::Vids,
        }
    }

    /// The same for a format of output voltages.
    fn of_vout(format: &VoutFormat) -> Denominators
        ensures { result ≡ denominators_of (NumberFormat.Word format.now) }
    {
        match format {
            VoutFormat::Unsigned(_) | VoutFormat::Signed(_) => Denominators::Dyadic,
            VoutFormat::Direct(direct) => Denominators::Over(*direct),
        }
    }

    /// The denominator: 1 to 2^15 times a billion.
    pub fn denominator(&self) -> u64
        ensures value { result ≡ denominator self.now }
        ensures some { 0 < result }
        ensures small { result < 2 ^ 46 }
    {
        match self {
            Denominators::Dyadic => 1 << 24,
            Denominators::Over(direct) => direct_denominator(direct),
            Denominators::Vids => 800,
        }
    }

    /// Whether values over these and over others are put together.
    pub(crate) fn same(&self, other: &Denominators) -> bool
        ensures { result ≡ same self.now other.now }
    {
        match self {
            Denominators::Dyadic => is_dyadic(other),
            Denominators::Over(direct) => is_over(other, direct_denominator(direct)),
            Denominators::Vids => is_vids(other),
        }
    }
}

/// The denominator of DIRECT.
fn direct_denominator(direct: &Direct) -> u64
    ensures value { result ≡ denominator (Denominators.Over direct.now) }
    ensures some { 0 < result }
    ensures small { result < 2 ^ 46 }
{
    let _slope = direct.m();
    let _scale = direct.r();
    direct.denominator()
}

fn is_dyadic(over: &Denominators) -> bool
    ensures { result ≡ same Denominators.Dyadic over.now }
{
    match over {
        Denominators::Dyadic => true,
        Denominators::Over(_) => false,
        Denominators::Vids => false,
    }
}

fn is_vids(over: &Denominators) -> bool
    ensures { result ≡ same Denominators.Vids over.now }
{
    match over {
        Denominators::Dyadic => false,
        Denominators::Over(_) => false,
        Denominators::Vids => true,
    }
}

/// Whether it is DIRECT over this denominator.
fn is_over(over: &Denominators, wanted: u64) -> bool
    ensures { (d : Coefficients) → wanted ≡ denominator (Denominators.Over d) → result ≡ same (Denominators.Over d) over.now }
{
    match over {
        Denominators::Dyadic => false,
        Denominators::Over(direct) => wanted == direct_denominator(direct),
        Denominators::Vids => false,
    }
}
