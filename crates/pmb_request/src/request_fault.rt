//! Why a line spells no request, and the text of that.
//!
//! Its rows: `tests_lines`, `src/requests/rows.rt`; `tests/rows/requests.txt`.

ghost use Rattle.std.specs.Prelude.{◌≡◌, ◌≤◌, length};
ghost use Rattle.pmb_request.specs.RequestFault.{fault_text, quantity_fault_name};

use arrayvec::ArrayVec;
use pmb_line::{FaultText, LineFault, WordFault};
use pmb_quantity::QuantityFault;

/// Why a line spells no request.
#[derive(Clone, Copy, Debug, PartialEq, Eq)]
pub enum RequestFault {
    /// Of its words: `Blank`, `BadWord` or `TooLong`, as in the lines of transactions.
    Line(LineFault),
    /// Its words all fit, but that of its quantity spells none.
    Quantity(QuantityFault),
}

impl RequestFault {
    /// The fault as it is written: the name of what is wrong, with ` at ` and the place where it has
    /// one.
    pub fn text(self) -> FaultText
        ensures { result.items ≡ fault_text self }
    {
        match self {
            RequestFault::Line(fault) => fault.text(),
            RequestFault::Quantity(fault) => {
                let mut text = FaultText::new();
                let _ = text.try_extend_from_slice(name_of(fault));
                text
            }
        }
    }
}

impl From<WordFault> for RequestFault {
    ghost use Rattle.std.specs.Prelude.{◌≡◌};
    ghost use Rattle.pmb_request.specs.RequestFault.{of_words};

    ghost from_gives = { λ fault made. made ≡ of_words fault };

    fn from(fault: WordFault) -> RequestFault {
        RequestFault::Line(LineFault::of_words(fault))
    }
}

fn name_of(fault: QuantityFault) -> &'static [u8]
    ensures name { result.now ≡ quantity_fault_name fault }
    ensures short { length result.now ≤ 15 }
{
    match fault {
        QuantityFault::Empty => b"Empty",
        QuantityFault::BadDigit => b"BadDigit",
        QuantityFault::ZeroDenominator => b"ZeroDenominator",
        QuantityFault::TooLarge => b"TooLarge",
    }
}
