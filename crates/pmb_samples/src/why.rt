//! Why a row is a fault, in words.

ghost use Rattle.std.specs.Prelude.{◌≡◌, ◌+◌, ◌≤◌, ◌++◌, length};
ghost use Rattle.pmb_samples.specs.Lines.{why_text};
ghost use Rattle.pmb_samples.specs.declared.row.Why.TheVariants as why;

use crate::row::Why;
use arrayvec::ArrayVec;
use itoa::Buffer;

/// Why a row is a fault, in words.
pub(crate) type WhyText = ArrayVec<u8, 80>;

/// Why a row is a fault, in words.
#[tactic(auto, using(crate::proofs::WhyDigits::few_digits))]
pub(crate) fn text_of_why(why: Why) -> WhyText
    ensures { result.items ≡ why_text why }
{
    let mut text = WhyText::new();
    match why {
        Why::MakesNoSense => append(&mut text, b"makes no sense"),
        Why::DoesNotFollow => append(&mut text, b"does not follow"),
        Why::HasColumns(count, most) => append_columns(&mut text, count, most),
    }
    text
}

/// Appends that a row has this many fields, and not that many.
#[tactic(auto, using(crate::proofs::WhyDigits::few_digits))]
fn append_columns(text: &mut WhyText, count: usize, most: usize)
    requires { length text.old.items ≤ 0 }
    ensures { text.new.items ≡ why_text (why.HasColumns count most) }
{
    append(text, b"has ");
    append(text, Buffer::new().format(count).as_bytes());
    append(text, b" columns, not ");
    append(text, Buffer::new().format(most).as_bytes());
}

fn append(text: &mut WhyText, more: &[u8])
    requires { length text.old.items + length more.now ≤ 80 }
    ensures text { text.new.items ≡ text.old.items ++ more.now }
    ensures longer { length text.new.items ≡ length text.old.items + length more.now }
{
    let _ = text.try_extend_from_slice(more);
}
