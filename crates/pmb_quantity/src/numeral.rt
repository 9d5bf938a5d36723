//! The parts of a quantity's text.
//!
//! Its rows: `tests_numbers`, `src/formats/quantity.rt`; `tests/rows/numbers.txt`.
ghost use Rattle.std.specs.Prelude.{◌≡◌, ◌≤◌, length, IfSome};
ghost use Rattle.std.specs.Bool.{OnTrue};
ghost use Rattle.std.specs.Str.Parse.{AllDigits};
ghost use Rattle.std.specs.Char.{is_ascii_digit};
ghost use Rattle.std.specs.List.{prefix_len, list_all};
ghost use Rattle.pmb_quantity.specs.Reading.{are_digits, marked, numeral_of};
ghost use Rattle.pmb_quantity.specs.machine.Numeral.{views, HasDigits};

/// The digits of a text without a sign.
#[derive(Clone, Copy)]
pub(crate) enum Numeral<'a> {
    /// The digits before a point and after it, or all of them and none.
    Point(&'a [u8], &'a [u8]),
    /// The digits before a slash and after it.
    Slash(&'a [u8], &'a [u8]),
}

/// What a text without a sign writes, if its form is a quantity's.
pub(crate) fn numeral_of(text: &[u8]) -> Option<Numeral<'_>>
    ensures value { views result ≡ numeral_of text.now }
    ensures digits { IfSome result HasDigits }
{
    let (front, rest) = text.split_at(digits_len(text));
    if front.is_empty() {
        return None;
    }
    match rest {
        [] => Some(Numeral::Point(front, rest)),
        [mark, back @ ..] => {
            if is_number(back) {
                marked(*mark, front, back)
            } else {
                None
            }
        }
    }
}

/// What digits, a mark and digits write.
fn marked<'a>(mark: u8, front: &'a [u8], back: &'a [u8]) -> Option<Numeral<'a>>
    requires front { AllDigits 10 front.now }
    requires back { AllDigits 10 back.now }
    ensures value { views result ≡ marked mark front.now back.now }
    ensures digits { IfSome result HasDigits }
{
    match mark {
        b'.' => Some(Numeral::Point(front, back)),
        b'/' => Some(Numeral::Slash(front, back)),
        _ => None,
    }
}

/// How many digits a text begins with.
fn digits_len(text: &[u8]) -> usize
    ensures value { result ≡ prefix_len is_ascii_digit text.now }
    ensures within { result ≤ length text.now }
{
    text.iter().take_while(|byte| byte.is_ascii_digit()).count()
}

/// Whether a text is one digit or more, and nothing else.
fn is_number(text: &[u8]) -> bool
    ensures value { result ≡ are_digits text.now }
    ensures digits { OnTrue result (AllDigits 10 text.now) }
{
    !text.is_empty() && is_all_digits(text)
}

/// Whether a text is digits alone.
fn is_all_digits(text: &[u8]) -> bool
    ensures { result ≡ list_all is_ascii_digit text.now }
{
    text.iter().all(|byte| byte.is_ascii_digit())
}
