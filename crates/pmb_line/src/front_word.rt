//! Words that stand as they do in most lines, told at a look: a byte after a space, with a space or
//! the line's end after it; `write` and `read` at the front, `:` between spaces, `pec` at the end.
//!
//! Its rows: `tests_lines`, `src/lines/rows.rt`.

ghost use Rattle.std.specs.Prelude.{◌≡◌, IfSome, true};
ghost use Rattle.pmb_line.specs.machine.Front.{EndsWord, IsFront, common_byte};

use crate::token::{Token, byte};

/// The first word of a text: where it begins and ends, and what it says.
#[derive(Clone, Copy, Drop)]
pub(crate) struct FrontWord {
    pub(crate) start: usize,
    pub(crate) end: usize,
    pub(crate) token: Token,
}

impl FrontWord {
    /// A byte after a space.
    #[inline(always)]
    pub(crate) fn common_byte(byte: u8) -> FrontWord
        ensures { result ≡ common_byte byte }
    {
        FrontWord {
            start: 1,
            end: 3,
            token: Token::Byte(byte),
        }
    }
}

/// The byte that the first word is, where it stands so.
#[inline(always)]
pub(crate) fn common_byte(text: &[u8]) -> Option<u8>
    ensures { IfSome result (λ byte. IsFront text.now (common_byte byte)) }
{
    let [b' ', high, low, behind @ ..] = text else {
        return None;
    };
    if !is_word_before(behind) {
        return None;
    }
    byte(&[*high, *low])
}

/// The first word, where it is another one that stands so.
#[inline(always)]
pub(crate) fn common_keyword(text: &[u8]) -> Option<FrontWord>
    ensures { IfSome result (IsFront text.now) }
{
    match text {
        [b'w', b'r', b'i', b't', b'e', b' ', ..] => Some(FrontWord {
            start: 0,
            end: 5,
            token: Token::Write,
        }),
        [b'r', b'e', b'a', b'd', b' ', ..] => Some(FrontWord {
            start: 0,
            end: 4,
            token: Token::Read,
        }),
        [b' ', b':', b' ', ..] => Some(FrontWord {
            start: 1,
            end: 2,
            token: Token::Colon,
        }),
        [b' ', b'p', b'e', b'c'] => Some(FrontWord {
            start: 1,
            end: 4,
            token: Token::Pec,
        }),
        _ => None,
    }
}

/// Whether a word at the front of a text ends there, since the text is empty or begins with a
/// space.
#[inline]
fn is_word_before(text: &[u8]) -> bool
    ensures { result ≡ true → EndsWord text.now }
{
    match text {
        [] => true,
        [next, ..] => *next == b' ',
    }
}
