//! A short word and a space, as most bytes of a capture come.

ghost use Rattle.std.specs.Prelude.{◌≡◌};
ghost use Rattle.pmb_places.specs.ShortWord.{IsShortWord, is_plain};

/// Whether bytes are a short word and a space, by the numbers of the word's bytes alone. They are
/// so where the bytes before them end in no comment.
#[derive(Clone, Copy)]
pub enum ShortWord {
    /// A word of one byte.
    One,
    /// A word of two.
    Two,
    /// They may be anything.
    Other,
}

/// Whether a byte's number is above that of `#`. Then it is one of a word wherever it stands in no
/// comment: the separators and `#` have lower numbers.
#[inline]
fn is_plain(byte: u8) -> bool
    ensures { result ≡ is_plain byte }
{
    byte > b'#'
}

/// What bytes are.
#[inline]
pub fn short_word(bytes: &[u8]) -> ShortWord
    ensures { IsShortWord result bytes.now }
{
    match bytes {
        [first, last] if is_plain(*first) && *last == b' ' => ShortWord::One,
        [first, second, last] if (is_plain(*first) && is_plain(*second)) && *last == b' ' => {
            ShortWord::Two
        }
        _ => ShortWord::Other,
    }
}
