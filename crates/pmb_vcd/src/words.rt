//! The words of a line, which stand between blanks and TABs.

ghost use Rattle.std.specs.Prelude.{◌≡◌, ◌∷◌, [], length, IfSome, IfNone};
ghost use Rattle.pmb_vcd.specs.Words.{behind_blanks, is_blank, word_at, words};

/// The first word of a text, and what follows it; `None` where there is none.
pub fn first_word(text: &[u8]) -> Option<(&[u8], &[u8])>
    ensures some { IfSome result (λ found. words text.now ≡ found.0.now ∷ words found.1.now) }
    ensures none { IfNone result (words text.now ≡ []) }
{
    let from = from_word(text);
    if from.is_empty() {
        return None;
    }
    let (word, rest) = from.split_at(word_length(from));
    Some((word, rest))
}

/// A text from its first word on, empty where it has none.
fn from_word(text: &[u8]) -> &[u8]
    ensures { result.now ≡ behind_blanks text.now }
{
    let mut left = text;
    while let [byte, rest @ ..] = left {
        if !blank(*byte) {
            return left;
        }
        left = rest;
    }
    left
}

/// How many bytes the word has with which a text begins.
fn word_length(text: &[u8]) -> usize
    ensures { result ≡ length (word_at text.now) }
{
    let mut length = 0;
    let mut left = text;
    while let [byte, rest @ ..] = left {
        if blank(*byte) {
            return length;
        }
        length += 1;
        left = rest;
    }
    length
}

#[inline]
fn blank(byte: u8) -> bool
    ensures { result ≡ is_blank byte }
{
    byte == b' ' || byte == b'\t'
}
