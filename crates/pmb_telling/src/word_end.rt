//! How far a word and a line go.
//!
//! Its rows: `tests/rows/json_objects.txt`, words that are no token.

ghost use Rattle.std.specs.Prelude.{◌≡◌, ◌≢◌, ◌⊎◌, ◌+◌, ◌<◌, ◌≤◌, [], MatchBool, MatchOption, IfSome, drop, length, take};
ghost use Rattle.pmb_bus.specs.Text.{front_word};
ghost use Rattle.pmb_io.specs.Lines.{HasNoLf};
ghost use Rattle.pmb_telling.specs.machine.Ends.{EndsLine, ends_word};

/// How many bytes of a word are told.
const WORD: usize = 32;

/// Whether a byte ends a word: it separates words, or begins a comment.
#[inline]
fn ends_word(byte: u8) -> bool
    ensures { result ≡ ends_word byte }
{
    matches!(byte, b' ' | b'\t' | b'\n' | b'\r' | b'#')
}

/// How many bytes belong to a word that has `had` already, up to its end and to 32 in all.
pub(crate) fn word_bytes(bytes: &[u8], had: usize) -> usize
    requires { had ≤ 32 }
    ensures within { result ≤ length bytes.now }
    ensures word { front_word (take result bytes.now) ≡ take result bytes.now }
    ensures over { (front_word (drop result bytes.now) ≡ []) ⊎ (32 ≤ had + result) }
{
    let mut count = 0;
    for byte in bytes {
        if had + count >= WORD || ends_word(*byte) {
            return count;
        }
        count += 1;
    }
    count
}

/// How many bytes stand before the first LF, if there is one.
pub(crate) fn line_bytes(bytes: &[u8]) -> Option<usize>
    ensures within { IfSome result (λ count. count < length bytes.now) }
    ensures line { MatchOption result (HasNoLf bytes.now) (λ count. EndsLine bytes.now count) }
{
    let mut count = 0;
    for byte in bytes {
        if *byte == b'\n' {
            return Some(count);
        }
        count += 1;
    }
    None
}

/// Whether no more is told of a word that has so many bytes: a byte follows that ends it, or 32
/// came.
pub(crate) fn is_over(rest: &[u8], had: usize) -> bool
    ensures { MatchBool result ((rest.now ≢ []) ⊎ (32 ≤ had)) ((rest.now ≡ []) × (had < 32)) }
{
    !rest.is_empty() || had >= WORD
}

/// What stands after so many bytes; nothing where there are fewer.
pub(crate) fn behind(bytes: &[u8], count: usize) -> &[u8]
    ensures rest { result.now ≡ drop count bytes.now }
    ensures less { length result.now ≤ length bytes.now }
{
    &bytes[count.min(bytes.len())..]
}
