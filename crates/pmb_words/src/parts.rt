//! A text cut at a byte.

ghost use Rattle.std.specs.Prelude.{◌≡◌, option_copied};
ghost use Rattle.pmb_words.specs.Parts.{after, parted};

use memchr::memchr;

/// What stands in front of the first such byte of a text, and what follows it; all of the text, and
/// nothing, where it has none.
#[inline]
pub fn part(at: u8, text: &[u8]) -> (&[u8], Option<&[u8]>)
    ensures front { result.0.now ≡ (parted at text.now).front }
    ensures rest { option_copied result.1 ≡ (parted at text.now).rest }
{
    match memchr(at, text) {
        Some(end) => (&text[..end], Some(&text[end + 1..])),
        None => (text, None),
    }
}

/// What follows `front` in a text that begins with it.
#[inline]
pub fn behind<'a>(front: &[u8], text: &'a [u8]) -> Option<&'a [u8]>
    ensures { option_copied result ≡ after front.now text.now }
{
    text.strip_prefix(front)
}
