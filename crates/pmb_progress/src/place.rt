//! How many packets end in a text that comes in pieces.

ghost use Rattle.std.specs.Prelude.{◌≡◌, ◌≤◌, length};
ghost use Rattle.pmb_bus.specs.Text.{is_separator};
ghost use Rattle.pmb_progress.specs.Stops.{ended, ends_stop, place_after, place_behind, place_in_line, stops};

/// Where in a text of words a byte is next.
#[derive(Clone, Copy, Debug, PartialEq, Eq)]
pub enum Place {
    /// Between words. So a text begins.
    Between,
    /// After a `P` that begins a word.
    Stop,
    /// Inside another word.
    Inside,
    /// In a comment.
    Comment,
}

/// How often the word `P` ends in a piece of a text, and where that is after the piece. `place` is where it was
/// before: [`Place::Between`] for the first piece, and then what the piece before gave.
pub fn stops(place: Place, text: &[u8]) -> (usize, Place)
    ensures count { result.0 ≡ stops place text.now }
    ensures place { result.1 ≡ place_behind place text.now }
    ensures few { result.0 ≤ length text.now }
{
    let mut count = 0;
    let mut at = place;
    let mut left = text;
    while let [byte, others @ ..] = left {
        count += ended(at, *byte);
        at = place_after(at, *byte);
        left = others;
    }
    (count, at)
}

// How often the word `P` ends before a byte.
#[inline(always)]
fn ended(place: Place, byte: u8) -> usize
    ensures count { result ≡ ended place byte }
    ensures few { result ≤ 1 }
{
    if ends_stop(place, byte) { 1 } else { 0 }
}

// Whether the word `P` ends before a byte.
#[inline(always)]
fn ends_stop(place: Place, byte: u8) -> bool
    ensures { result ≡ ends_stop place byte }
{
    match place {
        Place::Stop => is_separator(byte) || byte == b'#',
        Place::Between | Place::Inside | Place::Comment => false,
    }
}

// Where a text is after a byte.
#[inline(always)]
fn place_after(place: Place, byte: u8) -> Place
    ensures { result ≡ place_after place byte }
{
    if byte == b'\n' {
        Place::Between
    } else {
        place_in_line(place, byte)
    }
}

// Where a line is after a byte that is no LF.
#[inline(always)]
fn place_in_line(place: Place, byte: u8) -> Place
    ensures { result ≡ place_in_line place byte }
{
    match place {
        Place::Comment => Place::Comment,
        Place::Between => {
            if byte == b'#' {
                Place::Comment
            } else if is_separator(byte) {
                Place::Between
            } else if byte == b'P' {
                Place::Stop
            } else {
                Place::Inside
            }
        }
        Place::Stop | Place::Inside => {
            if byte == b'#' {
                Place::Comment
            } else if is_separator(byte) {
                Place::Between
            } else {
                Place::Inside
            }
        }
    }
}

// Whether a byte separates words.
#[inline(always)]
fn is_separator(byte: u8) -> bool
    ensures { result ≡ is_separator byte }
{
    byte == b' ' || byte == b'\t' || byte == b'\n' || byte == b'\r'
}
