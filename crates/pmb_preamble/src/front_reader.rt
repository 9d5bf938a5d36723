//! The front of a capture that brings its profile: the profile, and a line `%%` after it.
//!
//! Each byte is looked at once, when it comes: a line `%%` is seen at its LF, by the bytes before it.
//! Past the limit the last bytes alone tell whether a line `%%` that starts in time may still come.
//!
//! Its rows: `tests_tasks`, `src/captures.rt`; `tests/rows/preambles.txt`, `tests/rows/failures.txt`.

ghost use Rattle.std.specs.Prelude.{◌≡◌, ◌≢◌, ℕ, ◌≤◌, ◌<◌, ◌++◌, ◌↔◌, [], List, true, false, IfOk, IfErr, IfSome, IfNone, IsTrue, Err, OnErr, codes, length, take, drop};
ghost use Rattle.pmb_preamble.specs.Front.{EndsInLine, EndsInOpening, FirstMark, HasMark, MadeFrontReads, MayFit, NoMark, ReadFront, ReadSome, ReadTooMuch, ReadUndecided, StartsLine, most_profile};
ghost use Rattle.pmb_preamble.specs.machine.Front.{EndsInMark, NoneEndsWithin};
ghost use Rattle.pmb_io.specs.Count.{raised};

use crate::front_parts::Front;
use pmb_io::laws::reads_add_up;
use pmb_io::{Source, ToolFault, without_return};
use std::alloc::Global;

/// How many bytes one read asks for.
const PIECE: usize = 8192;

/// How many bytes a profile has at most.
const MOST_PROFILE: usize = 1_048_576;

/// Where a line `%%` is.
#[derive(Clone, Copy)]
struct Mark {
    start: usize,
    /// After its LF.
    end: usize,
}

/// Reads up to the first line `%%`, which LF or CR LF ends, or to the end of the reader. What is
/// before that line is the profile, at most 1,048,576 bytes.
///
/// It reads no further than the piece in which that line ends. Each read gives a byte or more, so
/// that there are at most 1,048,580.
///
/// # Errors
///
/// `Read` where the reader failed. `ProfileTooLong` where the profile has more bytes: as soon as that
/// is certain whatever follows, which is one to four bytes past the limit, or where the reader ended.
/// `Memory` where there is no memory for what was read.
pub fn front<R: Source>(alloc: Global, reader: &mut R) -> Result<Front, ToolFault>
    // The first line `%%` was read, or the reader ended.
    ensures ok { IfOk result (ReadFront R.told reader.old reader.new) }

    // The profile passes the limit, whatever follows, or the reader ended.
    ensures too_long { result ≡ Err ToolFault.ProfileTooLong → ReadTooMuch R.told reader.old reader.new }

    // The reader failed in this call exactly where it returns `Read`, and before that nothing was decided.
    ensures read { result ≡ Err ToolFault.Read → (R.told reader.new).failures ≡ raised (R.told reader.old).failures 1 }
    ensures no_read { result ≢ Err ToolFault.Read → (R.told reader.new).failures ≡ (R.told reader.old).failures }
    ensures before_read { result ≡ Err ToolFault.Read → ReadUndecided R.told reader.old reader.new }
    ensures before_memory { result ≡ Err ToolFault.Memory → ReadSome R.told reader.old reader.new }

    // A reader that ended in this call is not read again: no failed read comes after its end, and no line `%%`.
    ensures read_not_ended { result ≡ Err ToolFault.Read → (R.told reader.new).ended ≡ (R.told reader.old).ended }
    ensures mark_not_ended { IfOk result (λ front. front.marked ≡ true → (R.told reader.new).ended ≡ (R.told reader.old).ended) }

    // The reads that neither failed nor were the end are few, and it writes nothing.
    ensures reads { MadeFrontReads (R.told reader.old).reads (R.told reader.new).reads }
    ensures few_reads { result ≢ Err ToolFault.TooManyReads }
    ensures no_write { result ≢ Err ToolFault.Write }
{
    reads_add_up();
    let mut bytes = Vec::new(alloc);
    let mut piece = [0; PIECE];
    while may_fit(bytes.as_slice()) {
        let count = match reader.read(&mut piece) {
            Ok(count) => count,
            Err(_) => return Err(ToolFault::Read),
        };
        if count == 0 {
            return all(bytes);
        }
        let from = bytes.len();
        if bytes.extend_from_slice(&piece[..count]).is_err() {
            return Err(ToolFault::Memory);
        }
        if let Some(mark) = find_mark(bytes.as_slice(), from) {
            return cut(bytes, mark);
        }
    }
    Err(ToolFault::ProfileTooLong)
}

// The front of what was read, where it ended without a line `%%`.
fn all(bytes: Vec<u8>) -> Result<Front, ToolFault>
    ensures profile { IfOk result (λ front. front.profile ≡ bytes.items) }
    ensures rest { IfOk result (λ front. front.rest ≡ []) }
    ensures unmarked { IfOk result (λ front. front.marked ≡ false) }
    ensures within { IfOk result (λ _. length bytes.items ≤ most_profile) }
    ensures fault { IfErr result (λ fault. fault ≡ ToolFault.ProfileTooLong) }
    ensures long { OnErr result (most_profile < length bytes.items) }
{
    if bytes.len() > MOST_PROFILE {
        return Err(ToolFault::ProfileTooLong);
    }
    Ok(Front::all(bytes))
}

// The front of what was read, cut at a line, where the profile is not too long.
fn cut(bytes: Vec<u8>, mark: Mark) -> Result<Front, ToolFault>
    requires start { mark.start ≤ length bytes.items }
    requires end { mark.end ≤ length bytes.items }
    ensures profile { IfOk result (λ front. front.profile ≡ take mark.start bytes.items) }
    ensures rest { IfOk result (λ front. front.rest ≡ drop mark.end bytes.items) }
    ensures marked { IfOk result (λ front. front.marked ≡ true) }
    ensures within { IfOk result (λ _. mark.start ≤ most_profile) }
    ensures fault { IfErr result (λ fault. fault ≡ ToolFault.ProfileTooLong) }
    ensures long { OnErr result (most_profile < mark.start) }
{
    if mark.start > MOST_PROFILE {
        return Err(ToolFault::ProfileTooLong);
    }
    Ok(Front::at_mark(bytes, mark.start, mark.end))
}

// Whether the profile of a text without a line `%%` may be within the limit, by what follows.
fn may_fit(text: &[u8]) -> bool
    requires { NoMark text.now }
    ensures { IsTrue result ↔ MayFit text.now }
{
    text.len() <= MOST_PROFILE || ends_in_opening(text)
}

// Whether a text ends in a line `%%` whose LF is still to come, and which starts within the limit.
fn ends_in_opening(text: &[u8]) -> bool
    ensures { IsTrue result ↔ EndsInOpening text.now }
{
    ends_in_line(text, b"%") || ends_in_line(text, b"%%") || ends_in_line(text, b"%%\r")
}

// Whether a text ends in these bytes, with which a line starts within the limit.
fn ends_in_line(text: &[u8], tail: &[u8]) -> bool
    ensures { IsTrue result ↔ EndsInLine text.now tail.now }
{
    match text.strip_suffix(tail) {
        Some(before) => before.len() <= MOST_PROFILE && starts_line(before),
        None => false,
    }
}

// The first line `%%`, where none ends in the bytes before `from`.
fn find_mark(bytes: &[u8], from: usize) -> Option<Mark>
    requires within { from ≤ length bytes.now }
    requires none_before { NoneEndsWithin bytes.now from }
    ensures start { IfSome result (λ mark. mark.start ≤ length bytes.now) }
    ensures end { IfSome result (λ mark. mark.end ≤ length bytes.now) }
    ensures first { IfSome result (λ mark. FirstMark bytes.now (take mark.start bytes.now) (drop mark.end bytes.now)) }
    ensures none { IfNone result (NoMark bytes.now) }
{
    for i in from..bytes.len() {
        if bytes[i] == b'\n' {
            if let Some(start) = mark_start(&bytes[..i]) {
                return Some(Mark { start, end: i + 1 });
            }
        }
    }
    None
}

// Where the line `%%` starts that ends with an LF after the text.
fn mark_start(text: &[u8]) -> Option<usize>
    ensures within { IfSome result (λ start. start ≤ length text.now) }
    ensures found { IfSome result (λ start. EndsInMark text.now start) }
    ensures none { IfNone result ((before line : List ℕ) → HasMark (text.now ++ codes "\n") before line [] → ⊥) }
{
    let line = without_return(text);
    let Some(before) = line.strip_suffix(b"%%") else {
        return None;
    };
    if starts_line(before) {
        Some(before.len())
    } else {
        None
    }
}

// Whether a line starts after these bytes.
fn starts_line(before: &[u8]) -> bool
    ensures { IsTrue result ↔ StartsLine before.now }
{
    before.is_empty() || before.ends_with(b"\n")
}
