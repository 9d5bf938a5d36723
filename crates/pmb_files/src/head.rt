//! The head of an input whose profile has a file of its own: the profile's text, and a line `%%`.
//!
//! Its rows: `tests/files/rows.txt`.

ghost use Rattle.std.specs.Prelude.{◌≡◌, ◌<◌, ◌⊎◌, ◌++◌, IfOk, MatchResult, IfErr, codes, length, true};
ghost use Rattle.std.specs.Io.KnownBytes.{Consumes, IsAtEnd};
ghost use Rattle.pmb_files.specs.Head.{head_of, line_after, with_line_end, HasMarkAt, IsTooLong, IsWhole};
ghost use Rattle.pmb_files.specs.Joined.{starts_after};
ghost use Rattle.pmb_files.specs.machine.Head.{IsFaultOf, most_text};

use pmb_io::{Io, Source, ToolFault};
use pmb_preamble::front;
use pmb_preamble::laws::one_front;
use std::alloc::{AllocError, Global};

/// How many bytes one read asks for.
const PIECE: usize = 8192;

/// How many bytes are read of a profile at most, and one read more: with more it is too long,
/// whatever follows.
const MOST_TEXT: usize = 1_048_580;

/// Why a text can't be the profile before a capture.
#[derive(Clone, Copy, Debug, PartialEq, Eq)]
pub enum HeadFault {
    /// It has more bytes than a profile may have.
    TooLong,
    /// The line of this number is `%%`, with which a profile ends.
    Mark(u64),
    /// There was no memory.
    Memory,
}

/// Reads a profile's text to its end, or so much of it that it is too long.
///
/// # Errors
///
/// `Read` where the reader failed, `Memory` where there was no memory.
pub(crate) fn read_text<R: Source>(alloc: Global, reader: &mut R) -> Result<Vec<u8>, ToolFault>
    ensures read { IfOk result (λ bytes. Consumes (R.told reader.old).left (R.told reader.new).left bytes.items) }
    ensures ended { IfOk result (λ bytes. IsAtEnd (R.told reader.new).left ⊎ (most_text < length bytes.items)) }
    ensures faults { IfErr result (λ fault. (fault ≡ ToolFault.Read) ⊎ (fault ≡ ToolFault.Memory)) }
{
    let mut bytes = Vec::new(alloc);
    let mut piece = [0; PIECE];
    while bytes.len() <= MOST_TEXT {
        let count = match reader.read(&mut piece) {
            Ok(count) => count,
            Err(_) => return Err(ToolFault::Read),
        };
        if count == 0 {
            return Ok(bytes);
        }
        if bytes.extend_from_slice(&piece[..count]).is_err() {
            return Err(ToolFault::Memory);
        }
    }
    Ok(bytes)
}

/// The head that a profile's text makes.
///
/// # Errors
///
/// Why it makes none.
pub(crate) fn make_head(alloc: Global, text: Vec<u8>) -> Result<Vec<u8>, HeadFault>
    ensures { MatchResult result (λ head. (head.items ≡ head_of text.items) × IsWhole (with_line_end text.items)) (λ fault. IsFaultOf (with_line_end text.items) fault) }
{
    let Ok(mut text) = end_line(text) else {
        return Err(HeadFault::Memory);
    };
    if let Err(fault) = check_text(alloc, text.as_slice()) {
        return Err(fault);
    }
    if text.extend_from_slice(b"%%\n").is_err() {
        return Err(HeadFault::Memory);
    }
    Ok(text)
}

// A text with an LF at its end, where it has a last line without one.
fn end_line(text: Vec<u8>) -> Result<Vec<u8>, AllocError>
    ensures { IfOk result (λ new. new.items ≡ with_line_end text.items) }
{
    if starts_line(text.as_slice()) {
        return Ok(text);
    }
    let mut text = text;
    text.push(b'\n')?;
    Ok(text)
}

// Whether a text of whole lines can be the profile before a capture.
fn check_text(alloc: Global, text: &[u8]) -> Result<(), HeadFault>
    ensures { MatchResult result (λ _. IsWhole text.now) (λ fault. IsFaultOf text.now fault) }
{
    one_front();
    let mut reader = Io::new(text);
    match front(alloc, &mut reader) {
        Ok(front) if front.has_capture() => Err(HeadFault::Mark(line_after(front.profile()))),
        Ok(_) => Ok(()),
        Err(ToolFault::ProfileTooLong) => Err(HeadFault::TooLong),
        Err(_) => Err(HeadFault::Memory),
    }
}

// Whether a line starts after a text.
fn starts_line(text: &[u8]) -> bool
    ensures { result ≡ starts_after true text.now }
{
    match text {
        [.., last] => *last == b'\n',
        [] => true,
    }
}

// The number of the line that comes after a text of whole lines.
fn line_after(text: &[u8]) -> u64
    ensures { result ≡ line_after text.now }
{
    let mut line: u64 = 1;
    for byte in text {
        if *byte == b'\n' {
            line += 1;
        }
    }
    line
}
