//! What is wrong with a line. Its rows: `tests_lines`, `src/lines/rows.rt` and `long.rt`;
//! `tests/rows/lines.txt`.

ghost use Rattle.std.specs.Prelude.{◌≡◌, ◌+◌, ◌≤◌, ◌++◌, length};
ghost use Rattle.pmb_line.specs.LineFault.{fault_text, invalid_name, word_fault};

use crate::word_fault::WordFault;
use arrayvec::ArrayVec;
use itoa::Buffer;
use pmb_writer::Invalid;

/// Why a line is no transaction of a profile. A place is an offset in the line.
#[derive(Clone, Copy, Debug, PartialEq, Eq)]
pub enum LineFault {
    /// It has no word.
    Blank,
    /// The first word that does not fit, or the line's length where words are missing.
    BadWord(usize),
    /// The first word that a list has no room for.
    TooLong(usize),
    /// It spells a transaction that has no packet.
    Invalid(Invalid),
}

/// The text of a fault.
pub type FaultText = ArrayVec<u8, 32>;

impl LineFault {
    /// The fault as it is written: its name, with ` at ` and the place where it has one; that of
    /// [`Invalid`] alone where the transaction has no packet.
    pub fn text(self) -> FaultText
        ensures { result.items ≡ fault_text self }
    {
        let mut text = FaultText::new();
        match self {
            LineFault::Blank => append(&mut text, b"Blank"),
            LineFault::BadWord(at) => {
                append(&mut text, b"BadWord at ");
                append(&mut text, Buffer::new().format(at).as_bytes());
            }
            LineFault::TooLong(at) => {
                append(&mut text, b"TooLong at ");
                append(&mut text, Buffer::new().format(at).as_bytes());
            }
            LineFault::Invalid(invalid) => append(&mut text, name_of(invalid)),
        }
        text
    }

    /// The fault of a line's words.
    pub fn of_words(fault: WordFault) -> LineFault
        ensures { result ≡ word_fault fault }
    {
        match fault {
            WordFault::Blank => LineFault::Blank,
            WordFault::BadWord(at) => LineFault::BadWord(at),
            WordFault::TooLong(at) => LineFault::TooLong(at),
        }
    }
}

fn name_of(invalid: Invalid) -> &'static [u8]
    ensures name { result.now ≡ invalid_name invalid }
    ensures short { length result.now ≤ 14 }
{
    match invalid {
        Invalid::NoParts => b"NoParts",
        Invalid::UnknownDevice => b"UnknownDevice",
        Invalid::AddressTwice => b"AddressTwice",
        Invalid::UnknownCommand => b"UnknownCommand",
        Invalid::NotAllowed => b"NotAllowed",
        Invalid::WrongLength => b"WrongLength",
        Invalid::PecMode => b"PecMode",
    }
}

fn append(out: &mut FaultText, text: &[u8])
    requires { length out.old.items + length text.now ≤ 32 }
    ensures { out.new.items ≡ out.old.items ++ text.now }
{
    let _ = out.try_extend_from_slice(text);
}
