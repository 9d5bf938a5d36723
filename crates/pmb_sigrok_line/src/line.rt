//! A line of sigrok's I2C decoder.

ghost use Rattle.std.specs.Prelude.{◌≡◌, option_copied};
ghost use Rattle.pmb_sigrok_line.specs.Line.{are_numbers, is_remark as is_remark_line};

use crate::annotation::event_in;
use crate::event::Event;
use pmb_words::{behind, decimal, fitting_decimal, part};

/// A line of the decoder.
#[derive(Clone, Copy, Drop, Debug)]
pub struct Line<'a> {
    /// The sample where it begins. `None` if the line has no sample, or one over 64 bits.
    pub sample: Option<u64>,
    /// The name of the decoder.
    pub name: &'a [u8],
    /// The event, if the line says one.
    pub event: Option<Event>,
}

impl<'a> Line<'a> {
    ghost use Rattle.std.specs.Prelude.{◌≡◌, option_map};
    ghost use Rattle.pmb_sigrok_line.specs.Line.{decoder_line, with_name as named_line};
    ghost use Rattle.pmb_sigrok_line.specs.Shown.{line_shown};

    /// The line of the decoder that a text is: samples or none, a name, and an annotation. `None`
    /// if it is no line of the decoder.
    #[tactic(auto, unfolding(crate::specs::Line::decoder_line))]
    pub fn read(text: &'a [u8]) -> Option<Line<'a>>
        ensures { option_map line_shown result ≡ decoder_line text.now }
    {
        let (word, rest) = part(b' ', text);
        let Some(rest) = rest else {
            return Line::with_name(None, text);
        };
        let (first, last) = part(b'-', word);
        if is_range(first, last) {
            Line::with_name(fitting_decimal(first), rest)
        } else {
            Line::with_name(None, text)
        }
    }

    /// The line of a name up to its colon, and an annotation.
    fn with_name(sample: Option<u64>, text: &'a [u8]) -> Option<Line<'a>>
        ensures { option_map line_shown result ≡ named_line sample text.now }
    {
        let (name, rest) = part(b':', text);
        let text = behind(b" ", rest?)?;
        if name.is_empty() {
            return None;
        }
        Some(Line {
            sample,
            name,
            event: event_in(text),
        })
    }
}

/// Whether both parts of a word are numbers.
fn is_range(first: &[u8], last: Option<&[u8]>) -> bool
    ensures { result ≡ are_numbers first.now (option_copied last.entry) }
{
    match last {
        Some(last) => decimal(first).is_some() && decimal(last).is_some(),
        None => false,
    }
}

/// Whether a line is blank, or one of sigrok-cli and none of the decoder.
#[tactic(auto, unfolding(crate::specs::Line::is_remark))]
pub fn is_remark(line: &[u8]) -> bool
    ensures { result ≡ is_remark_line line.now }
{
    line.is_empty()
        || behind(b"sr:", line).is_some()
        || behind(b"srd:", line).is_some()
        || behind(b"cli:", line).is_some()
        || behind(b" - ", line).is_some()
}
