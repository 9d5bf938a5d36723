//! The fields of a line of comma-separated values.

ghost use Rattle.std.specs.Prelude.{◌≡◌, ◌<◌, ◌≤◌, false, None, IfSome, length, option_copied};
ghost use Rattle.pmb_csv.specs.Fields.{Place, fields_from};
ghost use Rattle.pmb_csv.specs.Left.{behind_field, broken, closing_of, undoubled, with_field};

use pmb_words::{behind, part};

/// A field.
#[derive(Clone, Copy, Drop, Debug)]
pub struct Field<'a> {
    /// Its bytes; in quotes, what stands between these, with each quote of it doubled.
    pub raw: &'a [u8],
    /// It stands in quotes.
    pub is_quoted: bool,
}

impl<'a> Field<'a> {
    ghost use Rattle.std.specs.Prelude.{◌≡◌, false, option_copied};
    ghost use Rattle.std.specs.Str.{bytes_eq};
    ghost use Rattle.pmb_csv.specs.Columns.{has_quote, plain_of};
    ghost use Rattle.pmb_csv.specs.Left.{text_of};

    /// Whether it has these bytes, none of which is a quote.
    #[inline]
    pub fn is(&self, text: &[u8]) -> bool
        requires { has_quote text.now ≡ false }
        ensures { result ≡ bytes_eq (text_of self.now) text.now }
    {
        self.raw == text
    }

    /// Its bytes, where none of them is a quote.
    #[inline]
    pub fn plain(&self) -> Option<&'a [u8]>
        ensures { option_copied result ≡ plain_of (text_of self.now) }
    {
        match part(b'"', self.raw) {
            (_, Some(_)) => None,
            (_, None) => Some(self.raw),
        }
    }
}

/// The next field of a line.
#[derive(Clone, Copy, Drop, Debug)]
pub enum Next<'a> {
    /// A field.
    Field(Field<'a>),
    /// There is no more.
    End,
    /// It has an open quote, or more behind its closing one. It is not taken.
    Broken,
}

/// The fields that are left of a line.
#[derive(Clone, Copy, Drop, Debug)]
pub struct Fields<'a> {
    /// The line that is left; `None` behind its last field.
    rest: Option<&'a [u8]>,
}

impl<'a> Fields<'a> {
    ghost use Rattle.std.specs.Prelude.{◌≡◌, option_copied};
    ghost use Rattle.pmb_csv.specs.Fields.{record_of};
    ghost use Rattle.pmb_csv.specs.Left.{Takes, behind_field, left, text_if, with_field};

    /// The fields of a line.
    #[inline]
    pub fn of(line: &'a [u8]) -> Fields<'a>
        ensures { left result ≡ record_of line.now }
    {
        Fields { rest: Some(line) }
    }

    /// Takes the next field.
    pub fn next_field(&mut self) -> Next<'a>
        ensures { Takes (left self.old) result (left self.new) }
    {
        let Some(text) = self.rest else {
            return Next::End;
        };
        let Some(inner) = behind(b"\"", text) else {
            let (raw, rest) = part(b',', text);
            return self.take(raw, false, rest);
        };
        match closed(inner) {
            Some((raw, rest)) => self.take(raw, true, rest),
            None => Next::Broken,
        }
    }

    /// Takes a field in front of what follows it.
    fn take(&mut self, raw: &'a [u8], is_quoted: bool, rest: Option<&'a [u8]>) -> Next<'a>
        ensures { Takes (with_field (text_if is_quoted raw.now) (behind_field (option_copied rest.entry))) result
            (left self.new) }
    {
        self.rest = rest;
        Next::Field(Field { raw, is_quoted })
    }
}

/// What stands in front of the quote that closes a field, and what follows the field, if anything
/// does.
fn closed(text: &[u8]) -> Option<(&[u8], Option<&[u8]>)>
    ensures some { IfSome result (λ cut. fields_from Place.Quoted text.now
        ≡ with_field (undoubled cut.0.now) (behind_field (option_copied cut.1))) }
    ensures none { result ≡ None → fields_from Place.Quoted text.now ≡ broken }
{
    let end = closing_end(text)?;
    let raw = &text[..end - 1];
    let [byte, rest @ ..] = &text[end..] else {
        return Some((raw, None));
    };
    if *byte == b',' {
        Some((raw, Some(rest)))
    } else {
        None
    }
}

/// The place behind the quote that closes a field: two quotes are one of the field's bytes.
fn closing_end(text: &[u8]) -> Option<usize>
    ensures value { result ≡ closing_of false 0 text.now }
    ensures within { IfSome result (λ end. (0 < end) × (end ≤ length text.now)) }
{
    let mut is_closed = false;
    let mut at = 0;
    let mut left = text;
    while let [byte, rest @ ..] = left {
        if *byte == b'"' {
            is_closed = !is_closed;
        } else if is_closed {
            return Some(at);
        }
        at += 1;
        left = rest;
    }
    if is_closed { Some(at) } else { None }
}
