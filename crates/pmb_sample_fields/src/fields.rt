//! The fields of a line of samples.

ghost use Rattle.std.specs.Prelude.{◌≡◌, ◌<◌, ◌≤◌, ◌∷◌, [], false, None, IfSome, length, option_copied};
ghost use Rattle.pmb_sample_fields.specs.Fields.{Place, at_field as from_field_of, behind_blanks, broken, ends, fields_from, is_blank, mark_byte, trimmed as trimmed_text, with_field, without_last_blanks};
ghost use Rattle.pmb_sample_fields.specs.Row.{has_quote};
ghost use Rattle.pmb_sample_fields.specs.machine.Left.{behind_field, behind_mark as behind_mark_of, closing_of, plain_length as length_of_plain, undoubled};

use pmb_words::behind;

/// What stands between the fields of a line.
#[derive(Clone, Copy, Debug, PartialEq, Eq)]
pub enum Mark {
    /// A comma.
    Comma,
    /// A comma or a semicolon.
    Semicolon,
    /// A comma or a TAB.
    Tab,
}

/// A field.
#[derive(Clone, Copy, Drop, Debug)]
pub struct Field<'a> {
    /// Its bytes, with blanks around them; in quotes, what stands between these, with each quote of
    /// it doubled.
    pub raw: &'a [u8],
    /// It stands in quotes.
    pub is_quoted: bool,
}

/// The next field of a line.
#[derive(Clone, Copy, Drop, Debug)]
pub enum Next<'a> {
    /// A field.
    Field(Field<'a>),
    /// There is no more.
    End,
    /// It has an open quote, or more behind its closing one.
    Broken,
}

/// The fields that are left of a line.
#[derive(Clone, Copy, Drop, Debug)]
pub struct Fields<'a> {
    /// What stands between them.
    mark: Mark,
    /// The line that is left; `None` behind its last field.
    rest: Option<&'a [u8]>,
}

impl<'a> Field<'a> {
    ghost use Rattle.std.specs.Prelude.{◌≡◌, option_copied};
    ghost use Rattle.pmb_sample_fields.specs.Row.{plain_of};
    ghost use Rattle.pmb_sample_fields.specs.machine.Left.{text_of};

    /// Its bytes without the blanks around them, where none of them is a quote.
    pub fn plain(&self) -> Option<&'a [u8]>
        ensures { option_copied result ≡ plain_of (text_of self.now) }
    {
        if contains_quote(self.raw) {
            return None;
        }
        Some(trimmed(self.raw))
    }
}

impl<'a> Fields<'a> {
    ghost use Rattle.std.specs.Prelude.{◌≡◌, option_copied};
    ghost use Rattle.pmb_sample_fields.specs.Fields.{Place, fields_from, mark_byte, record_of, with_field};
    ghost use Rattle.pmb_sample_fields.specs.machine.Left.{Takes, behind_field, left, text_if};

    /// The fields of a line.
    pub fn of(mark: Mark, line: &'a [u8]) -> Fields<'a>
        ensures { left result ≡ record_of (mark_byte mark) line.now }
    {
        Fields {
            mark,
            rest: Some(line),
        }
    }

    /// Takes the next field.
    pub fn next_field(&mut self) -> Next<'a>
        ensures { Takes (left self.old) result (left self.new) }
    {
        let Some(text) = self.rest else {
            return Next::End;
        };
        let from = from_field(self.mark, text);
        let Some(inner) = behind(b"\"", from) else {
            return self.take_plain(from);
        };
        self.take_quoted(inner)
    }

    /// Takes a field without quotes, with which a text begins.
    fn take_plain(&mut self, text: &'a [u8]) -> Next<'a>
        ensures { Takes (fields_from (mark_byte self.old.mark) Place.Plain text.now) result (left self.new) }
    {
        let (raw, behind) = text.split_at(plain_length(self.mark, text));
        self.take(raw, false, behind_mark(behind))
    }

    /// Takes a field behind its first quote.
    fn take_quoted(&mut self, text: &'a [u8]) -> Next<'a>
        ensures { Takes (fields_from (mark_byte self.old.mark) Place.Quoted text.now) result (left self.new) }
    {
        match closed(self.mark, text) {
            Some((raw, rest)) => self.take(raw, true, rest),
            None => Next::Broken,
        }
    }

    /// Takes a field in front of what follows it.
    fn take(&mut self, raw: &'a [u8], is_quoted: bool, rest: Option<&'a [u8]>) -> Next<'a>
        ensures { Takes (with_field (text_if is_quoted raw.now) (behind_field (mark_byte self.old.mark) (option_copied rest.entry))) result (left self.new) }
    {
        self.rest = rest;
        Next::Field(Field { raw, is_quoted })
    }
}

/// A text from its first byte on that is no blank in front of a field.
fn from_field(mark: Mark, text: &[u8]) -> &[u8]
    ensures { result.now ≡ from_field_of (mark_byte mark) text.now }
{
    let mut left = text;
    while let [byte, rest @ ..] = left {
        if ends_field(mark, *byte) || !blank(*byte) {
            return left;
        }
        left = rest;
    }
    left
}

/// How many bytes stand in front of the end of a field without quotes.
fn plain_length(mark: Mark, text: &[u8]) -> usize
    ensures value { result ≡ length_of_plain (mark_byte mark) text.now }
    ensures fits { result ≤ length text.now }
{
    let mut length = 0;
    let mut left = text;
    while let [byte, rest @ ..] = left {
        if ends_field(mark, *byte) {
            return length;
        }
        length += 1;
        left = rest;
    }
    length
}

/// What follows the byte that ends a field, with which a text begins.
fn behind_mark(text: &[u8]) -> Option<&[u8]>
    ensures { option_copied result ≡ behind_mark_of text.now }
{
    match text {
        [_, rest @ ..] => Some(rest),
        [] => None,
    }
}

/// What stands in front of the quote that closes a field, and what follows the field, if anything
/// does.
fn closed(mark: Mark, text: &[u8]) -> Option<(&[u8], Option<&[u8]>)>
    ensures some { IfSome result (λ cut. fields_from (mark_byte mark) Place.Quoted text.now ≡ with_field (undoubled cut.0.now) (behind_field (mark_byte mark) (option_copied cut.1))) }
    ensures none { result ≡ None → fields_from (mark_byte mark) Place.Quoted text.now ≡ broken }
{
    let end = closing_end(text)?;
    let rest = behind_quote(mark, &text[end..])?;
    Some((&text[..end - 1], rest))
}

/// The place behind the quote that closes a field: two quotes are one of the field's bytes.
fn closing_end(text: &[u8]) -> Option<usize>
    ensures value { result ≡ closing_of false 0 text.now }
    ensures within { IfSome result (λ end. (0 < end) × (end ≤ length text.now)) }
{
    let mut is_closed = false;
    let mut at = 0;
    let mut left = text;
    while let [byte, rest @ ..] = left {
        if *byte == b'"' {
            is_closed = !is_closed;
        } else if is_closed {
            return Some(at);
        }
        at += 1;
        left = rest;
    }
    if is_closed { Some(at) } else { None }
}

/// What follows a field behind its closing quote and blanks, if anything does.
fn behind_quote(mark: Mark, text: &[u8]) -> Option<Option<&[u8]>>
    ensures some { IfSome result (λ rest. fields_from (mark_byte mark) Place.Behind text.now ≡ with_field [] (behind_field (mark_byte mark) (option_copied rest))) }
    ensures none { result ≡ None → fields_from (mark_byte mark) Place.Behind text.now ≡ broken }
{
    let mut left = text;
    while let [byte, rest @ ..] = left {
        if ends_field(mark, *byte) {
            return Some(Some(rest));
        }
        if !blank(*byte) {
            return None;
        }
        left = rest;
    }
    Some(None)
}

/// Whether a byte ends a field.
fn ends_field(mark: Mark, byte: u8) -> bool
    ensures { result ≡ ends (mark_byte mark) byte }
{
    byte == b',' || byte == byte_of(mark)
}

fn byte_of(mark: Mark) -> u8
    ensures { result ≡ mark_byte mark }
{
    match mark {
        Mark::Comma => b',',
        Mark::Semicolon => b';',
        Mark::Tab => b'\t',
    }
}

fn blank(byte: u8) -> bool
    ensures { result ≡ is_blank byte }
{
    byte == b' ' || byte == b'\t'
}

/// A text without blanks around it.
pub(crate) fn trimmed(text: &[u8]) -> &[u8]
    ensures { result.now ≡ trimmed_text text.now }
{
    let from = from_text(text);
    &from[..used_length(from)]
}

fn from_text(text: &[u8]) -> &[u8]
    ensures { result.now ≡ behind_blanks text.now }
{
    let mut left = text;
    while let [byte, rest @ ..] = left {
        if !blank(*byte) {
            return left;
        }
        left = rest;
    }
    left
}

/// How many bytes a text has in front of the blanks at its end.
fn used_length(text: &[u8]) -> usize
    ensures value { result ≡ length (without_last_blanks text.now) }
    ensures fits { result ≤ length text.now }
{
    let mut used = 0;
    let mut at = 0;
    let mut left = text;
    while let [byte, rest @ ..] = left {
        at += 1;
        if !blank(*byte) {
            used = at;
        }
        left = rest;
    }
    used
}

fn contains_quote(text: &[u8]) -> bool
    ensures { result ≡ has_quote text.now }
{
    let mut left = text;
    while let [byte, rest @ ..] = left {
        if *byte == b'"' {
            return true;
        }
        left = rest;
    }
    false
}
