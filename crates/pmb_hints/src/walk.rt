//! Where a table, a key or an item of an array begins in a profile's text.
//!
//! A value of the reader of TOML doesn't keep its place. So the tokens of the text are read once more, up
//! to the one that is looked for. The text is a document by then, and what is looked for was read from
//! it, so nothing is tested here: a value that is passed over is only strings, words and brackets.
//!
//! Its rows: `tests/rows/hints.txt`.

use arrayvec::ArrayVec;
use std::alloc::Global;
use toml_parser::text::{first, skip_blank, skip_ws};
use toml_parser::{Key, ParseError, Scalar, dotted_key, quoted, starts_string, unquoted};

/// A step into a document.
#[derive(Clone, Copy)]
pub(crate) enum Step<'a> {
    /// To a key of a table.
    Key(&'a str),
    /// To an item of an array, by its number from 0.
    Item(usize),
}

// What the room for steps holds at first.
impl Default for Step<'_> {
    fn default() -> Self {
        Step::Item(0)
    }
}

/// The steps from a whole document to a table, a key or an item of it.
pub(crate) type Path<'a> = ArrayVec<Step<'a>, 6>;

/// Why nothing is found.
#[derive(Clone, Copy)]
pub(crate) enum Lost {
    NoMemory,
    NotThere,
}

impl From<ParseError> for Lost {
    fn from(error: ParseError) -> Lost {
        match error {
            ParseError::OutOfMemory => Lost::NoMemory,
            ParseError::At(..) => Lost::NotThere,
        }
    }
}

/// How a header begins.
#[derive(Clone, Copy)]
enum Header {
    /// With `[`: it is of a table.
    Table,
    /// With `[[`: it is of the next item of an array.
    Item,
}

/// What an expression of a document is.
#[derive(Clone, Copy)]
enum Expression<'t> {
    /// What is looked for, which begins here.
    Found(&'t str),
    /// Something else, and this follows it.
    Other(&'t str),
}

/// A walk over the expressions of a document: its headers, and its keys with their values.
#[derive(Clone, Copy)]
struct Walk<'p> {
    alloc: Global,
    path: &'p [Step<'p>],
    /// How many steps of the path the last header has gone, if it leads along the path.
    section: Option<usize>,
    /// For each step, how many items of its array have begun with a header.
    begun: [usize; 6],
}

impl<'p> Walk<'p> {
    /// Reads an expression.
    fn expression<'t>(&mut self, text: &'t str) -> Result<Expression<'t>, Lost> {
        if let Some(rest) = text.strip_prefix("[[") {
            return self.header(text, Header::Item, rest);
        }
        if let Some(rest) = text.strip_prefix("[") {
            return self.header(text, Header::Table, rest);
        }
        self.pair(text)
    }

    /// Reads a header from its key on.
    fn header<'t>(
        &mut self,
        text: &'t str,
        header: Header,
        at_key: &'t str,
    ) -> Result<Expression<'t>, Lost> {
        let (key, rest) = dotted_key(self.alloc, skip_ws(at_key))?;
        self.section = self.section_of(&key, header);
        if self.section == Some(self.path.len()) {
            return Ok(Expression::Found(text));
        }
        let end = match header {
            Header::Table => "]",
            Header::Item => "]]",
        };
        Ok(Expression::Other(rest.strip_prefix(end).ok_or(Lost::NotThere)?))
    }

    /// How many steps the key of a header goes, if it leads along the path.
    fn section_of(&mut self, key: &Key, header: Header) -> Option<usize> {
        let mut at = 0;
        for part in &key.path {
            at = self.into_last(past(self.path, at, part.as_str())?)?;
        }
        at = past(self.path, at, key.last.as_str())?;
        match header {
            Header::Table => Some(at),
            Header::Item => self.into_next(at),
        }
    }

    /// Goes on into the last item of an array, if one is there.
    fn into_last(&self, at: usize) -> Option<usize> {
        match self.path.get(at) {
            Some(Step::Item(number)) if *self.begun.get(at)? != number.saturating_add(1) => None,
            Some(Step::Item(_)) => Some(at.saturating_add(1)),
            _ => Some(at),
        }
    }

    /// Begins the next item of an array, and goes on into it.
    fn into_next(&mut self, at: usize) -> Option<usize> {
        if let Some(begun) = self.begun.get_mut(at) {
            *begun = begun.saturating_add(1);
        }
        self.into_last(at)
    }

    /// Reads a key and its value.
    fn pair<'t>(&self, text: &'t str) -> Result<Expression<'t>, Lost> {
        let (key, value) = key_equals(self.alloc, text)?;
        let at = match self.section {
            Some(at) => after_key(self.path, at, &key),
            None => None,
        };
        match at {
            None => Ok(Expression::Other(after_value(self.alloc, value)?)),
            Some(at) if at == self.path.len() => Ok(Expression::Found(text)),
            Some(at) => Ok(Expression::Found(within(self.alloc, value, self.path, at)?)),
        }
    }
}

/// The text from where the place begins to which a path leads.
pub(crate) fn text_from<'t, 'p>(
    alloc: Global,
    text: &'t str,
    path: &'p [Step<'p>],
) -> Result<&'t str, Lost> {
    if path.is_empty() {
        return Ok(text);
    }
    let mut walk = Walk {
        alloc,
        path,
        section: Some(0),
        begun: [0; 6],
    };
    let mut rest = text.strip_prefix("\u{feff}").unwrap_or(text);
    for _ in 0..text.len() {
        match walk.expression(skip_blank(rest, true))? {
            Expression::Found(place) => return Ok(place),
            Expression::Other(after) => rest = after,
        }
    }
    Err(Lost::NotThere)
}

/// The number of a key as it stands in the text, which begins with the key.
pub(crate) fn number_of_key(alloc: Global, text: &str, number: i64) -> Result<&str, Lost> {
    let (_, value) = key_equals(alloc, text)?;
    number_of(alloc, value, number)
}

/// A number as it stands in the text, which begins with it.
pub(crate) fn number_of(alloc: Global, text: &str, number: i64) -> Result<&str, Lost> {
    let (scalar, rest) = unquoted(alloc, text)?;
    if scalar != Scalar::Integer(number) {
        return Err(Lost::NotThere);
    }
    text.strip_suffix(rest).ok_or(Lost::NotThere)
}

/// The next step after one that a part of a key goes, if it leads along the path. At its end it stays.
fn past(path: &[Step<'_>], at: usize, part: &str) -> Option<usize> {
    match path.get(at) {
        None => Some(at),
        Some(Step::Key(key)) if *key == part => Some(at.saturating_add(1)),
        Some(_) => None,
    }
}

/// The next step after one that a key goes, if it leads along the path.
fn after_key(path: &[Step<'_>], from: usize, key: &Key) -> Option<usize> {
    let mut at = from;
    for part in &key.path {
        at = past(path, at, part.as_str())?;
    }
    past(path, at, key.last.as_str())
}

/// A key, and the text from its value on.
fn key_equals(alloc: Global, text: &str) -> Result<(Key, &str), Lost> {
    let (key, rest) = dotted_key(alloc, text)?;
    Ok((key, skip_ws(rest.strip_prefix("=").ok_or(Lost::NotThere)?)))
}

/// The text from where the place begins to which a path leads within a value, from one of its steps on.
fn within<'t>(
    alloc: Global,
    value: &'t str,
    path: &[Step<'_>],
    from: usize,
) -> Result<&'t str, Lost> {
    let mut rest = value;
    let mut at = from;
    for _ in from..path.len() {
        let (after, next) = entered(alloc, rest, path, at)?;
        rest = after;
        at = next;
    }
    Ok(rest)
}

/// The text from the item or the key on to which a step leads within a value, or from the key's value on
/// if the path goes on there; and the next step.
fn entered<'t>(
    alloc: Global,
    value: &'t str,
    path: &[Step<'_>],
    at: usize,
) -> Result<(&'t str, usize), Lost> {
    match path.get(at) {
        None => Ok((value, at)),
        Some(Step::Item(number)) => Ok((item(alloc, value, *number)?, at.saturating_add(1))),
        Some(Step::Key(_)) => member(alloc, value, path, at),
    }
}

/// The text from an item of an array on.
fn item(alloc: Global, array: &str, number: usize) -> Result<&str, Lost> {
    let mut rest = skip_blank(array.strip_prefix("[").ok_or(Lost::NotThere)?, true);
    for _ in 0..number {
        rest = after_comma(after_value(alloc, rest)?)?;
    }
    Ok(rest)
}

/// The same of a key in an inline table.
fn member<'t>(
    alloc: Global,
    table: &'t str,
    path: &[Step<'_>],
    at: usize,
) -> Result<(&'t str, usize), Lost> {
    let mut rest = skip_blank(table.strip_prefix("{").ok_or(Lost::NotThere)?, true);
    for _ in 0..table.len() {
        let (key, value) = key_equals(alloc, rest)?;
        match after_key(path, at, &key) {
            None => rest = after_comma(after_value(alloc, value)?)?,
            Some(next) if next == path.len() => return Ok((rest, next)),
            Some(next) => return Ok((value, next)),
        }
    }
    Err(Lost::NotThere)
}

/// What comes after a comma.
fn after_comma(text: &str) -> Result<&str, Lost> {
    let rest = skip_blank(text, true)
        .strip_prefix(",")
        .ok_or(Lost::NotThere)?;
    Ok(skip_blank(rest, true))
}

/// What comes after a value.
fn after_value(alloc: Global, text: &str) -> Result<&str, Lost> {
    if first(text) == b'[' || first(text) == b'{' {
        return after_brackets(alloc, text);
    }
    if starts_string(text) {
        return Ok(quoted(alloc, text)?.1);
    }
    Ok(unquoted(alloc, text)?.1)
}

/// What comes after an array or an inline table.
fn after_brackets(alloc: Global, text: &str) -> Result<&str, Lost> {
    let mut open: usize = 0;
    let mut rest = text;
    for _ in 0..text.len() {
        if starts_string(rest) {
            rest = quoted(alloc, rest)?.1;
        } else {
            match first(rest) {
                b'[' | b'{' => open = open.saturating_add(1),
                b']' | b'}' => open = open.saturating_sub(1),
                _ => {}
            }
            rest = rest.get(1..).ok_or(Lost::NotThere)?;
        }
        if open == 0 {
            return Ok(rest);
        }
        rest = skip_blank(rest, true);
    }
    Err(Lost::NotThere)
}
