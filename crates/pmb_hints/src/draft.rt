//! The lines that help while they are written, and where the fault is.

ghost use Rattle.std.specs.Prelude.{◌≡◌, [], false};

use crate::values::{Shown, shown};
use crate::walk::Lost;
use arrayvec::ArrayString;
use toml::Value;

/// A few lines, each with its LF and with two spaces in front, and the place of the fault.
#[derive(Drop)]
pub(crate) struct Draft {
    pub(crate) text: ArrayString<1024>,
    /// How many bytes of the profile's text come before the fault, if that is known.
    pub(crate) at: Option<usize>,
    /// Whether there was no memory to look for a place.
    pub(crate) has_no_memory: bool,
}

impl Draft {
    pub(crate) fn new() -> Draft
        ensures text { result.text.bytes ≡ [] }
        ensures memory { result.has_no_memory ≡ false }
    {
        Draft {
            text: ArrayString::new(),
            at: None,
            has_no_memory: false,
        }
    }

    /// Takes a place that was looked for, unless there is one already: the text from there on.
    pub(crate) fn stand(&mut self, text: &str, found: Result<&str, Lost>) {
        match found {
            Ok(rest) if self.at.is_none() => {
                self.at = Some(text.len().saturating_sub(rest.len()));
            }
            Ok(_) => {}
            Err(lost) => self.lose(lost),
        }
    }

    /// A number as it stands in the text if it was found there, or else its value as it is shown.
    pub(crate) fn spelled(&mut self, found: Result<&str, Lost>, value: &Value) -> Shown {
        match found {
            Ok(text) => Shown::from(text).unwrap_or(shown(value)),
            Err(lost) => {
                self.lose(lost);
                shown(value)
            }
        }
    }

    /// Takes note of what was looked for and not found.
    fn lose(&mut self, lost: Lost) {
        if let Lost::NoMemory = lost {
            self.has_no_memory = true;
        }
    }
}
