//! `--color` among the words of `log` and `stats`, and which lines are to be painted.
//!
//! Its rows: `tests/files/rows.txt`.

ghost use Rattle.std.specs.Prelude.{◌≡◌, IfOk, if◌then◌else◌, map, option_map};
ghost use Rattle.pmb_files.specs.Color.{asked_choice, color_words, is_followed, lines_of, mark_of, painted_lines, takes_color, words_from};
ghost use Rattle.pmb_files.specs.Contradictions.{subcommand_name};
ghost use Rattle.pmb_files.specs.machine.Color.{color_words_of, last_of, with_more};

use crate::words::{count, is_valued};
use pmb_colour::{Choice, Lines, Output, choice_of, has_colour};
use pmb_words::behind;
use std::alloc::{AllocError, Global};
use std::convert::AsStr;

/// The words of a command line without those of `--color`.
#[derive(Drop)]
pub struct ColorWords<'a> {
    /// The words that are left.
    pub left: Vec<&'a str>,
    /// Each WORD of `--color`.
    pub colors: Vec<&'a [u8]>,
}

// What a word is, where no flag waits for it.
#[derive(Clone, Copy)]
enum Mark {
    // `--`: no flags follow.
    End,
    // `--color`
    Color,
    // Another flag that a word follows.
    Followed,
    Other,
}

// What the next word is.
#[derive(Clone, Copy)]
enum Awaited {
    // Nothing is known of it.
    Any,
    // The value of another flag.
    Value,
    // The WORD of `--color`.
    Word,
    // No flag, and so are all after it.
    Names,
}

/// Takes the words of `--color` out of those of a command line, the program's own name first: of `log`
/// and `stats`, which have that flag.
///
/// # Errors
///
/// There was no memory.
pub fn take_color<'a, S: AsStr>(alloc: Global, words: &'a [S]) -> Result<ColorWords<'a>, AllocError>
    ensures { IfOk result (λ asked. color_words_of asked ≡ color_words (map S.text words.entry.now)) }
{
    let mut asked = ColorWords {
        left: Vec::new(alloc),
        colors: Vec::new(alloc),
    };
    match words {
        [program, name, others @ ..] => {
            asked.left.push(program.as_str())?;
            asked.left.push(name.as_str())?;
            take_words(asked, first_awaited(name.as_str()), others)
        }
        [program] => {
            asked.left.push(program.as_str())?;
            Ok(asked)
        }
        [] => Ok(asked),
    }
}

impl<'a> ColorWords<'a> {
    /// What the words ask for: the last of `--color` counts, and without any it is `auto`. None where one
    /// of them is bad.
    pub fn choice(&self) -> Option<Choice>
        ensures { result ≡ asked_choice (color_words_of self.now).colors }
    {
        let mut choice = Choice::Auto;
        let mut left = self.colors.as_slice();
        while let [color, others @ ..] = left {
            match choice_of(color) {
                Some(next) => choice = next,
                None => return None,
            }
            left = others;
        }
        Some(choice)
    }

    /// Which lines the subcommand writes that may have colour.
    pub fn lines(&self) -> Option<Lines>
        ensures { result ≡ lines_of (color_words_of self.now).left }
    {
        let name = self.name();
        if name == "log" {
            Some(Lines::Log)
        } else if name == "stats" && count(self.left.as_slice(), "--json") == 0 {
            Some(Lines::Table)
        } else {
            None
        }
    }

    /// The lines that are painted, if any are: as the words say, and where they leave it open by what standard
    /// output is, and by the values of NO_COLOR and TERM, where these are set. Where a WORD is bad, none are.
    pub fn painted(
        &self,
        output: Output,
        no_color: Option<&str>,
        term: Option<&str>,
    ) -> Option<Lines>
        ensures { result ≡ painted_lines (color_words_of self.now) output (option_map (λ value. value.now) no_color.entry) (option_map (λ value. value.now) term.entry) }
    {
        match self.choice() {
            Some(choice) if has_colour(choice, output, no_color, term) => self.lines(),
            _ => None,
        }
    }

    /// The subcommand's name, where there is one.
    pub fn name(&self) -> &'a str
        ensures { result.now ≡ subcommand_name (color_words_of self.now).left }
    {
        match self.left.as_slice() {
            [_, name, ..] => name,
            _ => "",
        }
    }

    // Ends the words. The WORD of a `--color` without a word after it is empty.
    fn end(self, next: Awaited) -> Result<ColorWords<'a>, AllocError>
        ensures { IfOk result (λ new. color_words_of new ≡ with_more (color_words_of self.entry) (last_of next)) }
    {
        let mut asked = self;
        if let Awaited::Word = next {
            asked.colors.push(b"".as_slice())?;
        }
        Ok(asked)
    }
}

// Takes the words after the subcommand's name.
fn take_words<'a, S: AsStr>(
    asked: ColorWords<'a>,
    awaited: Awaited,
    words: &'a [S],
) -> Result<ColorWords<'a>, AllocError>
    ensures { IfOk result (λ new. color_words_of new ≡ with_more (color_words_of asked.entry) (words_from awaited (map S.text words.entry.now))) }
{
    let mut asked = asked;
    let mut next = awaited;
    let mut left = words;
    while let [word, others @ ..] = left {
        let word = word.as_str();
        next = match next {
            Awaited::Any => match behind(b"--color=", word.as_bytes()) {
                Some(color) => {
                    asked.colors.push(color)?;
                    Awaited::Any
                }
                None => match mark_of(word) {
                    Mark::End => {
                        asked.left.push(word)?;
                        Awaited::Names
                    }
                    Mark::Color => Awaited::Word,
                    Mark::Followed => {
                        asked.left.push(word)?;
                        Awaited::Value
                    }
                    Mark::Other => {
                        asked.left.push(word)?;
                        Awaited::Any
                    }
                },
            },
            Awaited::Value => {
                asked.left.push(word)?;
                Awaited::Any
            }
            Awaited::Word => {
                asked.colors.push(word.as_bytes())?;
                Awaited::Any
            }
            Awaited::Names => {
                asked.left.push(word)?;
                Awaited::Names
            }
        };
        left = others;
    }
    asked.end(next)
}

// What the first word after the subcommand's name is. Of a subcommand without `--color` all are left.
fn first_awaited(name: &str) -> Awaited
    ensures { result ≡ (if takes_color name.now then Awaited.Any else Awaited.Names) }
{
    if takes_color(name) {
        Awaited::Any
    } else {
        Awaited::Names
    }
}

// Whether `--color` is a flag of the subcommand.
fn takes_color(name: &str) -> bool
    ensures { result ≡ takes_color name.now }
{
    name == "log" || name == "stats"
}

// What a word is, where no flag waits for it.
fn mark_of(word: &str) -> Mark
    ensures { result ≡ mark_of word.now }
{
    if word == "--" {
        Mark::End
    } else if word == "--color" {
        Mark::Color
    } else if is_followed(word) {
        Mark::Followed
    } else {
        Mark::Other
    }
}

// Whether a word follows another flag.
fn is_followed(word: &str) -> bool
    ensures { result ≡ is_followed word.now }
{
    is_valued(word) || word == "-p" || word == "--profile"
}
