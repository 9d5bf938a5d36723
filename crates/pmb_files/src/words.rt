//! The words of the command line that name files or are values, and the words that are left for the tool.
//!
//! Its rows: `tests/files/rows.txt`.

ghost use Rattle.std.specs.Prelude.{◌≡◌, ◌++◌, IfOk, None, OnOk, map};
ghost use Rattle.pmb_files.specs.Words.{begins_as_flag, begins_as_negative, has_own_word, is_valued, sort_of, split_words, takes_files, takes_profile, use_of, words_after, words_of};
ghost use Rattle.pmb_files.specs.Contradictions.{count_of, has_several, has_two_inputs, has_two_profiles, names_nothing, names_of, reads_each, subcommand_name};
ghost use Rattle.pmb_files.specs.Headings.{heading_of};
ghost use Rattle.pmb_files.specs.machine.Words.{after, file_words_of, last_word, plain_word};

use crate::file_use::FileUse;
use crate::heading::Heading;
use std::alloc::{AllocError, Global};
use std::convert::AsStr;

/// Standard input alone.
const INPUT: &[&str] = &["-"];

/// What the words of a command line say of files.
#[derive(Drop)]
pub struct FileWords<'a> {
    /// The words that are left for the tool.
    pub tool: Vec<&'a str>,
    /// Each PROFILE of `-p`.
    pub profiles: Vec<&'a str>,
    /// Whether the files are read as one, by `--joined`.
    pub is_joined: bool,
    /// Each FILE.
    pub files: Vec<&'a str>,
    /// Each VALUE.
    pub values: Vec<&'a str>,
}

// What a word is, where no flag waits for it.
#[derive(Clone, Copy)]
enum Sort {
    // `--`: no flags follow.
    End,
    // `-p`
    Profile,
    // `--joined`
    Joined,
    // A flag of the tool that a word follows.
    Valued,
    // Another flag, or a flag with its value.
    Flag,
    // No flag.
    Plain,
}

// What the next word is.
#[derive(Clone, Copy)]
enum Next {
    // Nothing is known of it.
    Any,
    // The value of a flag of the tool.
    Value,
    // The PROFILE of `-p`.
    ProfileName,
    // No flag, and so are all after it.
    Names,
}

/// Takes the words that name files out of those of a command line, the program's own name first.
///
/// # Errors
///
/// There was no memory.
pub fn split_words<'a, S: AsStr>(alloc: Global, words: &'a [S]) -> Result<FileWords<'a>, AllocError>
    ensures { IfOk result (λ said. file_words_of said ≡ split_words (map S.text words.entry.now)) }
{
    let mut said = FileWords {
        tool: Vec::new(alloc),
        profiles: Vec::new(alloc),
        is_joined: false,
        files: Vec::new(alloc),
        values: Vec::new(alloc),
    };
    match words {
        [program, name, others @ ..] => {
            said.tool.push(program.as_str())?;
            said.tool.push(name.as_str())?;
            match use_of(name.as_str()) {
                Some(file_use) => take_words(said, file_use, others),
                None => leave_words(said, others),
            }
        }
        [program] => {
            said.tool.push(program.as_str())?;
            Ok(said)
        }
        [] => Ok(said),
    }
}

impl<'a> FileWords<'a> {
    /// The subcommand's name, where there is one.
    pub fn name(&self) -> &'a str
        ensures { result.now ≡ subcommand_name (file_words_of self.now).tool }
    {
        match self.tool.as_slice() {
            [_, name, ..] => name,
            _ => "",
        }
    }

    /// Whether no word names a file or is a value, and `--joined` is not there.
    pub fn names_nothing(&self) -> bool
        ensures { result ≡ names_nothing (file_words_of self.now) }
    {
        !self.is_joined
            && self.profiles.is_empty()
            && self.files.is_empty()
            && self.values.is_empty()
    }

    /// The files that are read: standard input where none is named.
    pub fn names(&self) -> &[&'a str]
        ensures { map (λ name. name.now) result.now ≡ names_of (file_words_of self.now) }
    {
        if self.files.is_empty() {
            INPUT
        } else {
            self.files.as_slice()
        }
    }

    /// Whether there are two profiles, or one and the sample.
    pub fn has_two_profiles(&self) -> bool
        ensures { result ≡ has_two_profiles (file_words_of self.now) }
    {
        self.profiles.len() >= 2
            || (self.profiles.len() >= 1 && count(self.tool.as_slice(), "--sample") >= 1)
    }

    /// How a file is announced among several: by an object where objects are written.
    pub(crate) fn heading(&self) -> Heading
        ensures { result ≡ heading_of (file_words_of self.now) }
    {
        let name = self.name();
        if name == "json" || (name == "stats" && count(self.tool.as_slice(), "--json") >= 1) {
            Heading::Object
        } else {
            Heading::Comment
        }
    }

    /// Whether there are several files that are not joined.
    pub fn has_several(&self) -> bool
        ensures { result ≡ has_several (file_words_of self.now) }
    {
        self.files.len() >= 2 && !self.is_joined
    }

    /// Whether standard input is named twice, or for a profile, or several files are named where one is
    /// read.
    pub fn has_two_inputs(&self) -> bool
        ensures { result ≡ has_two_inputs (file_words_of self.now) }
    {
        count(self.files.as_slice(), "-") >= 2
            || count(self.profiles.as_slice(), "-") >= 1
            || (self.has_several() && !reads_each(use_of(self.name())))
    }

    // Takes a word that is no flag: the subcommand's own, if that is still to come, or a file or a value.
    fn take_plain(&mut self, file_use: FileUse, own: bool, word: &'a str) -> Result<(), AllocError>
        ensures { OnOk result (file_words_of self.new ≡ after (file_words_of self.old) (plain_word file_use own word.entry.now)) }
    {
        if own {
            self.tool.push(word)?;
            return Ok(());
        }
        match file_use {
            FileUse::Captures | FileUse::Input | FileUse::Recording | FileUse::Bare => {
                self.files.push(word)?;
            }
            FileUse::Values => self.values.push(word)?,
        }
        Ok(())
    }

    // Ends the words. A `-p` without a word after it is left to the tool.
    fn end(self, next: Next) -> Result<FileWords<'a>, AllocError>
        ensures { IfOk result (λ new. file_words_of new ≡ after (file_words_of self.entry) (last_word next)) }
    {
        let mut said = self;
        if let Next::ProfileName = next {
            said.tool.push("-p")?;
        }
        Ok(said)
    }
}

// Leaves all words to the tool.
fn leave_words<'a, S: AsStr>(
    said: FileWords<'a>,
    words: &'a [S],
) -> Result<FileWords<'a>, AllocError>
    ensures { IfOk result (λ new. file_words_of new ≡ after (file_words_of said.entry) (words_after None (map S.text words.entry.now))) }
{
    let mut said = said;
    for word in words {
        said.tool.push(word.as_str())?;
    }
    Ok(said)
}

// Takes the words after the subcommand's name.
fn take_words<'a, S: AsStr>(
    said: FileWords<'a>,
    file_use: FileUse,
    words: &'a [S],
) -> Result<FileWords<'a>, AllocError>
    ensures { IfOk result (λ new. file_words_of new ≡ after (file_words_of said.entry) (words_of file_use (has_own_word file_use) Next.Any (map S.text words.entry.now))) }
{
    let mut said = said;
    let mut own = has_own_word(file_use);
    let mut next = Next::Any;
    let mut left = words;
    while let [word, others @ ..] = left {
        let word = word.as_str();
        next = match next {
            Next::Any => match sort_of(file_use, word) {
                Sort::End => Next::Names,
                Sort::Profile => Next::ProfileName,
                Sort::Joined => {
                    said.is_joined = true;
                    Next::Any
                }
                Sort::Valued => {
                    said.tool.push(word)?;
                    Next::Value
                }
                Sort::Flag => {
                    said.tool.push(word)?;
                    Next::Any
                }
                Sort::Plain => {
                    said.take_plain(file_use, own, word)?;
                    own = false;
                    Next::Any
                }
            },
            Next::Value => {
                said.tool.push(word)?;
                Next::Any
            }
            Next::ProfileName => {
                said.profiles.push(word)?;
                Next::Any
            }
            Next::Names => {
                said.take_plain(file_use, own, word)?;
                own = false;
                Next::Names
            }
        };
        left = others;
    }
    said.end(next)
}

// How often a word is among words.
pub(crate) fn count(words: &[&str], word: &str) -> usize
    ensures { result ≡ count_of word.now (map (λ word. word.now) words.now) }
{
    let mut count = 0;
    let mut left = words;
    while let [other, others @ ..] = left {
        if *other == word {
            count += 1;
        }
        left = others;
    }
    count
}

// What a subcommand takes files for, by its name.
fn use_of(name: &str) -> Option<FileUse>
    ensures { result ≡ use_of name.now }
{
    match name {
        "show" | "check" | "json" | "log" | "stats" => Some(FileUse::Captures),
        "build" | "run" | "profile" => Some(FileUse::Input),
        "import" => Some(FileUse::Recording),
        "scan" => Some(FileUse::Bare),
        "encode" | "decode" => Some(FileUse::Values),
        _ => None,
    }
}

// Whether the subcommand reads several files as captures of their own.
fn reads_each(file_use: Option<FileUse>) -> bool
    ensures { result ≡ reads_each file_use }
{
    match file_use {
        Some(FileUse::Captures) => true,
        Some(FileUse::Input)
        | Some(FileUse::Recording)
        | Some(FileUse::Bare)
        | Some(FileUse::Values)
        | None => false,
    }
}

// Whether `-p` is a flag of the subcommand.
fn takes_profile(file_use: FileUse) -> bool
    ensures { result ≡ takes_profile file_use }
{
    match file_use {
        FileUse::Captures | FileUse::Input => true,
        FileUse::Recording | FileUse::Bare | FileUse::Values => false,
    }
}

// Whether the subcommand takes files.
fn takes_files(file_use: FileUse) -> bool
    ensures { result ≡ takes_files file_use }
{
    match file_use {
        FileUse::Captures | FileUse::Input | FileUse::Recording | FileUse::Bare => true,
        FileUse::Values => false,
    }
}

// Whether the first word that is no flag is the subcommand's own: SOURCE of `import`, FORMAT of `encode`
// and `decode`.
fn has_own_word(file_use: FileUse) -> bool
    ensures { result ≡ has_own_word file_use }
{
    match file_use {
        FileUse::Captures | FileUse::Input | FileUse::Bare => false,
        FileUse::Recording | FileUse::Values => true,
    }
}

// What a word is, where no flag waits for it.
fn sort_of(file_use: FileUse, word: &str) -> Sort
    ensures { result ≡ sort_of file_use word.now }
{
    if word == "--" {
        Sort::End
    } else if takes_profile(file_use) && (word == "-p" || word == "--profile") {
        Sort::Profile
    } else if takes_files(file_use) && word == "--joined" {
        Sort::Joined
    } else if is_valued(word) {
        Sort::Valued
    } else if !takes_files(file_use) && begins_as_negative(word) {
        Sort::Plain
    } else if begins_as_flag(word) {
        Sort::Flag
    } else {
        Sort::Plain
    }
}

// Whether a word follows a flag of the tool.
pub(crate) fn is_valued(word: &str) -> bool
    ensures { result ≡ is_valued word.now }
{
    word == "--digits"
        || word == "--device"
        || word == "--fail-on"
        || word == "--bus"
        || word == "--rate"
}

// Whether a word begins with `-` and has more.
fn begins_as_flag(word: &str) -> bool
    ensures { result ≡ begins_as_flag word.now }
{
    match word.as_bytes() {
        [first, _, ..] => *first == b'-',
        _ => false,
    }
}

// Whether a word begins with `-` and a digit.
fn begins_as_negative(word: &str) -> bool
    ensures { result ≡ begins_as_negative word.now }
{
    match word.as_bytes() {
        [first, second, ..] => *first == b'-' && *second >= b'0' && *second <= b'9',
        _ => false,
    }
}
