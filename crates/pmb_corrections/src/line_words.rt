//! What would be right in place of a word of a transaction line or a request.
//!
//! Its rows: `tests/rows/explanations.txt`.

use crate::bytes::{append_of_byte, append_of_code};
use crate::likeness::nearest;
use crate::marked::{Correction, append_marked, push};
use pmb_line::{TextWord, Token, Words, token_of};
use std::alloc::Global;

/// What lines say.
#[derive(Clone, Copy, PartialEq, Eq)]
pub enum LineSort {
    /// Transactions, as `build` takes them.
    Transaction,
    /// Requests, as `run` takes them.
    Request,
}

/// The words that begin lines.
#[derive(Clone, Copy, PartialEq, Eq)]
enum Verb {
    Write,
    Read,
    Call,
    Refused,
    Alert,
    Set,
    Get,
}

/// What a word of a line is to say.
#[derive(Clone, Copy, PartialEq, Eq)]
enum Place {
    /// What the line says.
    First,
    Address,
    Code,
    /// Data that are written, or what follows them.
    Data,
    /// The colon before a reply.
    Colon,
    /// A reply, or what follows it.
    Reply,
    /// A quantity.
    Quantity,
    /// What a device replied at an alert.
    Replied,
    /// `pec`, or nothing.
    OrPec,
    /// `+` and one more part, or nothing.
    OrPart,
    /// Nothing more.
    Nothing,
}

/// The words that a transaction line may begin with, and those of a request.
const TRANSACTIONS: &[&str] = &["write", "read", "call", "refused", "alert"];

const REQUESTS: &[&str] = &["write", "read", "call", "set", "get"];

/// What would be right in place of the word of a line at an offset, or after its last word: the line with
/// a mark, and what may stand there.
pub fn word_correction(alloc: Global, line: &[u8], at: usize, sort: LineSort) -> Correction {
    let mut lines = Correction::new();
    append_marked(&mut lines, line, at);
    let mut words = Words::of(line);
    let mut verb = None;
    let mut place = Place::First;
    while let Some(word) = words.next_word() {
        if word.at >= at {
            append_of_word(alloc, word, verb, place, sort, &mut lines);
            push(&mut lines, "\n");
            return lines;
        }
        if place == Place::First {
            verb = verb_of(word.text, sort);
        }
        place = after(place, verb, word.text, sort);
    }
    push(&mut lines, "words are missing: ");
    push(&mut lines, expected(place, verb, sort));
    push(&mut lines, "\n");
    lines
}

/// What a first word says.
fn verb_of(word: &[u8], sort: LineSort) -> Option<Verb> {
    match (word, sort) {
        (b"write", _) => Some(Verb::Write),
        (b"read", _) => Some(Verb::Read),
        (b"call", _) => Some(Verb::Call),
        (b"refused", LineSort::Transaction) => Some(Verb::Refused),
        (b"alert", LineSort::Transaction) => Some(Verb::Alert),
        (b"set", LineSort::Request) => Some(Verb::Set),
        (b"get", LineSort::Request) => Some(Verb::Get),
        _ => None,
    }
}

/// What comes after a word that may stand where it does.
fn after(place: Place, verb: Option<Verb>, word: &[u8], sort: LineSort) -> Place {
    match place {
        Place::First => {
            if verb == Some(Verb::Alert) {
                Place::Replied
            } else {
                Place::Address
            }
        }
        Place::Address => {
            if verb == Some(Verb::Refused) {
                Place::Data
            } else {
                Place::Code
            }
        }
        Place::Code => after_code(verb, sort),
        Place::Data | Place::Reply => after_data(place, verb, token_of(word)),
        Place::Colon => Place::Reply,
        Place::Quantity => Place::OrPec,
        Place::Replied => {
            if word == b"none".as_slice() {
                Place::Nothing
            } else {
                Place::OrPec
            }
        }
        Place::OrPec | Place::Nothing => Place::Nothing,
        Place::OrPart => Place::Address,
    }
}

/// What comes after a command code.
fn after_code(verb: Option<Verb>, sort: LineSort) -> Place {
    match verb {
        Some(Verb::Read) => {
            if sort == LineSort::Transaction {
                Place::Colon
            } else {
                Place::OrPec
            }
        }
        Some(Verb::Set) => Place::Quantity,
        Some(Verb::Get) => Place::OrPec,
        Some(Verb::Write) | Some(Verb::Call) | Some(Verb::Refused) | Some(Verb::Alert) | None =>
            Place::Data,
    }
}

/// What comes after a word among data or in a reply.
fn after_data(place: Place, verb: Option<Verb>, token: Option<Token>) -> Place {
    match token {
        Some(Token::Colon) => Place::Reply,
        Some(Token::Plus) => Place::Address,
        Some(Token::Pec) => match verb {
            Some(Verb::Write) => Place::OrPart,
            Some(Verb::Refused) => Place::OrPart,
            Some(Verb::Read)
            | Some(Verb::Call)
            | Some(Verb::Alert)
            | Some(Verb::Set)
            | Some(Verb::Get)
            | None => Place::Nothing,
        },
        Some(Token::Read) => Place::Nothing,
        Some(Token::Byte(_))
        | Some(Token::Write)
        | Some(Token::Call)
        | Some(Token::Refused)
        | Some(Token::Alert)
        | Some(Token::Nobody)
        | None => place,
    }
}

/// What may stand at a place, in words.
fn expected(place: Place, verb: Option<Verb>, sort: LineSort) -> &'static str {
    match place {
        Place::First => match sort {
            LineSort::Transaction => "a line begins with write, read, call, refused or alert",
            LineSort::Request => "a request begins with write, read, call, set or get",
        },
        Place::Address => "an address of 7 bits, in two hexadecimal digits, such as 58",
        Place::Code => "a command code, in two hexadecimal digits, such as 21",
        Place::Data => match (verb, sort) {
            (Some(Verb::Write), _) =>
                "a byte in two hexadecimal digits, pec, or + and one more part",
            (Some(Verb::Call), LineSort::Transaction) => {
                "a byte in two hexadecimal digits, or : and what was replied"
            }
            (Some(Verb::Refused), _) =>
                "a byte in two hexadecimal digits, read, pec, or + and one more part",
            _ => "a byte in two hexadecimal digits, or pec",
        },
        Place::Colon => ": and then what was replied, as in read 58 88 : 00 d3",
        Place::Reply => "a byte in two hexadecimal digits, or pec",
        Place::Quantity => "a quantity, such as 12, -0.5 or 1/3",
        Place::Replied => "the byte that was replied, such as b0, or none",
        Place::OrPec => "pec, or nothing more",
        Place::OrPart => "+ and one more part, or nothing more",
        Place::Nothing => "nothing more",
    }
}

/// Writes what is wrong with a word, or what may stand in its place.
fn append_of_word(
    alloc: Global,
    word: TextWord<'_>,
    verb: Option<Verb>,
    place: Place,
    sort: LineSort,
    lines: &mut Correction,
) {
    let is_told = match place {
        Place::First => append_of_first(alloc, word.text, sort, lines),
        Place::Address => append_of_byte(word.text, lines),
        Place::Code => append_of_code(alloc, word.text, lines) || append_of_byte(word.text, lines),
        Place::OrPec if word.text == b":".as_slice() => {
            push(
                lines,
                "a request has no reply: the simulated device gives it",
            );
            true
        }
        Place::Colon | Place::Data | Place::Reply | Place::Replied | Place::OrPec | Place::OrPart =>
            append_of_pec(word.text, lines) || append_of_byte(word.text, lines),
        Place::Quantity | Place::Nothing => false,
    };
    if !is_told {
        push(lines, expected(place, verb, sort));
    }
}

/// Writes what may have been meant by a first word, if that is known.
fn append_of_first(alloc: Global, word: &[u8], sort: LineSort, lines: &mut Correction) -> bool {
    match (word, sort) {
        (b"set", LineSort::Transaction) | (b"get", LineSort::Transaction) => {
            push(lines, "this is a request: pmb run takes it");
            return true;
        }
        (b"refused", LineSort::Request) | (b"alert", LineSort::Request) => {
            push(lines, "this is a transaction line: pmb build takes it");
            return true;
        }
        (b"S", _) | (b"P", _) => {
            push(lines, "this is a capture: pmb show takes it");
            return true;
        }
        _ => {}
    }
    let verbs = match sort {
        LineSort::Transaction => TRANSACTIONS,
        LineSort::Request => REQUESTS,
    };
    let Ok(text) = std::str::from_utf8(word) else {
        return false;
    };
    match nearest(alloc, text, verbs) {
        Some(meant) => {
            push(lines, "did you mean ");
            push(lines, meant);
            push(lines, "?");
            true
        }
        None => false,
    }
}

/// Writes that `pec` has lower case, if a word is that in another case.
fn append_of_pec(word: &[u8], lines: &mut Correction) -> bool {
    if word.eq_ignore_ascii_case(b"pec") {
        push(lines, "in lower case: pec");
        return true;
    }
    false
}
