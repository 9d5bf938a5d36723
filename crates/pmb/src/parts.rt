//! `pmb parts`: the parts that are there, and the profile of a board of some of them.

use crate::folders::{folders, part_text, parts_in};
use pmb_cli::{Sink, report_board};
use pmb_parts::{BoardFault, Part, about, board};
use std::alloc::Global;
use std::convert::AsStr;
use std::io;

/// What is written of a word that is none of a part.
const BAD_WORD: &[u8] = b": write NAME@HH, such as ltc3880@4f\n";

/// What is written of a part that is not there.
const NO_PART: &[u8] = b": no such part: 'pmb parts' lists them\n";

/// The words after `parts`, if the words ask for parts, and not for help.
pub(crate) fn parts_asked(words: &[String]) -> Option<&[String]> {
    match words {
        [_, task, rest @ ..] if task.as_str() == "parts" && !has_flag(rest) => Some(rest),
        _ => None,
    }
}

/// Whether a word is a flag.
fn has_flag(words: &[String]) -> bool {
    for word in words {
        if word.as_str().starts_with('-') {
            return true;
        }
    }
    false
}

/// Runs `pmb parts` with the words after it, and returns the exit status: 0; 2 where a word names no part,
/// or what the parts make has a fault; 3 where writing failed; 4 where there was no memory.
pub(crate) fn run_parts<W: Sink, E: Sink>(
    rt: &HostRuntime,
    words: &[String],
    out: &mut W,
    err: &mut E,
) -> u8 {
    if words.is_empty() {
        return match list(rt) {
            Ok(text) => write(text.as_slice(), out, err),
            Err(_) => no_memory(err),
        };
    }
    match board_of(rt, words, err) {
        Ok(text) => write(text.as_slice(), out, err),
        Err(status) => status,
    }
}

/// Writes a text, and returns the exit status.
fn write<W: Sink, E: Sink>(text: &[u8], out: &mut W, err: &mut E) -> u8 {
    match out.write_all(text) {
        Ok(()) => 0,
        Err(_) => fail(3, b"write failed\n", err),
    }
}

/// Reports a fault, and returns the exit status.
fn fail<E: Sink>(status: u8, text: &[u8], err: &mut E) -> u8 {
    let _ = err.write_all(b"pmb: ");
    let _ = err.write_all(text);
    status
}

/// Reports that there was no memory, and returns the exit status.
pub(crate) fn no_memory<E: Sink>(err: &mut E) -> u8 {
    fail(4, b"no memory\n", err)
}

/// A line for each part: its name, and what it is.
fn list(rt: &HostRuntime) -> io::Result<Vec<u8>> {
    let alloc = rt.alloc();
    let mut listed: Vec<String> = Vec::new(alloc);
    let mut text = Vec::new(alloc);
    for folder in folders(rt)? {
        for name in parts_in(rt, folder.as_str())? {
            if !listed.contains(&name) {
                if let Ok(profile) = part_text(rt, folder.as_str(), name.as_str()) {
                    text.extend_from_slice(name.as_bytes())?;
                    text.extend_from_slice(b"  ")?;
                    text.extend_from_slice(about(alloc, profile.as_slice())?.as_slice())?;
                    text.extend_from_slice(b"\n")?;
                }
                listed.push(name)?;
            }
        }
    }
    Ok(text)
}

/// The name and the address of a word `NAME@HH`. A name has no slash.
fn part_of(word: &str) -> Option<(&str, u8)> {
    let (name, digits) = word.rsplit_once('@')?;
    let mut address = [0; 1];
    if name.is_empty()
        || name.contains('/')
        || hex::decode_to_slice(digits, &mut address).is_err()
    {
        return None;
    }
    if address[0] < 128 {
        Some((name, address[0]))
    } else {
        None
    }
}

/// The text of a part, from the first folder that has it.
fn find(rt: &HostRuntime, folders: &[String], name: &str) -> Option<Vec<u8>> {
    for folder in folders {
        if let Ok(text) = part_text(rt, folder.as_str(), name) {
            return Some(text);
        }
    }
    None
}

/// The profile of a board of the parts that words name.
///
/// # Errors
///
/// The exit status, where a word names no part, what the parts make has a fault, or there was no memory; which
/// is reported on `err`.
pub(crate) fn board_of<S: AsStr, E: Sink>(
    rt: &HostRuntime,
    words: &[S],
    err: &mut E,
) -> Result<Vec<u8>, u8> {
    let alloc = rt.alloc();
    let Ok(places) = folders(rt) else {
        return Err(no_memory(err));
    };
    let mut texts = Vec::new(alloc);
    let mut addresses = Vec::new(alloc);
    for word in words {
        let Some((name, address)) = part_of(word.as_str()) else {
            return Err(refuse(word.as_str(), BAD_WORD, err));
        };
        let Some(text) = find(rt, places.as_slice(), name) else {
            return Err(refuse(name, NO_PART, err));
        };
        if texts.push(text).is_err() || addresses.push(address).is_err() {
            return Err(no_memory(err));
        }
    }
    let mut parts = Vec::new(alloc);
    for (text, address) in texts.iter().zip(addresses.iter()) {
        let part = Part {
            text: text.as_slice(),
            address: *address,
        };
        if parts.push(part).is_err() {
            return Err(no_memory(err));
        }
    }
    match board(alloc, parts.as_slice()) {
        Ok(text) => Ok(text),
        Err(fault) => Err(report(fault, words, err)),
    }
}

/// Reports what is wrong with a word, and returns the exit status.
fn refuse<E: Sink>(word: &str, why: &[u8], err: &mut E) -> u8 {
    let _ = err.write_all(b"pmb: parts: ");
    let _ = err.write_all(word.as_bytes());
    let _ = err.write_all(why);
    2
}

/// Reports why parts make no board, and returns the exit status.
fn report<S: AsStr, E: Sink>(fault: BoardFault, words: &[S], err: &mut E) -> u8 {
    match fault {
        BoardFault::Memory => no_memory(err),
        BoardFault::Part { part, fault } => {
            if let Some(word) = words.get(part) {
                let _ = refuse(word.as_str(), b": its profile has a fault\n", err);
            }
            report_board(fault, err)
        }
        BoardFault::Tables { part } => match words.get(part) {
            Some(word) => refuse(
                word.as_str(),
                b": its tables have to begin with a line [[device]] each, the first with its address\n",
                err,
            ),
            None => 2,
        },
        BoardFault::Board(fault) => report_board(fault, err),
        BoardFault::TooLong => fail(2, b"parts: the profile would be too long\n", err),
        BoardFault::Refused => fail(
            2,
            b"parts: the profile lacks a part: please report this\n",
            err,
        ),
    }
}
