//! What is said of words of the command line.
//!
//! Its rows: `tests/rows/explanations.txt`.

use pmb_convert::parse_format;
use pmb_corrections::{
    Correction, address_correction, digits_correction, fail_correction, format_correction, push,
    rate_correction, source_correction,
};
use std::alloc::Global;
use std::convert::AsStr;

/// What would be right in place of the words that have a fault of this name.
pub(crate) fn words_correction<S: AsStr>(alloc: Global, words: &[S], name: &str) -> Correction {
    match name {
        "BadDigits" => match value_of(words, "--digits") {
            Some(value) => digits_correction(value),
            None => Correction::new(),
        },
        "BadAddress" => match wrong_address(words) {
            Some(value) => address_correction(value),
            None => Correction::new(),
        },
        "BadRate" => match value_of(words, "--rate") {
            Some(value) => rate_correction(value),
            None => Correction::new(),
        },
        "BadFailOn" => match value_of(words, "--fail-on") {
            Some(what) => fail_correction(alloc, what),
            None => Correction::new(),
        },
        "BadSource" => match positional(words) {
            Some(word) => source_correction(alloc, word),
            None => Correction::new(),
        },
        "NeedsLate" => line(
            "  --fixed-vout-mode goes with --late alone: --late --fixed-vout-mode\n",
        ),
        "SigrokOnly" => line(
            "  --rate and --unshifted go with sigrok alone: other recordings have times, and addresses of 7 bits\n",
        ),
        "NoBus" => line(
            "  --bus does not go with beagle, whose recordings have one bus without a name\n",
        ),
        _ => match positional(words) {
            Some(word) => of_format(alloc, word),
            None => Correction::new(),
        },
    }
}

/// What would be right in place of FORMAT.
fn of_format(alloc: Global, word: &str) -> Correction {
    match parse_format(word) {
        Ok(_) => Correction::new(),
        Err(fault) => format_correction(alloc, word, fault),
    }
}

fn line(text: &str) -> Correction {
    let mut lines = Correction::new();
    push(&mut lines, text);
    lines
}

/// The value that a flag has among the words, as it comes first.
fn value_of<'a, S: AsStr>(words: &'a [S], flag: &str) -> Option<&'a str> {
    let mut is_next = false;
    for word in words {
        let word = word.as_str();
        if is_next {
            return Some(word);
        }
        if word == flag {
            is_next = true;
        } else if let Some(rest) = word.strip_prefix(flag) {
            if let Some(value) = rest.strip_prefix('=') {
                return Some(value);
            }
        }
    }
    None
}

/// The first HH of `--device` that is no address.
fn wrong_address<S: AsStr>(words: &[S]) -> Option<&str> {
    let mut is_next = false;
    for word in words {
        let word = word.as_str();
        let value = if is_next {
            Some(word)
        } else {
            word.strip_prefix("--device=")
        };
        is_next = word == "--device";
        if let Some(value) = value {
            if !is_address(value.as_bytes()) {
                return Some(value);
            }
        }
    }
    None
}

/// Whether a word is an address of seven bits.
fn is_address(word: &[u8]) -> bool {
    match word {
        [high, low] => *high < b'8' && high.is_ascii_digit() && low.is_ascii_hexdigit(),
        _ => false,
    }
}

/// The word after the subcommand that is no flag.
fn positional<S: AsStr>(words: &[S]) -> Option<&str> {
    match words {
        [_, _, word, ..] => Some(word.as_str()),
        _ => None,
    }
}
