//! The flags that `json`, `log` and `stats` have, and what they choose.
//!
//! Its rows: `tests/rows/arguments.txt`, `tests/rows/json_objects.txt`, `tests/rows/log.txt`.

ghost use Rattle.std.specs.Prelude.{◌≡◌, ◌≤◌, ℕ, List, MatchOption, MatchResult, map};
ghost use Rattle.clap.specs.Words.{Text, found_of, rows_of};
ghost use Rattle.pmb_args.specs.Facts.{ChoosesDigits, FactsAsk, SpellDevices, SpellsAddress, SpellsDigits, SpellsNone, after_bad_token_in, digits_in, facts_wanted_of, start_in};
ghost use Rattle.pmb_args.specs.Faults.{HasFault};

use crate::fact_arguments::FactArguments;
use crate::facts_fault::FactsFault;
use crate::flags::has_flag;
use arrayvec::ArrayVec;
use clap::ArgMatches;
use pmb_decimal::Digits;
use pmb_scan::AfterBadToken;
use pmb_unknown_start::Start;

/// The most digits after the point of a number in objects, where there is no `--digits`.
pub(crate) const JSON_DIGITS: u8 = 6;

/// What the matches of `json`, `log` or `stats` choose by these flags, where without `--digits` a number
/// has at most `default_digits` after its point.
///
/// # Errors
///
/// The first of these: `NeedsLate` for `--fixed-vout-mode` without `--late`, `BadDigits` for N that is
/// no number from 0 to 12, `BadAddress` for HH that is no address of seven bits.
pub(crate) fn read_facts(
    arguments: &ArgMatches<'_>,
    default_digits: u8,
) -> Result<FactArguments, FactsFault>
    requires few { default_digits ≤ 12 }
    ensures { MatchResult result (λ choice. FactsAsk default_digits (rows_of (found_of arguments.now)) (facts_wanted_of choice)) (HasFault (rows_of (found_of arguments.now))) }
{
    let Some(start) = start(arguments) else {
        return Err(FactsFault::NeedsLate);
    };
    let Some(digits) = digits(arguments, default_digits) else {
        return Err(FactsFault::BadDigits);
    };
    let Some(devices) = read_devices(arguments.get_strs("device").unwrap_or(&[])) else {
        return Err(FactsFault::BadAddress);
    };
    Ok(FactArguments {
        start,
        after_bad_token: after_bad_token(arguments),
        digits,
        devices,
    })
}

// What is known at first, by `--late` and `--fixed-vout-mode`; nothing where the first is missing.
fn start(arguments: &ArgMatches<'_>) -> Option<Start>
    ensures { result ≡ start_in (rows_of (found_of arguments.now)) }
{
    let is_fixed = has_flag(arguments, "fixed-vout-mode");
    if has_flag(arguments, "late") {
        Some(if is_fixed {
            Start::LateFixedMode
        } else {
            Start::Late
        })
    } else if is_fixed {
        None
    } else {
        Some(Start::AllKnown)
    }
}

// What is done after a word that is no token, by `--keep-going`.
fn after_bad_token(arguments: &ArgMatches<'_>) -> AfterBadToken
    ensures { result ≡ after_bad_token_in (rows_of (found_of arguments.now)) }
{
    if has_flag(arguments, "keep-going") {
        AfterBadToken::Continue
    } else {
        AfterBadToken::End
    }
}

// The most digits after a point: those that N of `--digits` spells, or the default without N.
fn digits(arguments: &ArgMatches<'_>, default_digits: u8) -> Option<Digits>
    requires few { default_digits ≤ 12 }
    ensures { MatchOption result (SpellsNone (digits_in (rows_of (found_of arguments.now)))) (ChoosesDigits default_digits (digits_in (rows_of (found_of arguments.now)))) }
{
    match arguments.get_str("digits") {
        Some(word) => read_digits(word),
        None => Digits::new(default_digits),
    }
}

// The number from 0 to 12 that a word spells.
fn read_digits(word: &str) -> Option<Digits>
    ensures { MatchOption result ((n : ℕ) → ¬ (SpellsDigits word.now n)) (SpellsDigits word.now) }
{
    if word.starts_with('+') {
        return None;
    }
    match word.parse::<u8>() {
        Ok(count) => Digits::new(count),
        Err(_) => None,
    }
}

// The addresses that words spell, each once.
fn read_devices(words: &[&str]) -> Option<ArrayVec<u8, 128>>
    ensures { MatchOption result ((devices : List ℕ) → ¬ (SpellDevices (map (λ word. word.now) words.now) devices)) (λ devices. SpellDevices (map (λ word. word.now) words.now) devices.items) }
{
    let mut devices = ArrayVec::<u8, 128>::new();
    for word in words {
        let address = read_address(word)?;
        if !devices.contains(&address) {
            devices.push(address);
        }
    }
    Some(devices)
}

// The address of seven bits that a word spells.
fn read_address(word: &str) -> Option<u8>
    ensures { MatchOption result ((address : ℕ) → ¬ (SpellsAddress word.now address)) (SpellsAddress word.now) }
{
    let mut bytes = [0; 1];
    match hex::decode_to_slice(word, &mut bytes) {
        Ok(()) if bytes[0] < 0x80 => Some(bytes[0]),
        _ => None,
    }
}
