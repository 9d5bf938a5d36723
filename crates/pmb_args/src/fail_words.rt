//! WHAT of `--fail-on`: the words of what makes the status 1.
//!
//! Its rows: `tests/rows/arguments.txt`, `tests/rows/stats.txt`.

ghost use Rattle.std.specs.Prelude.{◌≡◌, ◌≢◌, List, MatchOption};
ghost use Rattle.std.specs.List.{list_any};
ghost use Rattle.pmb_stats_counts.specs.declared.fail.Fail.{Fail};
ghost use Rattle.pmb_args.specs.Fails.{SpellsFails, fail_word, same_fail};

use crate::fail_list::FailList;
use pmb_stats_counts::Fail;

/// What the words of a list name, with commas between them, each once; nothing where one of them names
/// nothing, as where there is no word before or after a comma.
pub(crate) fn read_fails(what: &str) -> Option<FailList>
    ensures { MatchOption result ((fails : List Fail) → ¬ (SpellsFails what.now fails)) (SpellsFails what.now) }
{
    let mut fails = FailList::new();
    for word in what.split(',') {
        let fail = fail_of(word)?;
        if !is_among(fails.as_slice(), fail) {
            fails.push(fail);
        }
    }
    Some(fails)
}

// Whether a list has one already.
fn is_among(fails: &[Fail], fail: Fail) -> bool
    ensures { result ≡ list_any (λ other. same_fail other fail) fails.now }
{
    fails.iter().any(|other| word_of(*other) == word_of(fail))
}

// What a word names.
fn fail_of(word: &str) -> Option<Fail>
    ensures { MatchOption result ((fail : Fail) → word.now ≢ fail_word fail) (λ fail. word.now ≡ fail_word fail) }
{
    if word == "refusals" {
        Some(Fail::Refusals)
    } else if word == "bad-tokens" {
        Some(Fail::BadTokens)
    } else if word == "nacks" {
        Some(Fail::Nacks)
    } else if word == "alerts" {
        Some(Fail::Alerts)
    } else if word == "faults" {
        Some(Fail::Faults)
    } else if word == "none-read" {
        Some(Fail::NoneRead)
    } else {
        None
    }
}

// The word that names this.
fn word_of(fail: Fail) -> &'static str
    ensures { result.now ≡ fail_word fail }
{
    match fail {
        Fail::Refusals => "refusals",
        Fail::BadTokens => "bad-tokens",
        Fail::Nacks => "nacks",
        Fail::Alerts => "alerts",
        Fail::Faults => "faults",
        Fail::NoneRead => "none-read",
    }
}
