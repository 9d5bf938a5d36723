//! The flags of `stats`, and what they choose.
//!
//! Its rows: `tests/rows/arguments.txt`, `tests/rows/stats.txt`.

ghost use Rattle.std.specs.Prelude.{◌≡◌, MatchResult};
ghost use Rattle.clap.specs.Words.{found_of, rows_of};
ghost use Rattle.pmb_args.specs.Fails.{ChoosesFails};
ghost use Rattle.pmb_args.specs.Faults.{AreWrongStats, HasStatsFault};
ghost use Rattle.pmb_args.specs.Stats.{StatsAsk, digits_in_form, fail_on_in, stats_form_in, stats_wanted_of};

use crate::fact_words::{JSON_DIGITS, read_facts};
use crate::fail_list::FailList;
use crate::fail_words::read_fails;
use crate::flags::has_flag;
use crate::stats_arguments::{StatsArguments, StatsForm};
use crate::stats_fault::StatsFault;
use clap::ArgMatches;

/// The most digits after the point of a number in the table, where there is no `--digits`.
const TABLE_DIGITS: u8 = 4;

/// What the matches of `stats` choose.
///
/// # Errors
///
/// The first of these: the fault of the flags that `json` has too, `BadFailOn` for WHAT that is no list.
pub(crate) fn read_stats(arguments: &ArgMatches<'_>) -> Result<StatsArguments, StatsFault>
    ensures { MatchResult result (λ choice. StatsAsk (rows_of (found_of arguments.now)) (stats_wanted_of choice)) (HasStatsFault (rows_of (found_of arguments.now))) }
{
    let form = form(arguments);
    let facts = match read_facts(arguments, default_digits(form)) {
        Ok(facts) => facts,
        Err(fault) => return Err(StatsFault::Facts(fault)),
    };
    let fail_on = fail_on(arguments)?;
    Ok(StatsArguments {
        facts,
        form,
        fail_on,
    })
}

// In what form the sums are written, by `--json`.
fn form(arguments: &ArgMatches<'_>) -> StatsForm
    ensures { result ≡ stats_form_in (rows_of (found_of arguments.now)) }
{
    if has_flag(arguments, "json") {
        StatsForm::Objects
    } else {
        StatsForm::Table
    }
}

// The most digits after a point, where there is no `--digits`.
fn default_digits(form: StatsForm) -> u8
    ensures { result ≡ digits_in_form form }
{
    match form {
        StatsForm::Table => TABLE_DIGITS,
        StatsForm::Objects => JSON_DIGITS,
    }
}

// The list that WHAT of `--fail-on` spells, if WHAT is there.
fn fail_on(arguments: &ArgMatches<'_>) -> Result<Option<FailList>, StatsFault>
    ensures { MatchResult result
        (ChoosesFails (fail_on_in (rows_of (found_of arguments.now))))
        (λ fault. (fault ≡ StatsFault.BadFailOn) × AreWrongStats (rows_of (found_of arguments.now)) fault) }
{
    match arguments.get_str("fail-on") {
        Some(what) => match read_fails(what) {
            Some(fails) => Ok(Some(fails)),
            None => Err(StatsFault::BadFailOn),
        },
        None => Ok(None),
    }
}
