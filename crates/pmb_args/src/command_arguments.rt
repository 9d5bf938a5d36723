//! The flags and the words of the subcommands, as `clap` is told them.
//!
//! Its rows: `tests/rows/arguments.txt`.

ghost use Rattle.std.specs.Prelude.{◌≡◌, codes, false};
ghost use Rattle.clap.specs.Words.{rule_of};
ghost use Rattle.pmb_args.specs.Words.{flag, format_rule, required_word, sample, valued};

use clap::{Arg, ArgAction};
use std::alloc::Global;

/// The flag of all subcommands that work under a profile.
pub(crate) fn sample_flag<'a>(alloc: Global) -> Arg<'a>
    ensures rule { rule_of result ≡ sample }
    ensures local { result.global ≡ false }
{
    flag(alloc, "sample", "Use the built-in sample profile")
}

/// A flag.
pub(crate) fn flag<'a>(alloc: Global, name: &'a str, help: &'a str) -> Arg<'a>
    ensures rule { rule_of result ≡ flag name.entry.now }
    ensures local { result.global ≡ false }
{
    Arg::new(alloc, name)
        .long(name)
        .action(ArgAction::SetTrue)
        .help(help)
}

/// A flag that a word follows.
pub(crate) fn valued<'a>(
    alloc: Global,
    name: &'a str,
    word: &'a str,
    uses: ArgAction,
    help: &'a str,
) -> Arg<'a>
    ensures rule { rule_of result ≡ valued name.entry.now uses }
    ensures local { result.global ≡ false }
{
    Arg::new(alloc, name)
        .long(name)
        .value_name(word)
        .action(uses)
        .help(help)
}

/// The word SOURCE of `import`.
pub(crate) fn source_word<'a>(alloc: Global) -> Arg<'a>
    ensures rule { rule_of result ≡ required_word (codes "SOURCE") }
    ensures local { result.global ≡ false }
{
    required_word(
        alloc,
        "SOURCE",
        "sigrok, saleae, beagle, kernel or smbus: the text of sigrok's I2C\n\
         decoder, the table of Logic 2, the CSV of Data Center, the events of\n\
         i2c or of smbus in a trace of Linux",
    )
}

/// The word FORMAT of `encode` and `decode`.
pub(crate) fn format_word<'a>(alloc: Global) -> Arg<'a>
    ensures rule { rule_of result ≡ format_rule }
    ensures local { result.global ≡ false }
{
    required_word(
        alloc,
        "FORMAT",
        "linear11, linear11:E, ulinear16:E, slinear16:E, half, direct:M,B,R,\n\
         udirect:M,B,R, vid:TABLE or vout:HH: E is the exponent, M, B, R are\n\
         DIRECT's coefficients, TABLE is vr11, vr12, vr13, imvp9, amd625mv or\n\
         nvidia195mv, and HH VOUT_MODE in two hexadecimal digits",
    )
}

// A word that has to be there.
fn required_word<'a>(alloc: Global, name: &'a str, help: &'a str) -> Arg<'a>
    ensures rule { rule_of result ≡ required_word name.entry.now }
    ensures local { result.global ≡ false }
{
    Arg::new(alloc, name)
        .action(ArgAction::Set)
        .required(true)
        .help(help)
}
