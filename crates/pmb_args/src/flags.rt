//! The flags of the subcommands.
//!
//! Its rows: `tests/rows/arguments.txt`.

ghost use Rattle.std.specs.Prelude.{◌≡◌};
ghost use Rattle.clap.specs.Words.{found_of, rows_of};
ghost use Rattle.pmb_args.specs.Flags.{has_flag};

use clap::ArgMatches;

/// Whether a flag is among the matches of a subcommand.
pub(crate) fn has_flag(arguments: &ArgMatches<'_>, name: &str) -> bool
    ensures { result ≡ has_flag name.now (rows_of (found_of arguments.now)) }
{
    arguments.get_str(name).unwrap_or("") == "true"
}
