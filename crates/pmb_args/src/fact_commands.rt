//! The subcommands that tell what a capture says: `json`, `log` and `stats`, as `clap` is told them.
//!
//! Its rows: `tests/rows/arguments.txt`.

ghost use Rattle.std.specs.Prelude.{◌≡◌, codes, false, IfOk};
ghost use Rattle.clap.specs.Words.{app_of, new_app};
ghost use Rattle.clap.specs.declared.builder.command.Command.TheViews.{out-Command as fields_of};
ghost use Rattle.pmb_args.specs.Words.{facts_app, stats_app, with_fact_flags};

use crate::command_arguments::{flag, sample_flag, valued};
use crate::commands::bare_command;
use clap::{ArgAction, Command};
use std::alloc::{AllocError, Global};

/// `json` with its flags.
pub(crate) fn json_command<'a>(alloc: Global) -> Result<Command<'a>, AllocError>
    ensures shape { IfOk result (λ command. app_of command ≡ facts_app (codes "json")) }
    ensures local { IfOk result (λ command. (fields_of command).has_globals ≡ false) }
{
    facts_command(
        alloc,
        "json",
        "pmb json [-p PROFILE | --part PART@HH | --sample] [OPTIONS] [FILE]...",
        "Writes what a capture says, as lines of JSON",
        "Files:\n  \
         [FILE]...                The capture; without any, and for '-', standard\n                           \
         input. Several are captures of their own\n  \
         -p, --profile <PROFILE>  Take the profile from this file\n      \
         --part <PART@HH>     Take the profile of the board of these parts, each\n                           \
         with its address. Without -p, --part and --sample it\n                           \
         comes before a line '%%' in the capture\n      \
         --joined             Read several files as one capture\n\n\
         'pmb profile' shows what a profile makes, or what is wrong with it.\n\n\
         Examples:\n  \
         echo 'S b0 A 21 A 00 A 18 A P' | pmb json --sample\n  \
         pmb json -p board.toml --device 58 capture.txt",
        "The most digits after the point of a number, 0 to 12; 6\n\
         without this",
        "Of the objects that name a device, write only those of\n\
         the device at this address of seven bits, in two\n\
         hexadecimal digits; may be given more than once",
    )
}

/// `log` with its flags.
pub(crate) fn log_command<'a>(alloc: Global) -> Result<Command<'a>, AllocError>
    ensures shape { IfOk result (λ command. app_of command ≡ facts_app (codes "log")) }
    ensures local { IfOk result (λ command. (fields_of command).has_globals ≡ false) }
{
    facts_command(
        alloc,
        "log",
        "pmb log [-p PROFILE | --part PART@HH | --sample] [OPTIONS] [FILE]...",
        "Writes what a capture says, as lines for people",
        "A line has the time, the device's address and name, the selected page, the\n\
         command, and what was written, read, refused or wrong.\n\n\
         Files:\n  \
         [FILE]...                The capture; without any, and for '-', standard\n                           \
         input. Several are captures of their own\n  \
         -p, --profile <PROFILE>  Take the profile from this file\n      \
         --part <PART@HH>     Take the profile of the board of these parts, each\n                           \
         with its address. Without -p, --part and --sample it\n                           \
         comes before a line '%%' in the capture\n      \
         --joined             Read several files as one capture\n\n\
         Terminal:\n      \
         --color <WORD>       auto, always or never: errors in red, warnings in\n                           \
         yellow; auto, the default, only on a terminal\n\n\
         'pmb profile' shows what a profile makes, or what is wrong with it.\n\n\
         Examples:\n  \
         echo 'S b0 A 21 A 00 A 18 A P' | pmb log --sample\n  \
         pmb log -p board.toml --late capture.txt",
        "The most digits after the point of a number, 0 to 12; 4\n\
         without this",
        "Of the lines that name a device, write only those of\n\
         the device at this address of seven bits, in two\n\
         hexadecimal digits; may be given more than once",
    )
}

/// `stats` with its flags.
pub(crate) fn stats_command<'a>(alloc: Global) -> Result<Command<'a>, AllocError>
    ensures shape { IfOk result (λ command. app_of command ≡ stats_app) }
    ensures local { IfOk result (λ command. (fields_of command).has_globals ≡ false) }
{
    let with_json = bare_stats_command(alloc).arg(flag(
        alloc,
        "json",
        "Write objects, one a line, instead of the table",
    ))?;
    let with_facts = with_fact_flags(
        alloc,
        with_json,
        "The most digits after the point of a number, 0 to 12;\n\
         without this 6 with --json, and 4 in the table",
        "Of the paragraphs or objects of devices, write only\n\
         those of the device at this address of seven bits, in\n\
         two hexadecimal digits; may be given more than once",
    )?;
    with_facts.arg(valued(
        alloc,
        "fail-on",
        "WHAT",
        ArgAction::Set,
        "What makes the exit status 1, with commas and no blanks\n\
         between: refusals, bad-tokens, nacks, alerts, faults,\n\
         none-read; without this refusals and bad-tokens",
    ))
}

// `stats` without its flags.
fn bare_stats_command<'a>(alloc: Global) -> Command<'a>
    ensures shape { app_of result ≡ new_app (codes "stats") }
    ensures local { (fields_of result).has_globals ≡ false }
{
    bare_command(
        alloc,
        "stats",
        "pmb stats [-p PROFILE | --part PART@HH | --sample] [OPTIONS] [FILE]...",
        "Writes what a capture comes to, as a table or as lines of JSON",
        "Each device has its counts, the status bits that were read set, with their\n\
         times, and the least, the mean and the greatest of each number.\n\n\
         The exit status is 1 if there was a refusal or a bad token. With --fail-on it is\n\
         1 exactly if one of its words holds: 'refusals' if there was a refusal or an end\n\
         inside a packet, 'bad-tokens' if there was a word that is no token, 'nacks' if a\n\
         packet was refused, 'alerts' if a device answered an alert, 'faults' if a status\n\
         bit was read set, other than BUSY, OFF, POWER_GOOD_N and those whose names end\n\
         in _WARN or _OVERRIDE, and 'none-read' if there was no packet.\n\n\
         Files:\n  \
         [FILE]...                The capture; without any, and for '-', standard\n                           \
         input. Several are captures of their own\n  \
         -p, --profile <PROFILE>  Take the profile from this file\n      \
         --part <PART@HH>     Take the profile of the board of these parts, each\n                           \
         with its address. Without -p, --part and --sample it\n                           \
         comes before a line '%%' in the capture\n      \
         --joined             Read several files as one capture\n\n\
         Terminal:\n      \
         --color <WORD>       auto, always or never: errors in red, warnings in\n                           \
         yellow; auto, the default, only on a terminal\n\n\
         'pmb profile' shows what a profile makes, or what is wrong with it.\n\n\
         Examples:\n  \
         echo 'S b0 A 7a A S b1 A 10 N P' | pmb stats --sample --fail-on faults\n  \
         pmb stats -p board.toml capture.txt",
    )
}

// `json` or `log` with its flags, of which `--digits` and `--device` have a help of their own.
fn facts_command<'a>(
    alloc: Global,
    name: &'a str,
    usage: &'a str,
    about: &'a str,
    example: &'a str,
    digits_help: &'a str,
    device_help: &'a str,
) -> Result<Command<'a>, AllocError>
    ensures shape { IfOk result (λ command. app_of command ≡ facts_app name.entry.now) }
    ensures local { IfOk result (λ command. (fields_of command).has_globals ≡ false) }
{
    let bare = bare_command(alloc, name, usage, about, example);
    with_fact_flags(alloc, bare, digits_help, device_help)
}

// A command with the flags that `json`, `log` and `stats` have.
fn with_fact_flags<'a>(
    alloc: Global,
    command: Command<'a>,
    digits_help: &'a str,
    device_help: &'a str,
) -> Result<Command<'a>, AllocError>
    requires local { (fields_of command).has_globals ≡ false }
    ensures shape { IfOk result (λ extended. app_of extended ≡ with_fact_flags (app_of command.entry)) }
    ensures local { IfOk result (λ extended. (fields_of extended).has_globals ≡ false) }
{
    command
        .arg(sample_flag(alloc))?
        .arg(flag(
            alloc,
            "late",
            "The capture begins in the middle: PAGE and VOUT_MODE\n\
             are unknown until they are written or read",
        ))?
        .arg(flag(
            alloc,
            "fixed-vout-mode",
            "With --late, VOUT_MODE begins as the profile says, and\n\
             only PAGE is unknown",
        ))?
        .arg(flag(
            alloc,
            "keep-going",
            "After a word that is no token, drop the rest of its\n\
             line and read on",
        ))?
        .arg(valued(alloc, "digits", "N", ArgAction::Set, digits_help))?
        .arg(valued(alloc, "device", "HH", ArgAction::Append, device_help))
}
