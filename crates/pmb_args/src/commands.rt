//! The command line as `clap` is told it: `pmb` with its subcommands, and their help.
//!
//! Its rows: `tests/rows/arguments.txt`.

ghost use Rattle.std.specs.Prelude.{◌≡◌, codes, false, IfOk};
ghost use Rattle.clap.specs.Words.{app_of, new_app, rule_of, with_rule, with_subcommand};
ghost use Rattle.clap.specs.declared.builder.command.Command.TheViews.{out-Command as fields_of};
ghost use Rattle.pmb_args.specs.Words.{capture_app, import_app, parts_app, pmb_app, recording_app, sampled_app, scan_app, top_app};

use crate::command_arguments::{flag, format_word, sample_flag, source_word, valued};
use crate::fact_commands::{json_command, log_command, stats_command};
use clap::{Arg, ArgAction, Command};
use std::alloc::{AllocError, Global};

/// `pmb` with its subcommands.
pub(crate) fn pmb_command<'a>(alloc: Global) -> Result<Command<'a>, AllocError>
    ensures { IfOk result (λ command. app_of command ≡ pmb_app) }
{
    let describing = with_leaf(
        alloc,
        traffic_command(alloc)?,
        "profile",
        "pmb profile [-p PROFILE | --part PART@HH | --sample] [--joined] [FILE]...",
        "Shows the bus that a profile makes: its devices and their commands",
        "If the profile is wrong, this says why.\n\n\
         Files:\n  \
         [FILE]...                The profile, up to a line '%%' or its end; without\n                           \
         any, and for '-', standard input\n  \
         -p, --profile <PROFILE>  Take the profile from this file\n      \
         --part <PART@HH>     Take the profile of the board of these parts, each\n                           \
         with its address\n      \
         --joined             Read several files as one\n\n\
         Examples:\n  \
         pmb profile examples/profiles/ltc3880.toml\n  \
         pmb profile --part ltc3880@4f",
        sample_flag(alloc),
    )?;
    let scanning = describing.subcommand(scan_command(alloc))?;
    let picking = scanning.subcommand(parts_command(alloc))?;
    let encoding = with_leaf(
        alloc,
        picking,
        "encode",
        "pmb encode <FORMAT> [VALUE]...",
        "Writes the code of each quantity, one a line",
        "Each VALUE is a quantity; without any they come on standard input, one a line. A\n\
         code is a number of four hexadecimal digits, its high byte first. On the bus the\n\
         low byte comes first: the code 1800 goes out as 00 18, as in\n\
         'write 58 21 00 18'.\n\n\
         Examples:\n  \
         pmb encode linear11 12 -0.5\n  \
         pmb encode vout:17 1.2",
        format_word(alloc),
    )?;
    with_leaf(
        alloc,
        encoding,
        "decode",
        "pmb decode <FORMAT> [VALUE]...",
        "Writes the quantity of each code, one a line",
        "Each VALUE is a code; without any they come on standard input, one a line. A\n\
         code is a number of four hexadecimal digits, its high byte first; 0x may stand\n\
         before a VALUE. On the bus and in the lines of 'show' the low byte comes first:\n\
         'read 58 88 : 00 d3' has the code d300.\n\n\
         Examples:\n  \
         pmb decode linear11 d300\n  \
         pmb decode vout:17 0x1800",
        format_word(alloc),
    )
}

// `scan`, which has no flags.
fn scan_command<'a>(alloc: Global) -> Command<'a>
    ensures shape { app_of result ≡ scan_app }
    ensures local { (fields_of result).has_globals ≡ false }
{
    bare_command(
        alloc,
        "scan",
        "pmb scan [--joined] [FILE]...",
        "Writes a first profile of the bus, from a capture alone",
        "The profile has a device for each address that acknowledged, with the commands\n\
         that its packets show. What a profile can't have, it says in comments.\n\n\
         Files:\n  \
         [FILE]...                The capture, without any profile; without FILE, and\n                           \
         for '-', standard input\n      \
         --joined             Read several files as one capture\n\n\
         Examples:\n  \
         pmb scan capture.txt > board.toml\n  \
         pmb import kernel trace.txt | pmb scan > board.toml",
    )
}

// `parts`, which `main` runs: it looks into folders. Here it has its help alone.
fn parts_command<'a>(alloc: Global) -> Command<'a>
    ensures shape { app_of result ≡ parts_app }
    ensures local { (fields_of result).has_globals ≡ false }
{
    bare_command(
        alloc,
        "parts",
        "pmb parts [NAME@HH]...",
        "Lists parts that have a profile, or writes the profile of a board",
        "Without more words it lists the parts. With words NAME@HH, a part and its\n\
         address in two hexadecimal digits, it writes the profile of a board that has\n\
         them. Profiles of parts are looked for in the folder that PMB_PARTS names, in\n\
         pmb/parts of XDG_CONFIG_HOME, and where pmb is installed.\n\n\
         Examples:\n  \
         pmb parts ltc3880@4f adm1272@10 > board.toml\n  \
         pmb parts",
    )
}

// `pmb` with `import`, `show`, `check`, `json`, `log`, `stats`, `build` and `run`.
fn traffic_command<'a>(alloc: Global) -> Result<Command<'a>, AllocError>
    ensures { IfOk result (λ command. app_of command ≡ with_subcommand (with_subcommand capture_app (sampled_app (codes "build")).top) (sampled_app (codes "run")).top) }
{
    let building = with_leaf(
        alloc,
        capture_command(alloc)?,
        "build",
        "pmb build [-p PROFILE | --part PART@HH | --sample] [--joined] [FILE]...",
        "Writes the bus events of transaction lines, a packet a line",
        "Files:\n  \
         [FILE]...                The transaction lines; without any, and for '-',\n                           \
         standard input\n  \
         -p, --profile <PROFILE>  Take the profile from this file\n      \
         --part <PART@HH>     Take the profile of the board of these parts, each\n                           \
         with its address. Without -p, --part and --sample it\n                           \
         comes before a line '%%' in FILE\n      \
         --joined             Read several files as one\n\n\
         'pmb profile' shows what a profile makes, or what is wrong with it.\n\n\
         Examples:\n  \
         echo 'write 58 21 00 18 pec' | pmb build --sample\n  \
         pmb build -p board.toml lines.txt > capture.txt",
        sample_flag(alloc),
    )?;
    with_leaf(
        alloc,
        building,
        "run",
        "pmb run [-p PROFILE | --part PART@HH | --sample] [--joined] [FILE]...",
        "Runs requests on simulated devices: a packet and its result for each",
        "Files:\n  \
         [FILE]...                The request lines; without any, and for '-', standard\n                           \
         input\n  \
         -p, --profile <PROFILE>  Take the profile from this file\n      \
         --part <PART@HH>     Take the profile of the board of these parts, each\n                           \
         with its address. Without -p, --part and --sample it\n                           \
         comes before a line '%%' in FILE\n      \
         --joined             Read several files as one\n\n\
         'pmb profile' shows what a profile makes, or what is wrong with it.\n\n\
         Examples:\n  \
         echo 'set 58 21 12' | pmb run --sample\n  \
         pmb run -p board.toml requests.txt",
        sample_flag(alloc),
    )
}

// `pmb` with `import`, `show`, `check`, `json`, `log` and `stats`.
fn capture_command<'a>(alloc: Global) -> Result<Command<'a>, AllocError>
    ensures { IfOk result (λ command. app_of command ≡ capture_app) }
{
    let showing = with_leaf(
        alloc,
        recording_command(alloc)?,
        "show",
        "pmb show [-p PROFILE | --part PART@HH | --sample] [--joined] [FILE]...",
        "Writes the transactions and the refusals of a capture, one a line",
        "A capture consists of words: S and P for START and STOP, A and N for ACK and\n\
         NACK, two hexadecimal digits for a byte.\n\n\
         Files:\n  \
         [FILE]...                The capture; without any, and for '-', standard\n                           \
         input. Several are captures of their own\n  \
         -p, --profile <PROFILE>  Take the profile from this file\n      \
         --part <PART@HH>     Take the profile of the board of these parts, each\n                           \
         with its address. Without -p, --part and --sample it\n                           \
         comes before a line '%%' in the capture\n      \
         --joined             Read several files as one capture\n\n\
         'pmb profile' shows what a profile makes, or what is wrong with it.\n\n\
         Examples:\n  \
         echo 'S b0 A 21 A 00 A 18 A P' | pmb show --sample\n  \
         pmb show -p board.toml capture.txt",
        sample_flag(alloc),
    )?;
    let checking = with_leaf(
        alloc,
        showing,
        "check",
        "pmb check [-p PROFILE | --part PART@HH | --sample] [--joined] [FILE]...",
        "Writes the refusals of a capture, and how many packets there are",
        "Files:\n  \
         [FILE]...                The capture; without any, and for '-', standard\n                           \
         input. Several are captures of their own\n  \
         -p, --profile <PROFILE>  Take the profile from this file\n      \
         --part <PART@HH>     Take the profile of the board of these parts, each\n                           \
         with its address. Without -p, --part and --sample it\n                           \
         comes before a line '%%' in the capture\n      \
         --joined             Read several files as one capture\n\n\
         'pmb profile' shows what a profile makes, or what is wrong with it.\n\n\
         Examples:\n  \
         echo 'S b0 A 03 A 47 A P' | pmb check --sample\n  \
         pmb check -p board.toml monday.txt tuesday.txt",
        sample_flag(alloc),
    )?;
    let with_json = checking.subcommand(json_command(alloc)?)?;
    let with_log = with_json.subcommand(log_command(alloc)?)?;
    with_log.subcommand(stats_command(alloc)?)
}

// `pmb` with `import`.
fn recording_command<'a>(alloc: Global) -> Result<Command<'a>, AllocError>
    ensures { IfOk result (λ command. app_of command ≡ recording_app) }
{
    top_command(alloc).subcommand(import_command(alloc)?)
}

// `pmb` without subcommands.
fn top_command<'a>(alloc: Global) -> Command<'a>
    ensures { app_of result ≡ top_app (new_app (codes "pmb")) }
{
    Command::new(alloc, "pmb")
        .version("0.2.0\nsources 000000000000")
        .about("Reads and writes PMBus traffic, and converts between codes and quantities")
        .after_help(
            "All read standard input where no FILE is named. The exit status is 0 if all went\n\
             well; 1 if there was a refusal, a bad token, a bad line or a request that\n\
             failed, or if a recording lacks something; 2 for a wrong command line, FORMAT or\n\
             profile, or a FILE that can't be read; 3 if reading or writing failed; and 4 if\n\
             there was no memory.\n\n\
             'pmb explain NAME' says what the name of a fault means.\n\n\
             Examples:\n  \
             pmb log -p board.toml capture.txt\n  \
             echo 'S b0 A 21 A 00 A 18 A P' | pmb show --sample",
        )
        .subcommand_required(true)
        .arg_required_else_help(true)
}

// A command with one more subcommand, which has one argument.
fn with_leaf<'a>(
    alloc: Global,
    command: Command<'a>,
    name: &'a str,
    usage: &'a str,
    about: &'a str,
    example: &'a str,
    argument: Arg<'a>,
) -> Result<Command<'a>, AllocError>
    requires local { argument.global ≡ false }
    ensures { IfOk result (λ extended. app_of extended ≡ with_subcommand (app_of command.entry) (with_rule (new_app name.entry.now) (rule_of argument.entry)).top) }
{
    let leaf = bare_command(alloc, name, usage, about, example).arg(argument)?;
    command.subcommand(leaf)
}

// `import` with its word and its flags.
fn import_command<'a>(alloc: Global) -> Result<Command<'a>, AllocError>
    ensures shape { IfOk result (λ command. app_of command ≡ import_app) }
    ensures local { IfOk result (λ command. (fields_of command).has_globals ≡ false) }
{
    let bare = bare_command(
        alloc,
        "import",
        "pmb import [OPTIONS] [--joined] <SOURCE> [FILE]...",
        "Makes a capture of what an analyser or the Linux kernel recorded",
        "Each packet of the capture is whole, and has its time in the line before it.\n\
         What is missing has a line that begins with '#'; if anything is, the exit status\n\
         is 1.\n\n\
         Files:\n  \
         [FILE]...                The recording; without any, and for '-', standard\n                           \
         input\n      \
         --joined             Read several files as one recording\n\n\
         Examples:\n  \
         pmb import kernel examples/analysers/kernel.txt | pmb show --sample\n  \
         pmb import sigrok --rate 1000000 decoded.txt > capture.txt",
    );
    bare.arg(source_word(alloc))?
        .arg(valued(
            alloc,
            "bus",
            "NAME",
            ArgAction::Set,
            "The bus, as the recording names it; without this, that of\n\
             the first line that names one",
        ))?
        .arg(valued(
            alloc,
            "rate",
            "HZ",
            ArgAction::Set,
            "For sigrok: how many samples a second has, for the times of\n\
             packets",
        ))?
        .arg(flag(
            alloc,
            "unshifted",
            "For sigrok: an address is a whole byte, with the bit of its\n\
             direction",
        ))
}

/// A subcommand without its arguments.
pub(crate) fn bare_command<'a>(
    alloc: Global,
    name: &'a str,
    usage: &'a str,
    about: &'a str,
    example: &'a str,
) -> Command<'a>
    ensures shape { app_of result ≡ new_app name.entry.now }
    ensures local { (fields_of result).has_globals ≡ false }
{
    Command::new(alloc, name)
        .display_order(place(name))
        .override_usage(usage)
        .about(about)
        .after_help(example)
}

// Where a subcommand stands in the help: in the order of work.
fn place(name: &str) -> usize {
    match name {
        "import" => 0,
        "log" => 1,
        "stats" => 2,
        "show" => 3,
        "check" => 4,
        "json" => 5,
        "profile" => 6,
        "scan" => 7,
        "parts" => 8,
        "build" => 9,
        "run" => 10,
        "encode" => 11,
        _ => 12,
    }
}
