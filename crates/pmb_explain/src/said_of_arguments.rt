//! What is said of the faults of flags and words.

use crate::fault::ArgumentFault;
use crate::said::Said;

/// The page of the flags that `json`, `log` and `stats` have.
const FLAGS: &str = "docs/program.md#what-pmb-json-writes";

/// The page of the flags of `import`.
const SOURCES: &str = "docs/import.md#options-and-sources";

/// The page of the files that the words name.
const FILES: &str = "docs/program.md#the-input";

/// Of flags or words that ask for nothing.
pub(crate) fn of_argument(fault: ArgumentFault) -> Said {
    match fault {
        ArgumentFault::NeedsLate => Said {
            text: "--fixed-vout-mode goes with --late alone: it says that VOUT_MODE begins as the profile has it,\n\
                   where --late alone takes it as unknown.",
            page: FLAGS,
        },
        ArgumentFault::BadDigits => Said {
            text: "N of --digits is how many digits a number may have after its point, from 0 to 12.",
            page: FLAGS,
        },
        ArgumentFault::BadAddress => Said {
            text: "HH of --device is an address of 7 bits, in two hexadecimal digits without 0x: 58, and not b0.",
            page: FLAGS,
        },
        ArgumentFault::BadFailOn => Said {
            text: "WHAT of --fail-on is some of refusals, bad-tokens, nacks, alerts, faults and none-read, with\n\
                   commas and no blanks between them.",
            page: "docs/stats.md#what-makes-the-status-1",
        },
        ArgumentFault::BadColor => Said {
            text: "WORD of --color is auto, always or never.",
            page: "docs/color.md#the-flag",
        },
        ArgumentFault::BadSource => Said {
            text: "SOURCE is sigrok (the text of its I2C decoder), saleae (the table of Logic 2), beagle (the CSV of\n\
                   Data Center), kernel or smbus (the events of i2c or smbus in a trace of Linux).",
            page: SOURCES,
        },
        ArgumentFault::BadRate => Said {
            text: "HZ of --rate is how many samples a second has, in digits alone, from 1 to 18446744073.",
            page: SOURCES,
        },
        ArgumentFault::SigrokOnly => Said {
            text: "--rate and --unshifted go with sigrok alone: other recordings have times, and addresses of 7 bits.",
            page: SOURCES,
        },
        ArgumentFault::NoBus => Said {
            text: "--bus does not go with beagle, whose recordings have one bus without a name.",
            page: SOURCES,
        },
        ArgumentFault::TwoProfiles => Said {
            text: "One profile is taken: a single -p PROFILE, or --sample.",
            page: FILES,
        },
        ArgumentFault::TwoInputs => Said {
            text: "Standard input, which is -, can be read once, as PROFILE or as a FILE; and build, run and import\n\
                   read one FILE, or several with --joined.",
            page: FILES,
        },
    }
}
