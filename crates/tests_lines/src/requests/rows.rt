//! Short lines: each kind of request, each fault, and how words are told apart.

use crate::compare::same;
use crate::requests::says::{Row, answer, rows_of};
use pmb_note::Context;
use pmb_table::{Profile, SAMPLE};
use std::test::Fail;

/// Lines under the sample profile, before all transactions.
#[rattlefmt::skip]
static SAMPLES: [Row; 91] = [
    // Each kind.
    ("write 58 21 00 18 pec", "write 58 21 00 18 pec"),
    ("write 58 03 + 59 03", "write 58 03 + 59 03"),
    ("write 58 03 pec + 59 21 00 18", "write 58 03 pec + 59 21 00 18"),
    ("read 58 88", "read 58 88"),
    ("read 58 88 pec", "read 58 88 pec"),
    ("call 58 30 d0 01", "call 58 30 d0 01"),
    ("call 58 30 d0 01 pec", "call 58 30 d0 01 pec"),
    ("call 58 06", "call 58 06"),
    ("call 58 06 pec", "call 58 06 pec"),
    ("set 58 21 12", "set 58 21 12 mode 17"),
    ("set 58 21 12 pec", "set 58 21 12 mode 17 pec"),
    ("get 58 21", "get 58 21 mode 17"),
    ("get 58 21 pec", "get 58 21 mode 17 pec"),
    // Whether a device takes a request is asked later.
    ("write 20 03", "write 20 03"),
    ("write 58 03 + 58 03", "write 58 03 + 58 03"),
    ("write 58 21 00", "write 58 21 00"),
    ("read ff c8 pec", "read ff c8 pec"),
    // A mode is taken for each command, and there is none without a device.
    ("set 58 33 0.50", "set 58 33 0.5 mode 17"),
    ("get 5a 88", "get 5a 88 mode 17"),
    ("set 20 21 1", "set 20 21 1 no mode"),
    ("get 20 21", "get 20 21 no mode"),
    // Quantities.
    ("set 58 21 21", "set 58 21 21 mode 17"),
    ("set 58 21 -2/6", "set 58 21 -1/3 mode 17"),
    ("set 58 21 2/4", "set 58 21 0.5 mode 17"),
    ("set 58 21 x", "BadDigit"),
    ("set 58 21 pec", "BadDigit"),
    ("set 58 21 pec pec", "BadDigit"),
    ("set 58 21 :", "BadDigit"),
    ("set 58 21 1.", "BadDigit"),
    ("set 58 21 +1", "BadDigit"),
    ("set 58 21 1/0", "ZeroDenominator"),
    ("set 58 21 9223372036854775808/1", "TooLarge"),
    ("set 20 21 x", "BadDigit"),
    // Blanks, digits of either case, comments, CR.
    ("\tget\t58  21 \t", "get 58 21 mode 17"),
    ("get 58 aB", "get 58 ab mode 17"),
    ("get 58 21#pec", "get 58 21 mode 17"),
    ("set 58 21 1# x", "set 58 21 1 mode 17"),
    ("get 58 21\r", "get 58 21 mode 17"),
    ("set 58 21 1\r", "set 58 21 1 mode 17"),
    ("get 58 21\r\r", "BadWord at 7"),
    ("set 58 21 1\r\r", "BadDigit"),
    ("", "Blank"),
    (" \t", "Blank"),
    ("# get 58 21", "Blank"),
    ("\r", "Blank"),
    // The first word.
    ("\r\r", "BadWord at 0"),
    ("alert none", "BadWord at 0"),
    ("alert b0", "BadWord at 0"),
    ("refused 20", "BadWord at 0"),
    ("SET 58 21 1", "BadWord at 0"),
    ("58 21", "BadWord at 0"),
    (" \tput 58", "BadWord at 2"),
    // Words that are missing: the place is the line's length.
    ("write", "BadWord at 5"),
    ("write 58", "BadWord at 8"),
    ("write 58 03 +", "BadWord at 13"),
    ("read", "BadWord at 4"),
    ("read 58\r", "BadWord at 7"),
    ("call", "BadWord at 4"),
    ("call 58 # 30\r", "BadWord at 12"),
    ("set", "BadWord at 3"),
    ("set 58", "BadWord at 6"),
    ("set 58 21", "BadWord at 9"),
    ("set 58 21 \r", "BadWord at 10"),
    ("get", "BadWord at 3"),
    ("get 58", "BadWord at 6"),
    // Words that do not fit.
    ("write pec", "BadWord at 6"),
    ("write 58 21 : 00", "BadWord at 12"),
    ("write 58 03 pec pec", "BadWord at 16"),
    ("read 588 88", "BadWord at 5"),
    ("read 58 88 : 00", "BadWord at 11"),
    ("read 58 88 00", "BadWord at 11"),
    ("read 58 88 pec pec", "BadWord at 15"),
    ("call 58 :", "BadWord at 8"),
    ("call 58 30 d0 : 01", "BadWord at 14"),
    ("call 58 30 pec 01", "BadWord at 15"),
    ("call 58 30 pec pec", "BadWord at 15"),
    ("call 58 30 +", "BadWord at 11"),
    ("set pec", "BadWord at 4"),
    ("set 58 pec 12", "BadWord at 7"),
    ("set 58 2 12", "BadWord at 7"),
    ("set 58 21 12 13", "BadWord at 13"),
    ("set 58 21 12 PEC", "BadWord at 13"),
    ("set 58 21 12 pec pec", "BadWord at 17"),
    ("get 5", "BadWord at 4"),
    ("get 58 +", "BadWord at 7"),
    ("get 58 21 12", "BadWord at 10"),
    ("get 58 21 pec 00", "BadWord at 14"),
    // Of a bad quantity and a bad word after it, the word is told.
    ("set 58 21 x y", "BadWord at 12"),
    ("set 58 21 x pec y", "BadWord at 16"),
    ("set 58 21 1/0 00", "BadWord at 14"),
    ("set 58 21 pec pec pec", "BadWord at 18"),
];

#[test]
fn lines_of_the_sample(rt: HostRuntime) -> Result<(), Fail> {
    let profile = Profile::from_toml(rt.alloc(), SAMPLE.as_bytes())?;
    let context = Context::new(&profile);
    for row in rows_of(&SAMPLES) {
        let given = answer(&context, row.0.as_bytes());
        same(&rt, row.0, given.as_slice(), row.1.as_bytes());
    }
    Ok(())
}
