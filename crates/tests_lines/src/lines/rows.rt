//! Short lines: each kind, each fault, and how words are told apart.

use crate::compare::same;
use crate::lines::says::{Row, answer, rows_of};
use plain_packets::LONG_FORMS;
use pmb_table::{Profile, SAMPLE};
use std::test::Fail;

/// Lines under the sample profile.
static SAMPLES: [Row; 85] = [
    // Each kind.
    ("write 58 21 00 18 pec", "write 58 21 00 18 pec"),
    ("write 58 03 + 59 03", "write 58 03 + 59 03"),
    ("write 58 03 pec + 59 03", "write 58 03 pec + 59 03"),
    ("read 58 88 : 00 d3 pec", "read 58 88 : 00 d3 pec"),
    ("read 58 99 :", "read 58 99 :"),
    ("call 58 1b 7a : 10", "call 58 1b 7a : 10"),
    ("call 58 06 01 :", "call 58 06 01 :"),
    ("refused 20", "refused 20"),
    ("refused 58 03 47", "refused 58 03 47"),
    ("refused 59 03 + 58 03 47", "refused 59 03 + 58 03 47"),
    ("refused 58 03 pec + 59 21", "refused 58 03 pec + 59 21"),
    ("refused 58 88 read", "refused 58 88 read"),
    ("alert b0", "alert b0"),
    ("alert b0 pec", "alert b0 pec"),
    ("alert none", "alert none"),
    // Blanks, digits of either case, comments, CR.
    ("\twrite\t58  21 00\t1F", "write 58 21 00 1f"),
    ("write 58 9a AB Cd eF", "write 58 9a ab cd ef"),
    ("write 58 03 # write", "write 58 03"),
    ("write 58 03#pec", "write 58 03"),
    ("write 58 03 \t ", "write 58 03"),
    ("write 58 03\r", "write 58 03"),
    ("write 58 03 # \r", "write 58 03"),
    ("write 58 03\r\r", "BadWord at 9"),
    ("write 58 03 \r\r", "BadWord at 12"),
    ("write 58 03\r ", "BadWord at 9"),
    ("", "Blank"),
    (" \t", "Blank"),
    ("# write 58 03", "Blank"),
    ("\r", "Blank"),
    ("\r\r", "BadWord at 0"),
    // Words that stand almost as in most lines.
    (" alert b0", "alert b0"),
    ("alert  none", "alert none"),
    ("write\t58 03", "write 58 03"),
    ("read 58 88 :  00 d3", "read 58 88 : 00 d3"),
    ("read 58 88 : 00 d3 pec ", "read 58 88 : 00 d3 pec"),
    ("read 58 88 : 00 d3 pe", "BadWord at 19"),
    ("read 58 88 :00 d3", "BadWord at 11"),
    ("reads 58 88 : 00 d3", "BadWord at 0"),
    ("writes 58 03", "BadWord at 0"),
    ("write 58 211 00", "BadWord at 9"),
    ("write 58 21 00 1", "BadWord at 15"),
    // Words that are missing: the place is the line's length.
    ("write", "BadWord at 5"),
    ("write\r", "BadWord at 5"),
    ("write # 58 03\r", "BadWord at 13"),
    ("write 58", "BadWord at 8"),
    ("write 58 03 +", "BadWord at 13"),
    ("read 58 88", "BadWord at 10"),
    ("call 58 06 01", "BadWord at 13"),
    ("refused", "BadWord at 7"),
    ("refused 58 03 +", "BadWord at 15"),
    ("refused 58 03 pec", "BadWord at 17"),
    ("alert  ", "BadWord at 7"),
    // Words that do not fit.
    ("Write 58 03", "BadWord at 0"),
    ("58 03", "BadWord at 0"),
    ("pec", "BadWord at 0"),
    ("write 58 2", "BadWord at 9"),
    ("write 058 03", "BadWord at 6"),
    ("write 5g 03", "BadWord at 6"),
    ("write + 58 03", "BadWord at 6"),
    ("write 58 pec", "BadWord at 9"),
    ("write 58 21 : 00 18", "BadWord at 12"),
    ("write 58 03 pec pec", "BadWord at 16"),
    ("write 58 03 pec 00", "BadWord at 16"),
    ("write 58 03 PEC", "BadWord at 12"),
    ("read 58 88 00", "BadWord at 11"),
    ("read 58 88 : 00 + 59", "BadWord at 16"),
    ("read 58 88 : pec 00", "BadWord at 17"),
    ("call 58 06 01 pec", "BadWord at 14"),
    ("call 58 06 : : 01", "BadWord at 13"),
    ("refused 58 +", "BadWord at 11"),
    ("refused 58 pec", "BadWord at 11"),
    ("refused 58 88 read 00", "BadWord at 19"),
    ("refused 58 03 pec 47", "BadWord at 18"),
    ("alert pec", "BadWord at 6"),
    ("alert none pec", "BadWord at 11"),
    ("alert b0 b0", "BadWord at 9"),
    // Transactions without a packet.
    ("write 59 21 00 18 pec", "PecMode"),
    ("write 58 88 00 00", "NotAllowed"),
    ("write 58 21 00", "WrongLength"),
    ("write 58 c8", "UnknownCommand"),
    ("write 20 03", "UnknownDevice"),
    ("write 58 03 + 58 03", "AddressTwice"),
    ("refused 58 read", "WrongLength"),
    ("refused 80", "UnknownDevice"),
    ("read 5a 88 : 00 d3", "PecMode"),
];

#[test]
fn lines_of_the_sample(rt: HostRuntime) -> Result<(), Fail> {
    let profile = Profile::from_toml(rt.alloc(), SAMPLE.as_bytes())?;
    for row in rows_of(&SAMPLES) {
        let given = answer(&profile, row.0.as_bytes());
        same(&rt, row.0, given.as_slice(), row.1.as_bytes());
    }
    Ok(())
}

/// Lines under a profile with commands of four and eight bytes.
#[rattlefmt::skip]
static WIDES: [Row; 5] = [
    ("write 10 e0 01 02 03 04 pec", "write 10 e0 01 02 03 04 pec"),
    ("read 10 e1 : 01 02 03 04 05 06 07 08", "read 10 e1 : 01 02 03 04 05 06 07 08"),
    ("write 10 e0 01", "WrongLength"),
    ("alert b0 pec", "alert b0 pec"),
    ("alert none", "alert none"),
];

#[test]
fn lines_of_four_and_eight_bytes(rt: HostRuntime) -> Result<(), Fail> {
    let profile = Profile::from_toml(rt.alloc(), LONG_FORMS.as_bytes())?;
    for row in rows_of(&WIDES) {
        let given = answer(&profile, row.0.as_bytes());
        same(&rt, row.0, given.as_slice(), row.1.as_bytes());
    }
    Ok(())
}
