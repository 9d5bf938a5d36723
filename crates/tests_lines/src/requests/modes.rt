//! The mode that a `set` and a `get` take from the context, after transactions.

use crate::compare::same;
use crate::requests::says::{Row, answer, rows_of};
use pmb_line::parse_line;
use pmb_note::Context;
use pmb_table::{Profile, SAMPLE};
use std::test::Fail;

/// Lines, in order: transactions with nothing told are observed, and requests are told with the mode
/// that they take.
static MODES: [Row; 20] = [
    ("get 58 21", "get 58 21 mode 17"),
    ("write 58 20 14", ""),
    ("get 58 21", "get 58 21 mode 14"),
    ("set 58 21 1 pec", "set 58 21 1 mode 14 pec"),
    // The other page, which is then selected.
    ("write 58 00 01", ""),
    ("get 58 21", "get 58 21 mode 17"),
    ("read 58 20 : 97", ""),
    ("set 58 21 1", "set 58 21 1 mode 97"),
    ("set 58 88 1", "set 58 88 1 mode 97"),
    // All pages: they share no mode, and then they do.
    ("write 58 00 ff", ""),
    ("get 58 21", "get 58 21 no mode"),
    ("set 58 21 1", "set 58 21 1 no mode"),
    ("write 58 20 16", ""),
    ("get 58 21 pec", "get 58 21 mode 16 pec"),
    // No such page.
    ("write 58 00 05", ""),
    ("get 58 88", "get 58 88 no mode"),
    // A request changes nothing, and another device keeps its own.
    ("write 58 00 00", ""),
    ("set 58 20 3", "set 58 20 3 mode 16"),
    ("get 58 21", "get 58 21 mode 16"),
    ("get 59 21", "get 59 21 mode 17"),
];

#[test]
fn modes_of_the_context(rt: HostRuntime) -> Result<(), Fail> {
    let profile = Profile::from_toml(rt.alloc(), SAMPLE.as_bytes())?;
    let mut context = Context::new(&profile);
    for row in rows_of(&MODES) {
        if row.1.is_empty() {
            let Ok(transaction) = parse_line(&profile, row.0.as_bytes()) else {
                assert!(rt; false, "{}", row.0);
                return Ok(());
            };
            context.observe(&transaction);
        } else {
            let given = answer(&context, row.0.as_bytes());
            same(&rt, row.0, given.as_slice(), row.1.as_bytes());
        }
    }
    Ok(())
}
