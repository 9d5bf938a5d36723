//! The short program of the crate's page.

use crate::compare::ensure;
use pmb_line::LineFault;
use pmb_note::Context;
use pmb_quantity::QuantityFault;
use pmb_request::{Request, RequestFault, parse_request};
use pmb_table::{Profile, SAMPLE};
use std::test::Fail;

#[test]
fn the_short_program(rt: HostRuntime) -> Result<(), Fail> {
    let profile = Profile::from_toml(rt.alloc(), SAMPLE.as_bytes())?;
    let context = Context::new(&profile);
    let twelve_volts = parse_request(&context, b"set 58 21 12 pec # 12 V\r");
    ensure(
        &rt,
        "twelve volts",
        matches!(
            twelve_volts,
            Ok(Request::Set {
                addr: 0x58,
                mode: Some(0x17),
                pec: true,
                ..
            })
        ),
    );
    let no_quantity = parse_request(&context, b"set 58 21 pec");
    ensure(
        &rt,
        "no quantity",
        matches!(
            no_quantity,
            Err(RequestFault::Quantity(QuantityFault::BadDigit))
        ),
    );
    let bad_word = parse_request(&context, b"set 58 21 x y");
    ensure(
        &rt,
        "a bad word",
        matches!(bad_word, Err(RequestFault::Line(LineFault::BadWord(12)))),
    );
    Ok(())
}
