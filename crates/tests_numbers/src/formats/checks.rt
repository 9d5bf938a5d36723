//! What the rows of a format are checked by.
use crate::compare::same;
use pmb_value::{Format, Quantity, RangeFault, Steps};
use std::process::Abort;

/// What a quantity under the range is answered with.
pub(crate) const BELOW: Result<u16, RangeFault> = Err(RangeFault::Below);

/// What a quantity over the range is answered with.
pub(crate) const ABOVE: Result<u16, RangeFault> = Err(RangeFault::Above);

/// Checks that a text's quantity has this code, or is refused so.
pub(crate) fn check_code<F: Format>(
    rt: &impl Abort,
    name: &str,
    format: &F,
    text: &str,
    wanted: Result<u16, RangeFault>,
) {
    let quantity = Quantity::parse(text.as_bytes()).expect(rt, "a quantity");
    let found = format.encode(&quantity, &mut Steps::new());
    same(rt, name, found, wanted);
}

/// Checks that a code decodes to this text.
pub(crate) fn check_text<F: Format>(
    rt: &impl Abort,
    name: &str,
    format: &F,
    code: u16,
    wanted: &str,
) {
    let written = format.decode(code).text();
    same(rt, name, written.as_str(), wanted);
}

/// Checks that every 61st code decodes and encodes back to itself, where every code is canonical.
pub(crate) fn check_round_trip<F: Format>(rt: &impl Abort, name: &str, format: &F) {
    for step in 0..1075u16 {
        let code = step * 61;
        let quantity = format.decode(code);
        let again = format.encode(&quantity, &mut Steps::new());
        same(rt, (name, "at", code), again, Ok(code));
    }
}
