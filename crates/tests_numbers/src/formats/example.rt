//! The examples of the crates' pages.
use crate::compare::same;
use pmb_format::rounding;
use pmb_half::{Half, has_no_value};
use pmb_linear::{Linear11, Linear11Fixed};
use pmb_value::{Format, Quantity, Steps, vout_format};
use pmb_vid::VidTable;
use std::test::Fail;

#[test]
fn formats(rt: HostRuntime) -> Result<(), Fail> {
    let format = vout_format(0x17, false, None)?;
    let wanted = Quantity::parse(b"3.3")?;
    let code = format.encode(&wanted, &mut Steps::new())?;
    same(&rt, "3.3 V", code, 0x069a);
    let set = format.decode(code).text();
    same(&rt, "its text", set.as_str(), "3.30078125");
    Ok(())
}

#[test]
fn quantities(rt: HostRuntime) -> Result<(), Fail> {
    let wanted = Quantity::parse(b"-6/4")?;
    same(&rt, "reduced", (wanted.num(), wanted.den()), (-3, 2));
    let text = wanted.text();
    same(&rt, "as a decimal", text.as_str(), "-1.5");
    Ok(())
}

#[test]
fn rounding_once(rt: HostRuntime) {
    let mut steps = Steps::new();
    same(
        &rt,
        "rounded",
        rounding::rounded_quotient(7, 2, &mut steps),
        4,
    );
    same(&rt, "steps taken", steps.taken(), 1);
}

#[test]
fn linear_formats(rt: HostRuntime) -> Result<(), Fail> {
    let wanted = Quantity::new(-1, 3)?;
    same(
        &rt,
        "LINEAR11",
        Linear11.encode(&wanted, &mut Steps::new()),
        Ok(0xad55),
    );
    let format = Linear11Fixed::new(-3)?;
    same(
        &rt,
        "with an exponent",
        format.encode(&wanted, &mut Steps::new()),
        Ok(0xeffd),
    );
    Ok(())
}

#[test]
fn vid_tables(rt: HostRuntime) -> Result<(), Fail> {
    let wanted = Quantity::new(1, 1)?;
    same(
        &rt,
        "1 V",
        VidTable::Vr12.encode(&wanted, &mut Steps::new()),
        Ok(0x97),
    );
    same(&rt, "a name", VidTable::named("vr12"), Some(VidTable::Vr12));
    Ok(())
}

#[test]
fn half_precision(rt: HostRuntime) -> Result<(), Fail> {
    let wanted = Quantity::new(1, 3)?;
    same(
        &rt,
        "half precision",
        Half.encode(&wanted, &mut Steps::new()),
        Ok(0x3555),
    );
    same(&rt, "decoded", Half.decode(0xc000), Quantity::new(-2, 1)?);
    same(&rt, "an infinity", has_no_value(0x7c00), true);
    Ok(())
}
