//! What objects say of commands: their phase, the names of their bits, texts, and what fields say.

use crate::compare::same;
use crate::object_lines::packets::told;
use crate::object_lines::seen::{head, seen};
use pmb_line::parse_line;
use pmb_places::Place;
use pmb_table::Profile;
use pmb_unknown_start::{Late, Start};
use std::test::Fail;

/// 58h has phases, a bit with a name of its own, a text, and a command with a value for each phase; 59h
/// has none of these.
static PROFILE: &str = r#"[[device]]
address = 0x58
pec = "off"
pages = 2
phases = 3
command = [
    { name = "STATUS_VOUT", bits = { 6 = "RAIL_HIGH" } },
    { code = 0xd0, write = "two", read = "two", kind = "text" },
    { code = 0xd2, write = "one", read = "one", phased = true },
]

[[device]]
address = 0x59
pec = "off"
"#;

/// A line of a transaction, a line of what came before, and the line of its object.
type Row = (&'static str, &'static str, &'static str);

/// The rows of the table. A call keeps the proof of a loop over them from carrying the table.
fn rows() -> &'static [Row] {
    &ROWS
}

#[rattlefmt::skip]
static ROWS: [Row; 14] = [
    // PHASE, of commands that have phases, on a device that has phases
    ("read 58 8c : 00 d3", "write 58 04 02", "{\"at\":3,\"line\":4,\"column\":5,\"kind\":\"read\",\"device\":\"58\",\"code\":\"8c\",\"command\":\"READ_IOUT\",\"page\":0,\"page_mode\":\"assumed\",\"phase\":2,\"bytes\":\"00d3\",\"pec\":false,\"value\":\"12\",\"number\":12,\"unit\":\"A\"}\n"),
    ("read 58 8c : 00 d3", "read 58 04 : ff", "{\"at\":3,\"line\":4,\"column\":5,\"kind\":\"read\",\"device\":\"58\",\"code\":\"8c\",\"command\":\"READ_IOUT\",\"page\":0,\"page_mode\":\"assumed\",\"phase\":\"all\",\"bytes\":\"00d3\",\"pec\":false,\"value\":\"12\",\"number\":12,\"unit\":\"A\"}\n"),
    ("read 58 8c : 00 d3", "write 58 00 01", "{\"at\":3,\"line\":4,\"column\":5,\"kind\":\"read\",\"device\":\"58\",\"code\":\"8c\",\"command\":\"READ_IOUT\",\"page\":1,\"phase\":null,\"bytes\":\"00d3\",\"pec\":false,\"value\":\"12\",\"number\":12,\"unit\":\"A\"}\n"),
    ("write 58 04 01", "write 58 04 02", "{\"at\":3,\"line\":4,\"column\":5,\"kind\":\"write\",\"device\":\"58\",\"code\":\"04\",\"command\":\"PHASE\",\"page\":0,\"page_mode\":\"assumed\",\"bytes\":\"01\",\"pec\":false}\n"),
    ("write 58 d2 07", "write 58 04 00", "{\"at\":3,\"line\":4,\"column\":5,\"kind\":\"write\",\"device\":\"58\",\"code\":\"d2\",\"command\":\"CMD_d2\",\"phase\":0,\"bytes\":\"07\",\"pec\":false}\n"),
    ("refused 58 8c read", "write 58 04 fe", "{\"at\":3,\"line\":4,\"column\":5,\"kind\":\"refused\",\"device\":\"58\",\"refused\":\"read address\",\"code\":\"8c\",\"command\":\"READ_IOUT\",\"page\":0,\"page_mode\":\"assumed\",\"phase\":254,\"sent\":\"8c\"}\n"),
    ("read 59 8c : 00 d3", "write 59 04 02", "{\"at\":3,\"line\":4,\"column\":5,\"kind\":\"read\",\"device\":\"59\",\"code\":\"8c\",\"command\":\"READ_IOUT\",\"page\":0,\"bytes\":\"00d3\",\"pec\":false,\"value\":\"12\",\"number\":12,\"unit\":\"A\"}\n"),
    // names of bits, and texts
    ("read 58 7a : c0", "write 58 03", "{\"at\":3,\"line\":4,\"column\":5,\"kind\":\"read\",\"device\":\"58\",\"code\":\"7a\",\"command\":\"STATUS_VOUT\",\"page\":0,\"page_mode\":\"assumed\",\"bytes\":\"c0\",\"pec\":false,\"bits\":[\"VOUT_OV_FAULT\",\"RAIL_HIGH\"]}\n"),
    ("read 58 99 : 41 22 43", "write 58 03", "{\"at\":3,\"line\":4,\"column\":5,\"kind\":\"read\",\"device\":\"58\",\"code\":\"99\",\"command\":\"MFR_ID\",\"bytes\":\"412243\",\"pec\":false,\"text\":\"A\\u0022C\"}\n"),
    ("read 58 99 : 41 1f", "write 58 03", "{\"at\":3,\"line\":4,\"column\":5,\"kind\":\"read\",\"device\":\"58\",\"code\":\"99\",\"command\":\"MFR_ID\",\"bytes\":\"411f\",\"pec\":false}\n"),
    ("write 58 d0 41 42", "write 58 03", "{\"at\":3,\"line\":4,\"column\":5,\"kind\":\"write\",\"device\":\"58\",\"code\":\"d0\",\"command\":\"CMD_d0\",\"bytes\":\"4142\",\"pec\":false,\"text\":\"AB\"}\n"),
    // what fields say
    ("write 58 01 80", "write 58 03", "{\"at\":3,\"line\":4,\"column\":5,\"kind\":\"write\",\"device\":\"58\",\"code\":\"01\",\"command\":\"OPERATION\",\"page\":0,\"page_mode\":\"assumed\",\"bytes\":\"80\",\"pec\":false,\"says\":{\"output\":\"on\",\"turn_off\":\"immediate\",\"voltage_source\":\"VOUT_COMMAND\",\"transition\":\"keep\"}}\n"),
    ("read 58 20 : 14", "write 58 03", "{\"at\":3,\"line\":4,\"column\":5,\"kind\":\"read\",\"device\":\"58\",\"code\":\"20\",\"command\":\"VOUT_MODE\",\"page\":0,\"page_mode\":\"assumed\",\"bytes\":\"14\",\"pec\":false,\"says\":{\"relative\":false,\"mode\":\"linear\",\"exponent\":-12}}\n"),
    ("call 58 1b 7a : 50", "write 58 03", "{\"at\":3,\"line\":4,\"column\":5,\"kind\":\"call\",\"device\":\"58\",\"code\":\"1b\",\"command\":\"SMBALERT_MASK\",\"sent\":\"7a\",\"reply\":\"50\",\"pec\":false,\"says\":{\"register\":\"7a\",\"mask\":[\"RAIL_HIGH\",\"VOUT_UV_FAULT\"]}}\n"),
];

#[test]
fn each_is_told(rt: HostRuntime) -> Result<(), Fail> {
    let profile = Profile::from_toml(rt.alloc(), PROFILE.as_bytes())?;
    let place = Place { line: 4, column: 5 };
    for &(line, before, object) in rows() {
        let mut late = Late::new(&profile, Start::AllKnown);
        late.observe(&parse_line(&profile, before.as_bytes())?);
        let seen = seen(&profile, &late);
        let transaction = parse_line(&profile, line.as_bytes())?;
        let out = told(&seen, head(3, place, None), &transaction);
        same(&rt, (line, before), out.as_slice(), object.as_bytes());
    }
    Ok(())
}
