//! What objects are told under: six digits, and what is known of a profile's devices; and where they begin.

use pmb_decimal::Digits;
use pmb_json_objects::{Head, Seen};
use pmb_places::Place;
use pmb_table::Profile;
use pmb_unknown_start::Late;

/// The most bytes of a time.
const TIME: usize = 40;

/// A profile with names, one of which has characters that are escaped, with a VOUT_MODE for each page,
/// and with an address that speaks no PMBus.
pub(crate) const NAMED: &str = r#"ignore = [0x50]

[[device]]
address = 0x58
pec = "optional"
pages = 2
vout_mode = [0x17, 0x14]
name = "VDD_CORE"

[[device]]
address = 0x59
pec = "off"
name = '"3V3" \ ~'

[[device]]
address = 0x5a
pec = "off"
"#;

/// What is known, with the digits of a command without flags.
pub(crate) fn seen<'s>(profile: &'s Profile, late: &'s Late<'s>) -> Seen<'s> {
    Seen {
        digits: Digits::default(),
        profile,
        late,
    }
}

/// Where an object begins, with a time that is not longer than one may be.
pub(crate) fn head<'t>(at: u64, place: Place, time: Option<&'t str>) -> Head<'t> {
    match time {
        Some(time) if time.len() <= TIME => Head {
            at,
            place,
            time: Some(time.as_bytes()),
        },
        _ => Head {
            at,
            place,
            time: None,
        },
    }
}
