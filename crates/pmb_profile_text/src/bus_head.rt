//! The first lines of a bus.
//!
//! Its rows: `tests/rows/profile_text.txt`.

ghost use Rattle.std.specs.Prelude.{◌≡◌, ◌+◌, ◌≤◌, ◌++◌, length};
ghost use Rattle.pmb_profile_text.specs.Table.{bus_head, ignore_line};

use crate::addresses::append_list;
use crate::device_head::append_count;
use crate::row::Row;
use pmb_table::BusProfile;

/// How many devices there are, and what is ignored.
pub(crate) fn bus_head(profile: &BusProfile) -> Row
    ensures { result.items ≡ bus_head profile.now.ignored profile.now.devices }
{
    let mut head = Row::new();
    append_count(&mut head, b"devices", profile.profile().len());
    append_ignored(&mut head, profile);
    head
}

/// Appends the addresses that speak no PMBus, where the profile has the key: at most 400 bytes.
fn append_ignored(head: &mut Row, profile: &BusProfile)
    requires { length head.old.items + 400 ≤ 2048 }
    ensures { head.new.items ≡ head.old.items ++ ignore_line profile.now.ignored }
{
    match profile.ignored() {
        Some(ignored) => append_list(head, b"ignore", ignored.addresses().as_slice()),
        None => {}
    }
}
