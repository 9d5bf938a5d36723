//! What a device takes that is written at one of its addresses.
//!
//! Its rows: `tests_lines`, `src/late/also.rt`.

ghost use Rattle.std.specs.Prelude.{◌≡◌, count_by, map};
ghost use Rattle.std.specs.List.{list_any};
ghost use Rattle.pmb_transaction.specs.Transaction.{part_data};
ghost use Rattle.pmb_unknown_start.specs.Taken.{are_crossed, takes, takes_other};

use pmb_table::DeviceProfile;
use pmb_transaction::Part;

/// Whether the device takes more than one of these parts, and one of them at another address than its own.
pub(crate) fn are_crossed(device: &DeviceProfile, parts: &[Part]) -> bool
    ensures { result ≡ are_crossed device.now (map part_data parts.now) }
{
    takes_some_other(device, parts) && count_taken(device, parts) > 1
}

// Whether it takes some of them at another address.
fn takes_some_other(device: &DeviceProfile, parts: &[Part]) -> bool
    ensures { result ≡ list_any (λ part. takes_other device.now (part_data part)) parts.now }
{
    parts.iter().any(|part| takes_other(device, part))
}

// How many of them it takes.
fn count_taken(device: &DeviceProfile, parts: &[Part]) -> usize
    ensures { result ≡ count_by (λ part. takes device.now (part_data part)) parts.now }
{
    parts.iter().filter(|part| takes(device, part)).count()
}

/// Whether the device takes what a part wrote.
pub(crate) fn takes(device: &DeviceProfile, part: &Part) -> bool
    ensures { result ≡ takes device.now (part_data part.now) }
{
    part.addr == device.address() || takes_other(device, part)
}

// .. at another address than its own.
fn takes_other(device: &DeviceProfile, part: &Part) -> bool
    ensures { result ≡ takes_other device.now (part_data part.now) }
{
    device.listens(part.addr) && device.has_write(part.code, part.bytes.as_slice())
}
