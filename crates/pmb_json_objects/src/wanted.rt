//! Which objects are wanted.
//!
//! Its rows: `tests_json`, `src/object_lines/words.rt`; `tests/rows/json_objects.txt`.

ghost use Rattle.std.specs.Prelude.{◌≡◌};
ghost use Rattle.pmb_json_objects.specs.Object.{is_wanted as is_wanted_of};

/// Whether the objects of a device are wanted, by the addresses of those that are; all are where
/// there is none of these. What names no device is always wanted.
#[inline]
pub fn is_wanted(devices: &[u8], device: Option<u8>) -> bool
    ensures { result ≡ is_wanted_of devices.now device }
{
    match device {
        Some(addr) if !devices.is_empty() => devices.contains(&addr),
        _ => true,
    }
}
