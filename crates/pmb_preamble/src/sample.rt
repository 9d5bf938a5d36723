//! The sample profile.

ghost use Rattle.std.specs.Prelude.{◌≡◌, IfOk, IfErr, Ok};
ghost use Rattle.pmb_table.specs.Profile.{SaysBus};

use pmb_io::ToolFault;
use pmb_table::{BusProfile, SAMPLE};
use std::alloc::Global;

/// The sample profile, as it is read from its text.
///
/// # Errors
///
/// `Memory`: the sample has no fault.
pub fn sample_profile(alloc: Global) -> Result<BusProfile, ToolFault>
    ensures ok { IfOk result (λ bus. SaysBus SAMPLE.now (Ok bus)) }
    ensures memory { IfErr result (λ fault. fault ≡ ToolFault.Memory) }
{
    match BusProfile::from_toml(alloc, SAMPLE.as_bytes()) {
        Ok(bus) => Ok(bus),
        Err(_) => Err(ToolFault::Memory),
    }
}
