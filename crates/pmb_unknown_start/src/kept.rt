//! What is kept of one device.
//!
//! Its rows: `tests_lines`, `src/late/starts.rt`, `phases.rt` and `also.rt`.

ghost use Rattle.std.specs.Prelude.{◌≡◌, map, nat_eq};
ghost use Rattle.pmb_transaction.specs.Transaction.{part_data};
ghost use Rattle.pmb_unknown_start.specs.Phase.{phase_code};
ghost use Rattle.pmb_unknown_start.specs.machine.Keeping.{first_kept, kept_bytes, kept_dropped, kept_part, kept_parts, kept_write};

use crate::known::Known;
use crate::restores::untells_mode;
use crate::start::Start;
use crate::taken::{are_crossed, takes};
use pmb_table::DeviceProfile;
use pmb_transaction::Part;
use std::marker::Model;

/// The code of PHASE (PMBus Part II 1.3).
const PHASE: u8 = 0x04;

/// What is known of PAGE and VOUT_MODE of a device, and PHASE, as it was told last.
#[derive(Debug, Default, Drop)]
pub(crate) struct Kept {
    known: Known,
    phase: Option<u8>,
}

impl Model for Kept {
    ghost use Rattle.pmb_unknown_start.specs.machine.Keeping.{KeptData};

    ghost Value = { KeptData };

    ghost view = { λ k. record { known = k.known; phase = k.phase } };
}

impl Kept {
    /// What is known before all transactions.
    pub fn new(device: &DeviceProfile, start: Start) -> Kept
        ensures { result ≡ first_kept start device.now }
    {
        Kept {
            known: Known::new(device, start),
            phase: None,
        }
    }

    /// What is known of PAGE and VOUT_MODE.
    pub fn known(&self) -> &Known
        ensures { result.now ≡ self.now.known }
    {
        &self.known
    }

    /// PHASE, as it was told last.
    pub fn phase(&self) -> Option<u8>
        ensures { result ≡ self.now.phase }
    {
        self.phase
    }

    /// Takes bytes of the register with a code, as it was written or read.
    pub fn take(&mut self, device: &DeviceProfile, code: u8, bytes: &[u8])
        ensures { self.new ≡ kept_bytes device.now code bytes.now self.old }
    {
        let [value] = bytes else {
            return;
        };
        self.known.learn(device, code, *value);
        if code == PHASE {
            self.phase = Some(*value);
        }
    }

    /// Takes bytes that were written, which may leave VOUT_MODE untold.
    pub fn take_write(&mut self, device: &DeviceProfile, start: Start, code: u8, bytes: &[u8])
        ensures { self.new ≡ kept_write start device.now code bytes.now self.old }
    {
        self.take(device, code, bytes);
        if untells_mode(code, bytes) {
            self.known.forget_modes(start);
        }
    }

    /// Takes what complete parts of a packet wrote, where the device takes them.
    pub fn take_parts(&mut self, device: &DeviceProfile, start: Start, parts: &[Part])
        ensures { self.new ≡ kept_parts start device.now (map part_data parts.now) self.old }
    {
        if are_crossed(device, parts) {
            self.drop_line(start);
            return;
        }
        for part in parts {
            self.take_part(device, start, part);
        }
    }

    // .. of one part.
    fn take_part(&mut self, device: &DeviceProfile, start: Start, part: &Part)
        ensures { self.new ≡ kept_part start device.now self.old (part_data part.now) }
    {
        if takes(device, part) {
            self.take_write(device, start, part.code, part.bytes.as_slice());
        }
    }

    /// A line was dropped.
    pub fn drop_line(&mut self, start: Start)
        ensures { self.new ≡ kept_dropped start self.old }
    {
        self.known.forget_paging(start);
        self.phase = None;
    }
}

/// Whether a register is PHASE.
#[inline]
pub(crate) fn is_phase(code: u8) -> bool
    ensures { result ≡ nat_eq code phase_code }
{
    code == PHASE
}
