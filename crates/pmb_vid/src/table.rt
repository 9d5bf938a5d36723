//! VID tables.
//!
//! Voltages are evenly spaced, but most tables begin at code 1, so that a code and its index differ
//! in parity, and a tie goes to the even code. So a quantity in range is encoded among all codes from
//! 0 to the last, where the index is the code: each code before the first is farther than some code
//! of the table.
//!
//! Its rows: `tests_numbers`, `src/formats/vid.rt`.
ghost use Rattle.std.specs.Prelude.{◌≡◌, ◌≤◌, length};
ghost use Rattle.pmb_vid.specs.Vid.{first_code, last_code, has_voltage, has_off, is_off, vid};
ghost use Rattle.pmb_vid.specs.Names.{table_name, named_table};
ghost use Rattle.pmb_vid.specs.machine.AllCodes.{all_codes, falls, code_row};

use pmb_format::codes::{self, Codes};
use pmb_format::evenly_spaced::{self, EvenlySpaced};
use pmb_format::{Format, RangeFault, Steps};
use pmb_quantity::Quantity;

/// A table of voltages that a supplier of processors fixes. The whole word is the code.
/// A word that is no code with a voltage is decoded by the same formula, and never written.
#[derive(Clone, Copy, Debug, Default, PartialEq, Eq)]
pub enum VidTable {
    /// `vr11`: 2 to 178, `1.6 - (code - 2) * 0.00625` volts.
    #[default]
    Vr11,
    /// `vr12`: 1 to 255, `0.25 + (code - 1) * 0.005` volts; 0 is off.
    Vr12,
    /// `vr13`: 1 to 255, `0.5 + (code - 1) * 0.01` volts; 0 is off.
    Vr13,
    /// `imvp9`: 1 to 255, `0.2 + (code - 1) * 0.01` volts; 0 is off.
    Imvp9,
    /// `amd625mv`: 0 to 216, `1.55 - code * 0.00625` volts.
    Amd625mv,
    /// `nvidia195mv`: 1 to 255, `0.195 + (code - 1) * 0.005` volts; 0 is off.
    Nvidia195mv,
}

impl VidTable {
    /// Whether a code has a voltage.
    pub fn has_voltage(self, word: u16) -> bool
        ensures { result ≡ has_voltage self word }
    {
        self.first_code() <= word && word <= self.last_code()
    }

    /// Whether a code says that the output is off.
    pub fn is_off(self, word: u16) -> bool
        ensures { result ≡ is_off self word }
    {
        self.has_off() && word == 0
    }

    /// The table's name.
    pub fn name(self) -> &'static str
        ensures name { result.now ≡ table_name self }
        ensures short { length result.now ≤ 11 }
    {
        match self {
            VidTable::Vr11 => "vr11",
            VidTable::Vr12 => "vr12",
            VidTable::Vr13 => "vr13",
            VidTable::Imvp9 => "imvp9",
            VidTable::Amd625mv => "amd625mv",
            VidTable::Nvidia195mv => "nvidia195mv",
        }
    }

    /// The table of a name.
    pub fn named(text: &str) -> Option<VidTable>
        ensures { result ≡ named_table text.now }
    {
        match text {
            "vr11" => Some(VidTable::Vr11),
            "vr12" => Some(VidTable::Vr12),
            "vr13" => Some(VidTable::Vr13),
            "imvp9" => Some(VidTable::Imvp9),
            "amd625mv" => Some(VidTable::Amd625mv),
            "nvidia195mv" => Some(VidTable::Nvidia195mv),
            _ => None,
        }
    }

    /// The first code with a voltage.
    fn first_code(self) -> u16
        ensures { result ≡ first_code self }
    {
        match self {
            VidTable::Vr11 => 2,
            VidTable::Amd625mv => 0,
            VidTable::Vr12 | VidTable::Vr13 | VidTable::Imvp9 | VidTable::Nvidia195mv => 1,
        }
    }

    /// The last code with a voltage.
    fn last_code(self) -> u16
        ensures { result ≡ last_code self }
    {
        match self {
            VidTable::Vr11 => 178,
            VidTable::Amd625mv => 216,
            VidTable::Vr12 | VidTable::Vr13 | VidTable::Imvp9 | VidTable::Nvidia195mv => 255,
        }
    }

    /// Whether the table has a code that is off.
    fn has_off(self) -> bool
        ensures { result ≡ has_off self }
    {
        match self {
            VidTable::Vr11 | VidTable::Amd625mv => false,
            VidTable::Vr12 | VidTable::Vr13 | VidTable::Imvp9 | VidTable::Nvidia195mv => true,
        }
    }

    /// Whether greater codes have less voltage.
    fn falls(self) -> bool
        ensures { result ≡ falls self }
    {
        match self {
            VidTable::Vr11 | VidTable::Amd625mv => true,
            VidTable::Vr12 | VidTable::Vr13 | VidTable::Imvp9 | VidTable::Nvidia195mv => false,
        }
    }
}

impl Codes for VidTable {
    ghost coding = { vid };

    fn numerator(&self, code: u16) -> i64 {
        let code = i64::from(code);
        match self {
            VidTable::Vr11 => 258 - code,
            VidTable::Vr12 | VidTable::Vr13 => 49 + code,
            VidTable::Imvp9 => 19 + code,
            VidTable::Amd625mv => 248 - code,
            VidTable::Nvidia195mv => 38 + code,
        }
    }

    fn denominator(&self) -> u64 {
        match self {
            VidTable::Vr11 | VidTable::Amd625mv => 160,
            VidTable::Vr12 | VidTable::Nvidia195mv => 200,
            VidTable::Vr13 | VidTable::Imvp9 => 100,
        }
    }

    fn least(&self) -> u16 {
        if self.falls() {
            self.last_code()
        } else {
            self.first_code()
        }
    }

    fn greatest(&self) -> u16 {
        if self.falls() {
            self.first_code()
        } else {
            self.last_code()
        }
    }
}

impl Format for VidTable {
    ghost coding = { vid };

    fn decode(&self, code: u16) -> Quantity {
        codes::decode(self, code)
    }

    fn encode(&self, quantity: &Quantity, steps: &mut Steps) -> Result<u16, RangeFault> {
        match codes::fault_of(self, quantity) {
            Some(fault) => Err(fault),
            None => {
                // A quantity's denominator is positive.
                let _positive = quantity.den();
                evenly_spaced::encode(&AllCodes { table: *self }, quantity, steps)
            }
        }
    }

    fn obeys_laws(&self) {}
}

/// All codes up to a table's last, also those before its first, by the table's formula.
#[derive(Clone, Copy)]
struct AllCodes {
    table: VidTable,
}

impl Codes for AllCodes {
    ghost coding = { λ all. all_codes all.table };

    fn numerator(&self, code: u16) -> i64 {
        self.table.numerator(code)
    }

    fn denominator(&self) -> u64 {
        self.table.denominator()
    }

    fn least(&self) -> u16 {
        if self.table.falls() {
            self.table.last_code()
        } else {
            0
        }
    }

    fn greatest(&self) -> u16 {
        if self.table.falls() {
            0
        } else {
            self.table.last_code()
        }
    }
}

impl EvenlySpaced for AllCodes {
    ghost row = { λ all. code_row all.table };

    fn spacing(&self) -> u64 {
        1
    }

    fn code_at(&self, index: u16) -> u16 {
        index
    }
}
