//! A set of the codes of commands at addresses of 7 bits.
//!
//! Its rows: `tests/rows/scan.txt`.

ghost use Rattle.std.specs.Prelude.{◌≡◌, ◌<◌, ℕ, true};
ghost use Rattle.pmb_draft.specs.machine.CodeSet.{IsIn};

/// How many codes there are at all addresses.
const CODES: usize = 128 * 256;

/// Codes of commands, each at an address.
#[derive(Drop)]
pub(crate) struct CodeSet {
    /// For each address in turn, for each code whether it is in the set.
    flags: [bool; CODES],
}

impl CodeSet {
    /// None of them.
    pub(crate) fn new() -> CodeSet {
        CodeSet {
            flags: [false; CODES],
        }
    }

    /// Puts in a code at an address.
    pub(crate) fn insert(&mut self, address: u8, code: u8)
        requires { address < 128 }
        ensures there { IsIn self.new address code }
        ensures kept { (a c : ℕ) → IsIn self.old a c → IsIn self.new a c }
    {
        self.flags[address as usize * 256 + code as usize] = true;
    }

    /// Whether a code at an address is in it.
    pub(crate) fn contains(&self, address: u8, code: u8) -> bool
        requires { address < 128 }
        ensures { IsIn self.now address code → result ≡ true }
    {
        self.flags[address as usize * 256 + code as usize]
    }
}
