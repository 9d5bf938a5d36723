//! One register, and the registers of a slice.

ghost use Rattle.std.specs.Prelude.{◌≡◌, ◌≤◌, IfSome, length, map, nat_eq, option_map};
ghost use Rattle.pmb_registers.specs.State.{held, is_of_page};
ghost use Rattle.pmb_registers.specs.Apply.{changed, changed_one, reaches};
ghost use Rattle.pmb_registers.specs.machine.Registers.{HasRoom, change_of, register_data};

use crate::change::{Change, change_bytes};
use arrayvec::ArrayVec;

/// The page number that selects all pages (PMBus Part II 1.3 section 11.10).
pub(crate) const ALL_PAGES: u8 = 0xff;

/// What a command of a device holds, on one page or on all.
#[derive(Debug, Drop)]
pub(crate) struct Register {
    /// The command's code.
    pub code: u8,
    /// The page; `None` where all pages share it.
    pub page: Option<u8>,
    /// The bytes, low byte first, without the count of a block.
    pub bytes: ArrayVec<u8, 255>,
}

/// Whether a write under a selected page reaches a page's register.
fn reaches(selected: u8, page: Option<u8>) -> bool
    ensures { result ≡ reaches selected page }
{
    match page {
        None => true,
        Some(page) => selected == ALL_PAGES || selected == page,
    }
}

/// Whether a register answers for a page.
fn is_of_page(page: u8, own: Option<u8>) -> bool
    ensures { result ≡ is_of_page page own }
{
    match own {
        None => true,
        Some(own) => own == page,
    }
}

impl Register {
    /// Changes the bytes, if the register has the code and is reached.
    fn change(&mut self, code: u8, selected: u8, change: &Change<'_>)
        requires { HasRoom change.now }
        ensures { register_data self.new ≡ changed_one selected (nat_eq code) (change_of change.now) (register_data self.old) }
    {
        if code == self.code && reaches(selected, self.page) {
            change_bytes(&mut self.bytes, change);
        }
    }
}

/// Changes the registers that have the code and are reached under a selected page.
pub(crate) fn change_each(registers: &mut [Register], code: u8, selected: u8, change: &Change<'_>)
    requires { HasRoom change.now }
    ensures { map register_data registers.new ≡ changed selected (nat_eq code) (change_of change.now) (map register_data registers.old) }
{
    for register in registers.iter_mut() {
        register.change(code, selected, change);
    }
}

/// The bytes of the first register that has the code and answers for a page.
pub(crate) fn bytes_on(registers: &[Register], page: u8, code: u8) -> Option<&[u8]>
    ensures held { option_map (λ bytes. bytes.now) result ≡ held page code (map register_data registers.now) }
    ensures few { IfSome result (λ bytes. length bytes.now ≤ 255) }
{
    for register in registers {
        if register.code == code && is_of_page(page, register.page) {
            return Some(register.bytes.as_slice());
        }
    }
    None
}
