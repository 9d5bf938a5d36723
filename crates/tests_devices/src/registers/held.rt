//! A look at a register.

use pmb_registers::Registers;

/// Whether the register of a code holds these bytes on a page.
pub(crate) fn holds(registers: &Registers<'_>, page: u8, code: u8, bytes: &[u8]) -> bool {
    registers.register(page, code) == Some(bytes)
}
