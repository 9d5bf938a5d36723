//! Whether a register is read or written.
//!
//! Its rows: `tests_json`, `src/fields/registers.rt` and `profiles.rt`.

ghost use Rattle.std.specs.Prelude.{◌≡◌};
ghost use Rattle.pmb_json_fields.specs.Value.{form_of};

use pmb_command::{Form, Shape};

/// Whether a command's data are read or written. To write to a status register clears the bits that
/// are set in what is written (PMBus Part II 1.3 section 10.2.4).
#[derive(Clone, Copy, Debug, PartialEq, Eq)]
pub enum Access {
    /// The data are a device's reply.
    Read,
    /// The data are sent to a device.
    Write,
}

impl Access {
    /// The form in which a command's data go so, where they do.
    pub fn form(self, shape: Shape) -> Option<Form>
        ensures { result ≡ form_of self shape }
    {
        match self {
            Access::Read => shape.read,
            Access::Write => shape.write,
        }
    }
}
