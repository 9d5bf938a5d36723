//! The laws of recordings of the kernel's events of `i2c`: each function is its contract, and does
//! nothing.

ghost use Rattle.pmb_kernel.specs.Classes.{EachLineHasItsClass};

/// Each line of a recording gives events, says nothing, is of another bus or kind, or is a fault, and
/// the machine does with it what its class says.
pub fn each_line_has_its_class()
    ensures { EachLineHasItsClass }
{}
