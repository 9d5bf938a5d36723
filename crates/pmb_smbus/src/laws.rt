//! The laws of recordings of `smbus`: each function is its contract, and does nothing.

ghost use Rattle.pmb_smbus.specs.Classes.{EachLineHasItsClass};

/// Each line of a recording gives events, says nothing of the bus, is passed over, or is a fault, and
/// what becomes of it is what its class says.
pub fn each_line_has_its_class()
    ensures { EachLineHasItsClass }
{}
