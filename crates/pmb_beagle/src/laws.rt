//! The laws of exports of Data Center: each function is its contract, and does nothing.

ghost use Rattle.pmb_beagle.specs.Classes.{EachLineHasItsClass};

/// Each line of a recording gives events, says nothing, or is a fault, and the machine does with it
/// what its class says.
pub fn each_line_has_its_class()
    ensures { EachLineHasItsClass }
{}
