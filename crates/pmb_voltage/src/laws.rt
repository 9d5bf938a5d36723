//! Laws over the definitions: each is the contract of a function that does nothing.

ghost use Rattle.pmb_command.specs.Parts.{DeviceParts};
ghost use Rattle.pmb_voltage.specs.Laws.{IsOpenIfUnknown, KnowsNoOther};
ghost use Rattle.pmb_voltage.specs.Voltage.{VoltagesData};

/// Where less is known of VOUT_MODE and PAGE, and that agrees with what is known, the format of an
/// output voltage is not known, or it is the same.
pub fn known_formats_are_the_same()
    ensures { (device : DeviceParts) → KnowsNoOther device }
{}

/// Where the format of some command is not known, that of output voltages is open: so a voltage that has a
/// format by more that is known, and none by less, is one whose format is open by less.
pub fn unknown_formats_are_open()
    ensures { (v : VoltagesData) → IsOpenIfUnknown v }
{}
