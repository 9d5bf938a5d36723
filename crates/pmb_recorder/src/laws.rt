//! Laws over the definitions alone.

ghost use Rattle.std.specs.Prelude.{◌≡◌, List, None, Option, ℕ};
ghost use Rattle.pmb_recorder.specs.Recorded.{Makes, Recorded, fault_of};
ghost use Rattle.pmb_recorder.specs.declared.source.Source.{Source};
ghost use Rattle.pmb_sigrok_line.specs.declared.address_form.AddressForm.{AddressForm};

/// The parts of what wrote a recording make one thing, and then have no fault.
pub fn one_recorder()
    ensures one { (source : Source) (bus : Option (List ℕ)) (hertz : Option ℕ) (form : AddressForm) (a b : Recorded) → Makes source bus hertz form a → Makes source bus hertz form b → a ≡ b }
    ensures no_fault { (source : Source) (bus : Option (List ℕ)) (hertz : Option ℕ) (form : AddressForm) (a : Recorded) → Makes source bus hertz form a → fault_of source bus hertz form ≡ None }
{}
