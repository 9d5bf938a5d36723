//! The law of names: the function is its contract, and does nothing.

ghost use Rattle.std.specs.Prelude.{◌≡◌, ℕ, List, Option, option_map};
ghost use Rattle.pmb_wire_names.specs.Choosing.{chosen};
ghost use Rattle.pmb_wire_names.specs.Kept.{all_taken, choose, fresh, kept_name};
ghost use Rattle.pmb_wire_names.specs.declared.found.NamedSignal.{NamedSignal};

/// What is kept of the signals of a recording chooses as all of them do.
pub fn chooses_of_all()
    ensures { (scl sda : Option (List ℕ)) (signals : List NamedSignal) → choose (all_taken (fresh scl sda) signals) ≡ chosen (option_map kept_name scl) (option_map kept_name sda) signals }
{}
