//! Laws over the definitions alone: each is the contract of a function that does nothing.

ghost use Rattle.std.specs.Prelude.{◌≡◌, true};
ghost use Rattle.pmb_explain.specs.declared.fault.Fault.{Fault};
ghost use Rattle.pmb_explain.specs.Names.{fault_name, is_explained};

/// Each fault is explained by its name: none is forgotten.
pub fn each_fault_is_explained()
    ensures { (fault : Fault) → is_explained (fault_name fault) ≡ true }
{}
