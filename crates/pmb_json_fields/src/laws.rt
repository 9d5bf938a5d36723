//! Laws over the definitions alone. Each function is its contract, and does nothing.
//!
//! Its rows: `tests_json`, `src/fields/example.rt`, where each law is called.

ghost use Rattle.std.specs.Prelude.{ℕ, List};
ghost use Rattle.pmb_command.specs.Parts.{CommandParts};
ghost use Rattle.pmb_voltage.specs.Voltage.{VoltagesData};
ghost use Rattle.pmb_json_text.specs.Json.{AreDistinct};
ghost use Rattle.pmb_json_text.specs.Member.{IsPart};
ghost use Rattle.pmb_json_fields.specs.declared.access.Access.{Access};
ghost use Rattle.pmb_json_fields.specs.declared.basis.Basis.{Basis};
ghost use Rattle.pmb_json_fields.specs.Laws.{data_keys, keys};
ghost use Rattle.pmb_json_fields.specs.Value.{data_members};

/// The keys of what is said of data are some of nine, in this order: `value`, `number`, `ratio`, `mode`,
/// `unit`, `raw`, `bits`, `clears`, `text`.
pub fn keys_are_some_of_nine()
    ensures { (digits : ℕ) (access : Access) (voltages : VoltagesData) (basis : Basis) (c : CommandParts) (bytes : List ℕ)
        → IsPart (keys (data_members digits access voltages basis c bytes)) data_keys }
{}

/// They are distinct.
pub fn keys_are_distinct()
    ensures { (digits : ℕ) (access : Access) (voltages : VoltagesData) (basis : Basis) (c : CommandParts) (bytes : List ℕ)
        → AreDistinct (keys (data_members digits access voltages basis c bytes)) }
{}
