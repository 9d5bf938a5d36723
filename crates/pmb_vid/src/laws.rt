//! A law over the definitions that the contracts cite: a function that is its contract, and does
//! nothing.
//!
//! Its rows: `tests_numbers`, `src/formats/vid.rt`, where it is called.
ghost use Rattle.std.specs.Prelude.{◌≡◌, Some};
ghost use Rattle.pmb_vid.specs.declared.table.VidTable.{VidTable};
ghost use Rattle.pmb_vid.specs.Names.{table_name, named_table};

/// The name of each table names it.
pub fn names_name_their_tables()
    ensures { (table : VidTable) → named_table (table_name table) ≡ Some table }
{}
