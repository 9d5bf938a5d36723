//! Laws over the definitions alone: what is written is JSON, and an object with its LF is a line.
//! Each function is its contract, and does nothing.
//!
//! Its rows: `tests_json`, `src/objects/laws.rt`, where each law is called.

ghost use Rattle.std.specs.Prelude.{◌≡◌, ◌<◌, ◌≤◌, ◌^◌, ℕ, List, [], ◌∷◌, ◌++◌, Some, IsTrue, codes, decimal};
ghost use Rattle.json.specs.Json.{document, max_depth};
ghost use Rattle.json.specs.Tree.{depth};
ghost use Rattle.pmb_json_text.specs.declared.item_order.ItemOrder.{ItemOrder};
ghost use Rattle.pmb_json_text.specs.declared.item_order.ItemOrder.TheVariants.{First};
ghost use Rattle.pmb_json_text.specs.Json.{Json, AreDistinct, IsJsonText, IsNumber, Spells};
ghost use Rattle.pmb_json_text.specs.Member.{AreWritable, IsPart, Member, are_distinct, array_of, array_text, items_text, members_text, named, object_line, object_of, place_after};
ghost use Rattle.pmb_json_text.specs.ReadBack.{read_value};
ghost use Rattle.pmb_json_text.specs.Spelling.{AreBytes, FitsInLine, IsWritable, quoted, spelled};

/// What is spelled is JSON, and spells that value, if its numbers are numbers of JSON and its strings
/// hold bytes (`IsWritable`).
pub fn spelling_is_json()
    ensures { (value : Json) → IsWritable value → Spells value (spelled value) }
{}

/// A line is a JSON text, and spells its object.
pub fn line_is_json()
    ensures { (members : List Member) → AreWritable members → IsJsonText (object_line members) (object_of members) }
{}

/// The reader of the crate `json`, which was compared with other readers over many texts, reads what is
/// spelled as that value, where it is nested no deeper than that reader goes.
pub fn spelling_reads_back()
    ensures { (value : Json) → IsWritable value → depth (read_value value) ≤ max_depth
        → document (spelled value) ≡ Some (read_value value) }
{}

/// So it reads a line.
pub fn line_reads_back()
    ensures { (members : List Member) → AreWritable members → depth (read_value (object_of members)) ≤ max_depth
        → document (object_line members) ≡ Some (read_value (object_of members)) }
{}

/// What is spelled is printable ASCII alone: it has no LF, and so an object is a line.
pub fn spelling_fits_in_line()
    ensures { (value : Json) → IsWritable value → FitsInLine (spelled value) }
{}

/// Two strings of bytes that are spelled alike are the same.
pub fn one_string()
    ensures { (a b : List ℕ) → AreBytes a → AreBytes b → quoted a ≡ quoted b → a ≡ b }
{}

/// The digits of a number are a number of JSON.
pub fn digits_are_a_number()
    ensures { (n : ℕ) → n < 2 ^ 64 → IsNumber (decimal n) }
{}

/// Members are written one after the other, wherever their list is cut.
pub fn members_follow_members()
    ensures { (place : ItemOrder) (front back : List Member)
        → members_text place (front ++ back) ≡ members_text place front ++ members_text (place_after place front) back }
{}

/// So are the values of an array.
pub fn values_follow_values()
    ensures { (place : ItemOrder) (front back : List Json)
        → items_text place (front ++ back) ≡ items_text place front ++ items_text (place_after place front) back }
{}

/// A line is written by [`begin`](crate::begin), its members and [`end`](crate::end).
pub fn line_in_pieces()
    ensures { (members : List Member)
        → object_line members ≡ codes "{" ++ members_text First members ++ codes "}\n" }
{}

/// A member whose value is an array is written by [`begin_array`](crate::begin_array), its values
/// and [`end_array`](crate::end_array).
pub fn array_in_pieces()
    ensures { (place : ItemOrder) (key : List ℕ) (values : List Json)
        → members_text place (named key (array_of values) ∷ []) ≡ array_text place key ++ items_text First values ++ codes "]" }
{}

/// Distinct keys stay distinct when some are left out.
pub fn fewer_keys_are_distinct()
    ensures { (some all : List (List ℕ)) → IsPart some all → AreDistinct all → AreDistinct some }
{}

/// Keys that pass the test are distinct.
pub fn tested_keys_are_distinct()
    ensures { (all : List (List ℕ)) → IsTrue (are_distinct all) → AreDistinct all }
{}
