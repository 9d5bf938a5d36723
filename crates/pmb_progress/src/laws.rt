//! Laws over the definitions alone.

ghost use Rattle.std.specs.Prelude.{◌≡◌, ◌+◌, ◌++◌, ◌≤◌, ℕ, List, length};
ghost use Rattle.pmb_progress.specs.declared.place.Place.{Place as At};
ghost use Rattle.pmb_progress.specs.Stops.{place_behind, stops};

/// However a text is cut, as many packets end in it.
pub fn pieces_add_up()
    ensures count { (place : At) (text more : List ℕ) → stops place (text ++ more) ≡ stops place text + stops (place_behind place text) more }
    ensures place { (place : At) (text more : List ℕ) → place_behind place (text ++ more) ≡ place_behind (place_behind place text) more }
{}
