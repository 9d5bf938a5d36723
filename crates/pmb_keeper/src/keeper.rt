//! What each fact of a capture is handed to.

ghost use Rattle.std.specs.Prelude.{◌++◌, ◌∷◌, [], List};
ghost use Rattle.pmb_facts.specs.Fact.{FactData, WhatData};
ghost use Rattle.pmb_facts.specs.Stands.{IsShort, Stands};
ghost use Rattle.pmb_json_objects.specs.Head.{head_of};
ghost use Rattle.pmb_json_objects.specs.Seen.{SeenData};
ghost use Rattle.pmb_json_objects.specs.Sees.{Sees};
ghost use Rattle.pmb_keeper.specs.Setting.{Setting, fact_seen, setting_of};

use pmb_facts::Fact;
use pmb_json_objects::Seen;

/// Keeps something of the facts of a capture, which come one after the other.
pub trait Keeper {
    /// It was given these facts since it was made, in this setting.
    ghost Keeps: { Self → Setting → List FactData → Type 0 };

    /// Takes the next fact, by what is known where its packet begins.
    fn keep(&mut self, seen: &Seen<'_>, fact: Fact<'_>)
        requires few { IsShort fact.what }
        ensures keeps { (known : SeenData) (what : WhatData) (facts : List FactData) → Sees seen.now known → Stands fact.entry.what what
            → Keeps self.old (setting_of known) facts
            → Keeps self.new (setting_of known) (facts ++ fact_seen known (head_of fact.entry.head) what ∷ []) };
}
