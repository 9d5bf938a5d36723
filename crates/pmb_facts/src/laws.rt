//! Laws over the definitions alone.

ghost use Rattle.std.specs.Prelude.{◌≡◌, ℕ, List, Option, map};
ghost use Rattle.pmb_bus.specs.declared.event.Event.{Event};
ghost use Rattle.pmb_json_objects.specs.Head.{Head};
ghost use Rattle.pmb_json_objects.specs.Packets.{packet_objects};
ghost use Rattle.pmb_json_objects.specs.Seen.{SeenData};
ghost use Rattle.pmb_places.specs.declared.places.Place.{Place};
ghost use Rattle.pmb_transaction.specs.Transaction.{TransactionData};
ghost use Rattle.pmb_facts.specs.Fact.{WhatData, fact_device};
ghost use Rattle.pmb_facts.specs.Object.{object_in, object_of};
ghost use Rattle.pmb_facts.specs.Packets.{packet_facts};

/// The objects of a packet are those of its facts.
pub fn objects_are_of_facts()
    ensures { (seen : SeenData) (place : ℕ → Place) (time : Option (List ℕ)) (n : ℕ) (events : List Event) (t : TransactionData)
        → map (object_in seen) (packet_facts seen.before place time n events t) ≡ packet_objects seen place time n events t }
{}

/// The object of a fact is of the device that the fact names.
pub fn objects_name_the_device()
    ensures { (seen : SeenData) (head : Head) (what : WhatData) → (object_of seen head what).device ≡ fact_device what }
{}
