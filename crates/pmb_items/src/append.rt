//! The record of a fact.

ghost use Rattle.std.specs.Prelude.{◌≡◌, ◌+◌, ◌≤◌, ◌++◌, length};
ghost use Rattle.pmb_facts.specs.Fact.{WhatData};
ghost use Rattle.pmb_facts.specs.Stands.{IsShort, Stands};
ghost use Rattle.pmb_json_objects.specs.Head.{head_of};
ghost use Rattle.pmb_json_objects.specs.Seen.{SeenData};
ghost use Rattle.pmb_json_objects.specs.Sees.{Sees};
ghost use Rattle.pmb_items.specs.Item.{item_of};
ghost use Rattle.pmb_items.specs.Record.{item_bytes};

use crate::item::Item;
use crate::record::RECORD;
use arrayvec::ArrayVec;
use pmb_facts::Fact;
use pmb_json_objects::Seen;

/// Appends the record of a fact, of [`RECORD`] bytes.
pub fn append_item<const N: usize>(out: &mut ArrayVec<u8, N>, seen: &Seen<'_>, fact: Fact<'_>)
    requires few { IsShort fact.what }
    requires room { length out.old.items + RECORD ≤ N }
    ensures record { (known : SeenData) (what : WhatData) → Sees seen.now known → Stands fact.entry.what what
        → out.new.items ≡ out.old.items ++ item_bytes (item_of known (head_of fact.entry.head) what) }
    ensures long { length out.new.items ≡ length out.old.items + RECORD }
{
    let item = Item::of(seen, fact);
    item.append(out);
}
