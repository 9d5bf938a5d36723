//! Laws over the definitions alone.

ghost use Rattle.std.specs.Prelude.{◌≡◌, Some, length};
ghost use Rattle.pmb_facts.specs.Fact.{WhatData};
ghost use Rattle.pmb_facts.specs.Object.{object_of};
ghost use Rattle.pmb_json_objects.specs.Head.{Head};
ghost use Rattle.pmb_json_objects.specs.Seen.{SeenData};
ghost use Rattle.pmb_items.specs.Bytes.{or_none};
ghost use Rattle.pmb_items.specs.Item.{item_of};
ghost use Rattle.pmb_items.specs.Record.{item_bytes};
ghost use Rattle.pmb_items.specs.Refusal.{reason_number, reason_of};
ghost use Rattle.pmb_transaction.specs.declared.reason.Reason.{Reason};

use crate::record::RECORD;

/// The item of a fact is of the device that its object is of.
pub fn items_name_the_device()
    ensures { (seen : SeenData) (head : Head) (what : WhatData) → (item_of seen head what).device ≡ or_none (object_of seen head what).device }
{}

/// The record of each fact has [`RECORD`] bytes.
pub fn records_have_one_length()
    ensures { (seen : SeenData) (head : Head) (what : WhatData) → length (item_bytes (item_of seen head what)) ≡ RECORD }
{}

/// The number of each reason names it.
pub fn numbers_name_reasons()
    ensures { (reason : Reason) → reason_of (reason_number reason) ≡ Some reason }
{}
