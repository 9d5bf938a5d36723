//! Laws over the definitions alone.

ghost use Rattle.std.specs.Prelude.{◌≡◌, ◌++◌, ℕ, List, Some, option_map};
ghost use Rattle.pmb_facts.specs.Fact.{WhatData, fact_command};
ghost use Rattle.pmb_facts.specs.Object.{object_of};
ghost use Rattle.pmb_json_objects.specs.Head.{Head};
ghost use Rattle.pmb_json_objects.specs.Members.{head_members};
ghost use Rattle.pmb_json_objects.specs.Seen.{SeenData};
ghost use Rattle.pmb_json_text.specs.Member.{Member};
ghost use Rattle.pmb_items.specs.Bytes.{or_none};
ghost use Rattle.pmb_items.specs.Item.{item_head, item_of};
ghost use Rattle.pmb_items.specs.Refusal.{reason_number, reason_of};
ghost use Rattle.pmb_transaction.specs.declared.reason.Reason.{Reason};
ghost use Rattle.pmb_item_laws.specs.Data.{HaveData};
ghost use Rattle.pmb_item_laws.specs.Kind.{kind_name};

/// The item of a fact begins where and when its object does, and is of the kind that its object names.
pub fn items_begin_as_their_objects()
    ensures head { (seen : SeenData) (head : Head) (what : WhatData) → (item_of seen head what).head ≡ item_head head }
    ensures kind { (seen : SeenData) (head : Head) (what : WhatData)
        → (rest : List Member) × ((object_of seen head what).members ≡ head_members head (kind_name (item_of seen head what).kind) ++ rest) }
{}

/// The item of a fact has the code of the command that the fact is about.
pub fn items_name_the_command()
    ensures { (seen : SeenData) (head : Head) (what : WhatData)
        → (item_of seen head what).command.code ≡ or_none (option_map (λ command. command.code) (fact_command what)) }
{}

/// An item has the bytes that the object of the same fact has: what was sent, and what was replied.
pub fn items_have_the_bytes_of_their_objects()
    ensures { (seen : SeenData) (head : Head) (what : WhatData) → HaveData what (object_of seen head what) (item_of seen head what) }
{}

/// A number that names a reason is that of the reason, and of no other one.
pub fn reasons_have_one_number()
    ensures { (number : ℕ) (reason : Reason) → reason_of number ≡ Some reason → number ≡ reason_number reason }
{}
