//! How facts are told.
//!
//! Its rows: `tests/rows/json_objects.txt`, `log.txt`.

ghost use Rattle.std.specs.Prelude.{◌≡◌, ◌+◌, ◌≤◌, ◌++◌, length};
ghost use Rattle.pmb_facts.specs.Fact.{WhatData};
ghost use Rattle.pmb_facts.specs.Stands.{IsShort, Stands};
ghost use Rattle.pmb_json_objects.specs.Head.{head_of};
ghost use Rattle.pmb_json_objects.specs.Seen.{SeenData};
ghost use Rattle.pmb_json_objects.specs.Sees.{Sees};
ghost use Rattle.pmb_fact_stream.specs.Lines.{told_line};
ghost use Rattle.pmb_fact_stream.specs.Telling.{Fits};

use pmb_facts::{Fact, append_object};
use pmb_io::{ROOM, Waiting};
use pmb_items::append_item;
use pmb_json_objects::{OBJECT, Seen};
use pmb_log_lines::{Layout, append_log_line};

/// How the facts of a capture are told.
#[derive(Clone, Copy)]
pub enum Telling {
    /// Each as an object, a line of JSON, and at the end the counts.
    Objects,
    /// Each as a line for people, whose columns are that wide.
    Lines(Layout),
    /// Each as the record of its item, of 680 bytes and without an LF.
    Items,
    /// Not at all.
    Nothing,
}

impl Telling {
    /// Appends the line of a fact to what waits.
    pub(crate) fn append_line(self, waiting: &mut Waiting, seen: &Seen<'_>, fact: Fact<'_>)
        requires fits { Fits self }
        requires few { IsShort fact.what }
        requires room { length waiting.old.items + OBJECT ≤ ROOM }
        ensures line { (known : SeenData) (what : WhatData) → Sees seen.now known → Stands fact.entry.what what
            → waiting.new.items ≡ waiting.old.items ++ told_line self known (head_of fact.entry.head) what }
    {
        match self {
            Telling::Objects => append_object(waiting, seen, fact),
            Telling::Lines(layout) => append_log_line(waiting, layout, seen, fact),
            Telling::Items => append_item(waiting, seen, fact),
            Telling::Nothing => {}
        }
    }
}
