//! The object of a fact.
//!
//! Its rows: `tests/rows/json_objects.txt`; `tests_json`, `src/object_lines/`.

ghost use Rattle.std.specs.Prelude.{◌≡◌, ◌+◌, ◌≤◌, ◌++◌, length};
ghost use Rattle.pmb_json_objects.specs.Head.{head_of};
ghost use Rattle.pmb_json_objects.specs.Seen.{SeenData};
ghost use Rattle.pmb_json_objects.specs.Sees.{Sees};
ghost use Rattle.pmb_json_text.specs.Member.{object_line};
ghost use Rattle.pmb_facts.specs.Fact.{WhatData};
ghost use Rattle.pmb_facts.specs.Object.{object_of};
ghost use Rattle.pmb_facts.specs.Stands.{IsShort, Stands};

use crate::fact::{Fact, What};
use arrayvec::ArrayVec;
use pmb_json_objects::{
    OBJECT, Seen, alert_line, bad_token_line, call_line, no_alert_line, other_line, read_line,
    refusal_line, refused_line, write_line,
};

/// Appends the object of a fact as a line of JSON, of at most [`OBJECT`] bytes.
pub fn append_object<const N: usize>(out: &mut ArrayVec<u8, N>, seen: &Seen<'_>, fact: Fact<'_>)
    requires few { IsShort fact.what }
    requires room { length out.old.items + OBJECT ≤ N }
    ensures line { (known : SeenData) (what : WhatData) → Sees seen.now known → Stands fact.entry.what what
        → out.new.items ≡ out.old.items ++ object_line (object_of known (head_of fact.entry.head) what).members }
    ensures short { length out.new.items ≤ length out.old.items + OBJECT }
{
    let head = fact.head;
    match fact.what {
        What::Write {
            part,
            parts,
            written,
        } => write_line(out, seen, head, part, parts, written),
        What::Read {
            addr,
            code,
            reply,
            pec,
        } => read_line(out, seen, head, addr, code, reply, pec),
        What::Call {
            addr,
            code,
            sent,
            reply,
            pec,
        } => call_line(out, seen, head, addr, code, sent, reply, pec),
        What::Refused {
            parts,
            addr,
            sent,
            at_read,
        } => refused_line(out, seen, head, parts, addr, sent, at_read),
        What::Alert { byte, pec } => alert_line(out, seen.profile, head, byte, pec),
        What::NoAlert => no_alert_line(out, head),
        What::Other { addr } => other_line(out, head, addr),
        What::Refusal {
            said,
            event,
            reason,
            expected,
        } => refusal_line(out, seen, head, said, event, reason, expected),
        What::BadToken { word } => bad_token_line(out, head, word),
    }
}
