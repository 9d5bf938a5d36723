//! The line of a fact.
//!
//! Its rows: `tests/rows/log.txt`; `tests_json`, `src/log_lines/`.

ghost use Rattle.std.specs.Prelude.{◌≡◌, ◌+◌, ◌≤◌, ◌++◌, length, take};
ghost use Rattle.pmb_json_objects.specs.Head.{head_of};
ghost use Rattle.pmb_json_objects.specs.Seen.{SeenData};
ghost use Rattle.pmb_json_objects.specs.Sees.{Sees};
ghost use Rattle.pmb_facts.specs.Fact.{WhatData};
ghost use Rattle.pmb_log_lines.specs.Layout.{IsNarrow};
ghost use Rattle.pmb_log_lines.specs.Line.{bad_token_says, line_of, says};
ghost use Rattle.pmb_facts.specs.Stands.{IsShort, Stands};
ghost use Rattle.pmb_log_data.specs.Appends.{Appends};

use crate::LINE;
use crate::columns::append_columns;
use crate::layout::Layout;
use crate::packets::{PACKET, append_call, append_read, append_write};
use crate::refusals::append_refusal;
use crate::refused::append_refused;
use arrayvec::ArrayVec;
use pmb_facts::{Fact, What};
use pmb_json_objects::{Seen, WORD};
use pmb_log_data::{append, append_escaped, append_number};
use pmb_places::Place;

/// Appends the line of a fact, with its LF.
pub fn append_log_line<const N: usize>(
    out: &mut ArrayVec<u8, N>,
    layout: Layout,
    seen: &Seen<'_>,
    fact: Fact<'_>,
)
    requires narrow { IsNarrow layout }
    requires few { IsShort fact.what }
    requires room { length out.old.items + LINE ≤ N }
    ensures line { (known : SeenData) (what : WhatData) → Sees seen.now known → Stands fact.entry.what what
        → out.new.items ≡ out.old.items ++ line_of layout known (head_of fact.entry.head) what }
    ensures short { length out.new.items ≤ length out.old.items + LINE }
{
    append_columns(
        out,
        layout,
        seen,
        fact.head.time,
        fact.what.device(),
        fact.what.command(),
    );
    append_says(out, seen, fact.head.place, fact.what);
    append(out, b"\n");
}

/// Appends what the line says.
fn append_says<const N: usize>(
    out: &mut ArrayVec<u8, N>,
    seen: &Seen<'_>,
    place: Place,
    what: What<'_>,
)
    requires few { IsShort what }
    requires room { length out.old.items + PACKET ≤ N }
    ensures says { (known : SeenData) (what_is : WhatData) → Sees seen.now known → Stands what.entry what_is
        → Appends (says known place what_is) PACKET out.old.items out.new.items }
    ensures longer { length out.new.items ≤ length out.old.items + PACKET }
{
    match what {
        What::Write {
            part,
            parts,
            written,
        } => append_write(out, seen, part, parts, written),
        What::Read {
            addr,
            code,
            reply,
            ..
        } => append_read(out, seen, addr, code, reply),
        What::Call {
            addr,
            code,
            sent,
            reply,
            ..
        } => append_call(out, seen, addr, code, sent, reply),
        What::Refused {
            parts,
            addr,
            sent,
            at_read,
        } => append_refused(out, seen, parts, addr, sent, at_read),
        What::Alert { .. } => append(out, b"answered an alert"),
        What::NoAlert => append(out, b"alert, and no device answered"),
        What::Other { .. } => append(out, b"not PMBus"),
        What::Refusal {
            said,
            event,
            reason,
            expected,
        } => append_refusal(out, seen, said, event, reason, expected),
        What::BadToken { word } => append_bad_token(out, place, word),
    }
}

/// Appends what is said of a word that is no token: at most its first 32 bytes, and where it stands.
fn append_bad_token<const N: usize>(out: &mut ArrayVec<u8, N>, place: Place, word: &[u8])
    requires { length out.old.items + 260 ≤ N }
    ensures { Appends (bad_token_says place word.now) 260 out.old.items out.new.items }
{
    append(out, b"no token: ");
    append_escaped(out, told(word));
    append(out, b" at line ");
    append_number(out, place.line);
    append(out, b" column ");
    append_number(out, place.column);
}

/// The bytes of a word that are told.
fn told(word: &[u8]) -> &[u8]
    ensures text { result.now ≡ take 32 word.now }
    ensures short { length result.now ≤ 32 }
{
    if word.len() > WORD {
        &word[..WORD]
    } else {
        word
    }
}
