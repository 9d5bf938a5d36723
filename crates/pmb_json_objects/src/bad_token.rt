//! The object of a word that is no token.
//!
//! Its rows: `tests_json`, `src/object_lines/words.rt`; `tests/rows/json_objects.txt`.

ghost use Rattle.std.specs.Prelude.{◌≡◌, ◌+◌, ◌≤◌, ◌++◌, length, take};
ghost use Rattle.pmb_json_text.specs.Member.{object_line};
ghost use Rattle.pmb_json_objects.specs.BadToken.{bad_token_object};
ghost use Rattle.pmb_json_objects.specs.Head.{head_of};

use crate::OBJECT;
use crate::head::Head;
use crate::members::begin_object;
use arrayvec::ArrayVec;
use pmb_json_text::{ItemOrder, end, text_member};

/// How many bytes of a word are told.
pub const WORD: usize = 32;

/// Appends the line of a word that is no token: how many events came before it, where it stands, the
/// time of the packet in which it stands, and at most its first 32 bytes.
pub fn bad_token_line<const N: usize>(out: &mut ArrayVec<u8, N>, head: Head<'_>, word: &[u8])
    requires room { length out.old.items + OBJECT ≤ N }
    ensures line { out.new.items ≡ out.old.items ++ object_line (bad_token_object (head_of head.entry) word.now).members }
    ensures short { length out.new.items ≤ length out.old.items + OBJECT }
{
    begin_object(out, head, b"bad_token");
    text_member(out, ItemOrder::Later, "word", told(word));
    end(out);
}

/// The bytes of a word that are told.
fn told(word: &[u8]) -> &[u8]
    ensures text { result.now ≡ take 32 word.now }
    ensures short { length result.now ≤ 32 }
{
    if word.len() > WORD {
        &word[..WORD]
    } else {
        word
    }
}
