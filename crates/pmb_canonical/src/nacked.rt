//! A leg whose last byte has NACK, after the parts of a group or without any.
//!
//! Its rows: `tests_reader`, `src/canonical/rows.rt` and `compared.rt`.

ghost use Rattle.std.specs.Prelude.{◌≡◌, true};
ghost use Rattle.pmb_canonical.specs.Nacked.{IsOfNacked, SaysNacked};

use crate::refused::{refused_address, refused_byte};
use pmb_table::Profile;
use pmb_transaction_slot::TransactionSlot;

/// How many parts may come before what is refused.
const PARTS: usize = 15;

/// Keeps the refused packet of the parts that are kept and of a leg with these bytes after them, in
/// which its address is refused or the last byte sent, and returns whether there is one.
pub(crate) fn keep_refused(kept: &mut TransactionSlot, profile: &Profile, bytes: &[u8]) -> bool
    ensures keeps { result ≡ true → IsOfNacked profile.now kept.old.parts bytes.now kept.new.last }
    ensures found { SaysNacked profile.now kept.old.parts bytes.now → result ≡ true }
{
    let before = kept.part_count();
    if before > PARTS {
        return false;
    }
    if let Some(address) = refused_address(bytes) {
        if kept.has_part_at(address) {
            return false;
        }
        kept.end_refused(address, &[], None, false);
        return true;
    }
    let Some(sent) = refused_byte(profile, bytes, before) else {
        return false;
    };
    if kept.has_part_at(sent.address) {
        return false;
    }
    kept.end_refused(sent.address, sent.bytes, None, false);
    true
}
