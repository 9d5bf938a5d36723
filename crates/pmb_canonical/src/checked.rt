//! Data in a form, and the packet error code after them.
//!
//! Its rows: `tests_reader`, `src/canonical/rows.rt` and `compared.rt`.

ghost use Rattle.std.specs.Prelude.{◌≡◌, ◌≤◌, Bool, IfSome, IsSome, List, Some, ℕ, length, drop, take};
ghost use Rattle.pmb_command.specs.PecMode.{AllowsPec};
ghost use Rattle.pmb_command.specs.Wire.{Fits, wire};
ghost use Rattle.pmb_transaction.specs.Body.{checked};
ghost use Rattle.pmb_canonical.specs.Codes.{code_behind};

use pmb_bus::pec_of;
use pmb_command::{Form, PecMode};

/// Data, and whether a packet error code follows them.
#[derive(Clone, Copy)]
pub(crate) struct Data<'b> {
    pub(crate) bytes: &'b [u8],
    pub(crate) pec: bool,
}

/// Whether the packet error code of some bytes follows them; `None` where something else does.
#[inline(always)]
pub(crate) fn has_code(bytes: &[u8], behind: &[u8]) -> Option<bool>
    ensures says { IfSome result (λ pec. behind.now ≡ code_behind pec bytes.now) }
    ensures found { (pec : Bool) → behind.now ≡ code_behind pec bytes.now → result ≡ Some pec }
{
    match behind {
        [] => Some(false),
        [code] => {
            if *code == pec_of(bytes) {
                Some(true)
            } else {
                None
            }
        }
        _ => None,
    }
}

/// The data in a form whose wire these bytes are.
pub(crate) fn whole_data(form: Form, bytes: &[u8]) -> Option<&[u8]>
    ensures says { IfSome result (λ found. Fits form found.now × (bytes.now ≡ wire form found.now)) }
    ensures found { (data_bytes : List ℕ) → Fits form data_bytes → bytes.now ≡ wire form data_bytes → IsSome result }
{
    if form.wire_length(bytes) != bytes.len() {
        return None;
    }
    Some(form.data_within(bytes))
}

/// The data that stand in a packet's bytes from an index on, in a form, up to the end or up to a
/// packet error code that is right and that the mode allows.
#[inline(always)]
pub(crate) fn data_from(form: Form, mode: PecMode, bytes: &[u8], from: usize) -> Option<Data<'_>>
    requires { from ≤ length bytes.now }
    ensures says { IfSome result (λ found. Fits form found.bytes.now × AllowsPec mode found.pec
        × (drop from bytes.now ≡ checked found.pec (take from bytes.now) (wire form found.bytes.now))) }
    ensures found { (data_bytes : List ℕ) (pec : Bool) → Fits form data_bytes → AllowsPec mode pec
        → drop from bytes.now ≡ checked pec (take from bytes.now) (wire form data_bytes) → IsSome result }
{
    let behind = &bytes[from..];
    let len = form.wire_length(behind);
    if len > behind.len() {
        return None;
    }
    let pec = has_code(&bytes[..from + len], &behind[len..])?;
    if !mode.allows(pec) {
        return None;
    }
    Some(Data {
        bytes: form.data_within(&behind[..len]),
        pec,
    })
}
