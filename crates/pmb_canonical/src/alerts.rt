//! What is said at the Alert Response Address.
//!
//! Its rows: `tests_reader`, `src/canonical/rows.rt` and `compared.rt`.

ghost use Rattle.std.specs.Prelude.{◌≡◌, true};
ghost use Rattle.pmb_transaction.specs.Transaction.{TransactionData};
ghost use Rattle.pmb_canonical.specs.Alerts.{SaysAlert};

use crate::checked::has_code;
use pmb_bus::{ALERT_ADDRESS, read_address};
use pmb_transaction_slot::TransactionSlot;

/// Keeps what a leg of these bytes says at the Alert Response Address, of which the last one has NACK,
/// and returns whether it stands there and says something: a byte, with or without a packet error
/// code, or that no device answers.
pub(crate) fn keep_alert(kept: &mut TransactionSlot, bytes: &[u8]) -> bool
    ensures keeps { result ≡ true → SaysAlert bytes.now kept.new.last }
    ensures found { (t : TransactionData) → SaysAlert bytes.now t → result ≡ true }
{
    let Some((to_read, answered)) = bytes.split_first() else {
        return false;
    };
    if *to_read != read_address(ALERT_ADDRESS) {
        return false;
    }
    let Some((byte, behind)) = answered.split_first() else {
        kept.end_no_alert();
        return true;
    };
    let Some(pec) = has_code(&bytes[..2], behind) else {
        return false;
    };
    kept.end_alert(*byte, pec);
    true
}
