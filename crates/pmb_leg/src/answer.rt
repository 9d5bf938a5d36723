//! What a device answers, byte by byte.
//!
//! An answer is data in a form and the packet error code where the mode allows one. Which bytes may
//! come follows from what is `left` and from the code so far; the bytes are kept for the reply.
//!
//! Its rows: `tests_packets`, `src/legs/answers.rt`.

ghost use Rattle.std.specs.Prelude.{◌≡◌, ◌↔◌, [], ◌∷◌, ◌++◌, IsTrue, IsSome, IfSome, List, Bool, ℕ};
ghost use Rattle.pmb_bus.specs.Pec.{pec};
ghost use Rattle.pmb_transaction.specs.Following.{BeginsAnswer, IsInsideAnswer, IsAlertAnswer};
ghost use Rattle.pmb_leg.specs.Reply.{IsReply, SaysAlert, SaysReply};

use crate::content::ReplyContent;
use crate::left::{DataLeft, data_within};
use arrayvec::ArrayVec;
use pmb_bus::laws::{pec_is_all_that_counts, worked_pecs};
use pmb_bus::{ALERT_ADDRESS, pec_next, read_address};
use pmb_command::{Form, PecMode};
use std::marker::Model;

/// An answer under way: what a device replies to a read or a call, or at the Alert Response
/// Address.
#[derive(Clone, Debug, Drop)]
pub struct Answer {
    /// The form of the reply.
    form: Form,
    /// Whether a packet error code follows it.
    mode: PecMode,
    /// The packet error code of the bytes before the answer.
    code: u8,
    /// What is left of the answer.
    left: DataLeft,
    /// The packet error code of all bytes so far.
    crc: u8,
    /// The bytes of the answer so far: the count of a block, the data, a packet error code.
    bytes: ArrayVec<u8, 257>,
}

impl Model for Answer {
    ghost use Rattle.pmb_leg.specs.Reply.{Answered};

    ghost Value = { Answered };

    ghost use Rattle.pmb_leg.specs.machine.Answers.{answered_so_far, IsAnswered};

    ghost view = { answered_so_far };

    ghost invariant = { IsAnswered };
}

impl Answer {
    /// The answer at the Alert Response Address, of which nothing was read: a byte, and a packet
    /// error code or none (SMBus 3.0 appendix A).
    pub fn at_alert() -> Self
        ensures fresh { result.bytes ≡ [] }
        ensures answers { (all : List ℕ) → (IsReply result.expected all ↔ IsAlertAnswer all) }
        ensures says { (reply : List ℕ) (with_pec : Bool) (all : List ℕ) → (SaysReply result.expected reply with_pec all ↔ SaysAlert reply with_pec all) }
    {
        worked_pecs();
        pec_is_all_that_counts();
        let code = pec_next(0, read_address(ALERT_ADDRESS));
        Answer {
            form: Form::One,
            mode: PecMode::Optional,
            code,
            left: DataLeft::start(Some(Form::One), PecMode::Optional),
            crc: code,
            bytes: ArrayVec::new(),
        }
    }

    /// Begins the answer at the Alert Response Address in place of this one.
    pub fn restart_at_alert(&mut self)
        ensures fresh { self.new.bytes ≡ [] }
        ensures answers { (all : List ℕ) → (IsReply self.new.expected all ↔ IsAlertAnswer all) }
        ensures says { (reply : List ℕ) (with_pec : Bool) (all : List ℕ) → (SaysReply self.new.expected reply with_pec all ↔ SaysAlert reply with_pec all) }
    {
        worked_pecs();
        pec_is_all_that_counts();
        self.restart(
            Form::One,
            PecMode::Optional,
            pec_next(0, read_address(ALERT_ADDRESS)),
        );
    }

    /// Begins an answer in a form in place of this one, where the bytes before it have the code.
    pub(crate) fn restart(&mut self, form: Form, mode: PecMode, code: u8)
        requires { (before : List ℕ) × (pec before ≡ code) }
        ensures { self.new ≡ record { expected = record { form = form; mode = mode; code = code }; bytes = [] } }
    {
        pec_is_all_that_counts();
        self.form = form;
        self.mode = mode;
        self.code = code;
        self.left = DataLeft::start(Some(form), mode);
        self.crc = code;
        self.bytes.clear();
    }

    /// Whether the bytes so far and one more begin an answer.
    #[inline(always)]
    pub fn begins(&self, byte: u8) -> bool
        ensures { IsTrue result ↔ BeginsAnswer (IsReply self.now.expected) (self.now.bytes ++ byte ∷ []) }
    {
        self.left.takes(self.crc, byte)
    }

    /// Takes one more byte of an answer.
    #[inline(always)]
    pub fn take(&mut self, byte: u8)
        requires { BeginsAnswer (IsReply self.old.expected) (self.old.bytes ++ byte ∷ []) }
        ensures { self.new ≡ record self.old { bytes = self.old.bytes ++ byte ∷ [] } }
    {
        self.left = self.left.after(self.mode, self.crc, byte);
        self.crc = pec_next(self.crc, byte);
        self.bytes.push(byte);
    }

    /// Whether an answer begins with the bytes so far and continues, so that one more byte may
    /// come, and the last one is to be acknowledged.
    #[inline(always)]
    pub fn goes_on(&self) -> bool
        ensures { IsTrue result ↔ IsInsideAnswer (IsReply self.now.expected) self.now.bytes }
    {
        self.left.goes_on()
    }

    /// Whether the bytes so far are an answer.
    #[inline]
    pub fn is_whole(&self) -> bool
        ensures { IsTrue result ↔ IsReply self.now.expected self.now.bytes }
    {
        self.left.is_whole(self.mode)
    }

    /// What the bytes so far say, where they are an answer.
    pub fn reply(&self) -> Option<ReplyContent<'_>>
        ensures some { IsSome result ↔ IsReply self.now.expected self.now.bytes }
        ensures says { IfSome result (λ reply. SaysReply self.now.expected reply.bytes.now reply.pec self.now.bytes) }
    {
        if self.is_whole() {
            let pec = self.left.has_code(self.mode);
            let bytes = data_within(self.form, pec, self.bytes.as_slice());
            Some(ReplyContent { bytes, pec })
        } else {
            None
        }
    }
}
