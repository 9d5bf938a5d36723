//! What is kept of a spot.
//!
//! Its rows: `tests/rows/stats.txt`.

ghost use Rattle.std.specs.Prelude.{◌≡◌, ◌++◌, IfOk, IfSome, List, length, option_map};
ghost use Rattle.pmb_mean.specs.Numbers.{NumberData};
ghost use Rattle.pmb_mean.specs.machine.History.{HistoryStandsAt};
ghost use Rattle.pmb_stats_bits.specs.Bits.{RegisterRead};
ghost use Rattle.pmb_stats_room.specs.machine.Sights.{IsShort, numbers_in, reads_in};
ghost use Rattle.pmb_stats_room.specs.machine.Slots.{HasSeen, HaveRead, IsFresh, bits_of, kept_as, kind_of, numbers_of};

use crate::register::Register;
use crate::sight::Sight;
use pmb_command::Kind;
use pmb_mean::NumberHistory;
use pmb_stats_bits::BitHistory;
use std::alloc::{AllocError, Global};

/// What is kept of a spot.
#[derive(Drop)]
pub(crate) enum Slot {
    /// Of a status register, the histories of its bits.
    Bits(Register),
    /// Of a command that has numbers, their history.
    Values(NumberHistory),
}

/// Which of the two.
#[derive(Clone, Copy)]
pub(crate) enum SlotKind {
    OfBits,
    OfValues,
}

/// What is kept of a command of a kind, if anything is.
pub(crate) fn kept_as(kind: Kind) -> Option<SlotKind>
    ensures { result ≡ kept_as kind }
{
    match kind {
        Kind::Raw | Kind::Text => None,
        Kind::Number(_) | Kind::Vout | Kind::VoutSigned => Some(SlotKind::OfValues),
        Kind::Status => Some(SlotKind::OfBits),
    }
}

/// Hands what is seen to the histories of a register's bits; a number is nothing to them.
fn see_bits(register: &mut Register, sight: Sight<'_>)
    requires { IsShort sight }
    ensures { (reads : List RegisterRead) → HaveRead register.old reads
        → HaveRead register.new (reads ++ reads_in sight.entry) }
{
    match sight {
        Sight::Read(word, time) => register.see(word, time),
        Sight::Number(_) => {}
    }
}

/// Hands what is seen to the history of numbers; a read of a register is nothing to it.
fn see_value(history: &mut NumberHistory, sight: Sight<'_>)
    ensures { (numbers : List NumberData) → HistoryStandsAt history.old numbers
        → HistoryStandsAt history.new (numbers ++ numbers_in sight.entry) }
{
    match sight {
        Sight::Read(..) => {}
        Sight::Number(number) => history.see(number),
    }
}

impl Slot {
    /// Nothing was seen.
    pub(crate) fn new(alloc: Global, kind: SlotKind) -> Result<Slot, AllocError>
        ensures { IfOk result (IsFresh kind) }
    {
        match kind {
            SlotKind::OfBits => Ok(Slot::Bits(Register::new(alloc)?)),
            SlotKind::OfValues => Ok(Slot::Values(NumberHistory::new())),
        }
    }

    /// Takes what is seen.
    pub(crate) fn see(&mut self, sight: Sight<'_>)
        requires { IsShort sight }
        ensures kind { kind_of self.new ≡ kind_of self.old }
        ensures seen { (reads : List RegisterRead) (numbers : List NumberData) → HasSeen self.old reads numbers
            → HasSeen self.new (reads ++ reads_in sight.entry) (numbers ++ numbers_in sight.entry) }
    {
        match self {
            Slot::Bits(register) => see_bits(register, sight),
            Slot::Values(history) => see_value(history, sight),
        }
    }

    /// The histories of the bits, of a status register.
    pub(crate) fn bits(&self) -> Option<&[BitHistory]>
        ensures bits { option_map (λ bits. bits.now) result ≡ bits_of self.now }
        ensures sixteen { IfSome result (λ bits. length bits.now ≡ 16) }
    {
        match self {
            Slot::Bits(register) => Some(register.bits()),
            Slot::Values(_) => None,
        }
    }

    /// The history of the numbers, of a command that has them.
    pub(crate) fn numbers(&self) -> Option<&NumberHistory>
        ensures { option_map (λ history. history.now) result ≡ numbers_of self.now }
    {
        match self {
            Slot::Bits(_) => None,
            Slot::Values(history) => Some(history),
        }
    }
}
