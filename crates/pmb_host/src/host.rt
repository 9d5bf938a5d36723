//! The host.
//!
//! [`HostPhase`] says what comes next, and `leg` and `place` where in the transaction that is: each
//! byte is found by its place, so that nothing of the transaction is copied. After the legs the
//! bytes of the reply are kept as they come.
//!
//! Its rows: `tests_host`, `src/host/ends.rt`, `src/host/random.rt`; `tests/rows/requests.txt`.

mod end;
mod legs;
mod replies;
mod requests;

ghost use Rattle.std.specs.Prelude.{◌≡◌, ℕ, [], IfOk, IfErr, ◌↔◌, IsOk};
ghost use Rattle.pmb_request.specs.Request.{RequestData, request_data};
ghost use Rattle.pmb_host.specs.declared.step.HostFault.{HostFault};
ghost use Rattle.pmb_host.specs.Rules.{IsAllowed, IsFault};
ghost use Rattle.pmb_host.specs.Task.{task_of};
ghost use Rattle.pmb_host.specs.Signals.{reply_form, reply_has_pec};
ghost use Rattle.pmb_transaction.specs.Transaction.{transaction_data};
ghost use Rattle.pmb_host.specs.Host.{HostStanding, HostStandsAt, IsNewHost, Steps};
ghost use Rattle.pmb_host.specs.machine.Standing.{IsIncoming};

use crate::reply::Incoming;
use crate::step::{HostFault, HostStep};
use pmb_command::Form;
use pmb_device::DeviceSignal;
use pmb_request::Request;
use pmb_table::Profile;
use pmb_table::laws::accepted_bus;
use pmb_transaction::Transaction;
use pmb_value::NumberFormat;

/// What a host does next.
#[derive(Clone, Copy, Debug, PartialEq, Eq)]
enum HostPhase {
    /// It begins a leg.
    Start,
    /// It sends the leg's first byte.
    Address,
    /// A byte was sent, and its answer decides.
    Byte,
    /// It asks for a byte.
    Ask,
    /// It asked for a byte, and the answer decides.
    Given,
    /// It sends STOP.
    Stop,
    /// It tells how it ended.
    End,
}

/// A host with one request.
#[derive(Drop)]
pub struct Host<'p> {
    profile: &'p Profile,
    /// What it was asked for; its reply stays empty.
    transaction: Transaction,
    /// The reply, where it reads one.
    reply: Option<Incoming>,
    /// The format in which the reply is told as a quantity.
    number: Option<NumberFormat>,
    phase: HostPhase,
    /// How many legs have begun.
    leg: u8,
    /// How many bytes of the leg under way were sent.
    place: u16,
    /// The form of the data in it.
    form: Option<Form>,
    /// The packet error code of the bytes that one would cover.
    crc: u8,
    /// Why it failed, where it did.
    fault: Option<HostFault>,
}

impl<'p> Host<'p> {
    /// A host that will do what the request asks for, or the first fault of the request.
    ///
    /// A write, a read or a call is `Invalid` for the reasons of [`pmb_writer::check`], in its
    /// order. To set or get a quantity the device and the command have to be known, and data of the
    /// command have to be written or read; then they have to be a number (`NotAQuantity`), the
    /// packet error code allowed, the mode of an output voltage known (`ModeUnknown`) and of a
    /// known format (`Mode`), and the quantity in range.
    pub fn new(profile: &'p Profile, request: Request) -> Result<Host<'p>, HostFault>
        ensures made { IfOk result (IsNewHost profile.now (request_data request)) }
        ensures first { IfErr result (IsFault profile.now (request_data request)) }
        ensures exact { IsOk result ↔ ((fault : HostFault) → IsFault profile.now (request_data request) fault → ⊥) }
    {
        accepted_bus(profile);
        match request {
            Request::Write { parts } => Host::writer(profile, parts),
            Request::Read { addr, code, pec } => Host::reader(profile, addr, code, pec),
            Request::Call {
                addr,
                code,
                bytes,
                pec,
            } => Host::caller(profile, addr, code, bytes, pec),
            Request::Set {
                addr,
                code,
                value,
                mode,
                pec,
            } => Host::setter(profile, addr, code, &value, mode, pec),
            Request::Get {
                addr,
                code,
                mode,
                pec,
            } => Host::getter(profile, addr, code, mode, pec),
        }
    }

    /// A host before its first signal.
    fn of(
        profile: &'p Profile,
        transaction: Transaction,
        reply: Option<Incoming>,
        number: Option<NumberFormat>,
    ) -> Host<'p>
        ensures { (request : RequestData) (word : ℕ) → IsAllowed profile.now request word number → transaction_data transaction ≡ task_of request word
            → IsIncoming reply (reply_form profile.now (task_of request word)) (reply_has_pec (task_of request word)) [] → IsNewHost profile.now request result }
    {
        accepted_bus(profile);
        Host {
            profile,
            transaction,
            reply,
            number,
            phase: HostPhase::Start,
            leg: 0,
            place: 0,
            form: None,
            crc: 0,
            fault: None,
        }
    }

    /// The next step, where `answer` is the device's answer to the signal before: it counts where
    /// that was a byte or an Ask. There are at most 4,161 signals, the last of them STOP. After it
    /// the end is told, again and again.
    pub fn next(&mut self, answer: DeviceSignal) -> HostStep
        ensures { (standing : HostStanding) → HostStandsAt self.old standing → Steps standing answer result self.new }
    {
        match self.phase {
            HostPhase::Start => self.start(),
            HostPhase::Address => self.go_on(),
            HostPhase::Byte => self.heard_of_byte(answer),
            HostPhase::Ask => self.ask(),
            HostPhase::Given => self.heard_of_ask(answer),
            HostPhase::Stop => self.stop(),
            HostPhase::End => self.end(),
        }
    }
}
