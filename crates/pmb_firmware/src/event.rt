//! The events of a capture's text.

ghost use Rattle.std.specs.Prelude.{◌≡◌, ◌⊎◌, ◌≤◌, ℕ, List, length};
ghost use Rattle.pmb_bus.specs.declared.event.Event.{Event as BusEvent};
ghost use Rattle.pmb_bus.specs.declared.lexer.LexFault.{LexFault};
ghost use Rattle.pmb_firmware.specs.Event.{Ends, Lexes, StaysFaulted, TellsStep, event_numbers};
ghost use Rattle.pmb_firmware.specs.CallStatus.{number_of};
ghost use Rattle.pmb_firmware.specs.Lexer.{IsFaulted, StandsAt, StandsSomewhere};

use crate::call_status::CallStatus;
use crate::lexer::PmbLexer;
use pmb_bus::{Event, Step};

/// An event of a bus.
#[repr(C)]
#[derive(Clone, Copy)]
pub struct PmbEvent {
    /// 0 for START, 1 for a byte, 2 for ACK, 3 for NACK, 4 for STOP.
    pub kind: u8,
    /// The byte; 0 for another event.
    pub byte: u8,
}

impl PmbEvent {
    /// An event's two numbers.
    fn of(event: Event) -> PmbEvent
        ensures { result ≡ event_numbers event }
    {
        let (kind, byte) = match event {
            Event::Start => (0, 0),
            Event::Byte(byte) => (1, byte),
            Event::Ack => (2, 0),
            Event::Nack => (3, 0),
            Event::Stop => (4, 0),
        };
        PmbEvent { kind, byte }
    }
}

/// Takes the next piece of a capture's text, up to the end of its next event, or whole.
///
/// `used` is told how many bytes of the piece were used: those after are to be given again. The
/// status is that all is used and no event has ended; or that a word is no token, which begins at
/// the lexer's `at`, and then every such call says so again and uses nothing. Then the event stays
/// as it was. So it is with numbers that a lexer has at no text.
pub fn lex(lexer: &mut PmbLexer, piece: &[u8], used: &mut usize, event: &mut PmbEvent) -> i32
    ensures stands { (n : ℕ) (text : List ℕ) (events : List BusEvent) → StandsAt lexer.old n text events
        → Lexes n text events piece.now used.new lexer.new event.old result event.new }
    ensures faulted { (fault : LexFault) → IsFaulted lexer.old fault
        → StaysFaulted lexer.old lexer.new event.old result event.new × (used.new ≡ 0) }
    ensures any { StandsSomewhere lexer.old
        ⊎ (StaysFaulted lexer.old lexer.new event.old result event.new × (used.new ≡ 0)) }
    ensures within { used.new ≤ length piece.now }
{
    let lexed = lexer.feed(piece);
    *used = lexed.used;
    tell(lexed.step, event)
}

/// Reports the result of a piece.
fn tell(step: Step, event: &mut PmbEvent) -> i32
    ensures { TellsStep step event.old result event.new }
{
    match step {
        Step::Event(found) => {
            *event = PmbEvent::of(found);
            CallStatus::Done.number()
        }
        Step::Need => CallStatus::NoEvent.number(),
        Step::Fault(_) => CallStatus::BadToken.number(),
    }
}

/// Takes the end of a capture's text: it ends the word under way as a separator would.
///
/// The status is that no word was under way; or that a word is no token, which begins at the
/// lexer's `at`. Then the event stays as it was.
pub fn lex_end(lexer: &mut PmbLexer, event: &mut PmbEvent) -> i32
    ensures stands { (n : ℕ) (text : List ℕ) (events : List BusEvent) → StandsAt lexer.old n text events
        → Ends n text events lexer.new event.old result event.new }
    ensures faulted { (fault : LexFault) → IsFaulted lexer.old fault
        → StaysFaulted lexer.old lexer.new event.old result event.new }
    ensures any { StandsSomewhere lexer.old ⊎ StaysFaulted lexer.old lexer.new event.old result event.new }
{
    match lexer.finish() {
        Ok(Some(found)) => {
            *event = PmbEvent::of(found);
            CallStatus::Done.number()
        }
        Ok(None) => CallStatus::NoEvent.number(),
        Err(_) => CallStatus::BadToken.number(),
    }
}
