//! From the text of a capture to what comes of it.
//!
//! Most events complete nothing. What is done for a packet or a refusal is in functions of its own
//! that are not inlined, so that no other event pays for it. In each turn `take_words` takes a
//! whole canonical packet, where one lies in front, or the separators and comments there, or a byte and
//! its ACK, or one word.
//!
//! Its rows: `tests_reader`, `src/scan/scans.rt`; `tests/rows/captures.txt`.

ghost use Rattle.std.specs.Prelude.{◌≡◌, ◌++◌, ◌∷◌, [], ◌≤◌, ◌<◌, ℕ, List, None, OnOk, IfOk, IfSome, length, drop, take};
ghost use Rattle.pmb_bus.specs.declared.event.Event.{Event as BusEvent};
ghost use Rattle.pmb_bus.specs.Text.{EndsBetween, Spells};
ghost use Rattle.pmb_bus.specs.declared.event.Event.TheVariants.{Ack, Byte};
ghost use Rattle.pmb_io.specs.Calls.{WriterTells};
ghost use Rattle.pmb_io.specs.Engines.{PutsOut};
ghost use Rattle.pmb_reader.specs.Reader.{Open, last_read};
ghost use Rattle.pmb_reader.specs.Refusal.{refusal_data};
ghost use Rattle.pmb_scan.specs.Reached.{Reached, IsWhole, at_start, behind_bytes, behind_packet, behind_refusal, behind_whole};
ghost use Rattle.pmb_scan.specs.Scan.{HasRead, ScanStandsAt, TakesEnd, TakesEvent, TakesPiece, Truncates};
ghost use Rattle.pmb_scan.specs.machine.Whole.{TakesWhole};
ghost use Rattle.pmb_transaction.specs.Packet.{Packet};
ghost use Rattle.pmb_transaction.specs.Reading.{RefusedAt};

use crate::blank::{begins_blank, front_blank};
use crate::reported::report;
use crate::visitor::Visitor;
use pmb_bus::{Event, LexFault, Lexer, Step};
use pmb_canonical::laws::canonical_packets_are_read;
use pmb_canonical::{CanonicalReader, TakenPacket as Whole};
use pmb_io::{RunFault, Sink, Waiting};
use pmb_reader::{Reader, Refusal, Took};
use pmb_table::Profile;
use pmb_table::laws::accepted_bus;

/// How far a piece of a text was taken.
#[derive(Clone, Copy, Debug, PartialEq, Eq)]
pub enum PieceEnd {
    /// All of it is used.
    All,
    /// A word is no token. `used` bytes of the piece are used: no valid text has the next byte
    /// there.
    Fault { used: usize, fault: LexFault },
}

/// Scans the text of a capture, in pieces of any size.
#[derive(Drop)]
pub struct Scan<'p> {
    lexer: Lexer,
    reader: Reader<'p>,
    canonical: CanonicalReader,
}

impl<'p> Scan<'p> {
    /// A scan at the start of a text. To begin anew after a word that is no token is to make a new
    /// one: it counts bytes and events from 0.
    pub fn new(profile: &'p Profile) -> Scan<'p>
        ensures { ScanStandsAt result (at_start profile.now) }
    {
        Scan {
            lexer: Lexer::new(),
            reader: Reader::new(profile),
            canonical: CanonicalReader::new(),
        }
    }

    /// Takes the words of the next piece of the text, and tells a visitor what comes of them, up to
    /// a word that is no token.
    ///
    /// A packet that is unfinished at a fault is not reported. After a fault, begin a new scan: the
    /// behaviour of this one is unspecified.
    ///
    /// # Errors
    ///
    /// `Write` where the writer failed.
    pub fn take_words<V: Visitor, W: Sink>(
        &mut self,
        piece: &[u8],
        visitor: &mut V,
        waiting: &mut Waiting,
        writer: &mut W,
    ) -> Result<PieceEnd, RunFault>
        ensures takes { (start : V) (reached : Reached) (text : List ℕ) → ScanStandsAt self.old reached → V.Stands start visitor.old reached text
            → IfOk result (λ taken. PutsOut (λ more. TakesPiece (V.Stands start visitor.new) reached piece.now taken self.new (text ++ more))
            (W.told writer.old).held waiting.old.items (W.told writer.new).held waiting.new.items) }
        ensures failed { WriterTells (W.told writer.old) (W.told writer.new) result }
    {
        let mut rest = piece;
        'packets: loop {
            if let Some(whole) = self.take_whole(rest) {
                self.visit_whole(&rest[..whole.used], whole.events, visitor, waiting, writer)?;
                rest = &rest[whole.used..];
                continue;
            }
            let blank = self.pass_blank(rest);
            if blank > 0 {
                visitor.visit_bytes(&rest[..blank]);
                rest = &rest[blank..];
                continue;
            }
            // What comes up to the next STOP is taken word by word.
            'words: loop {
                match self.lexer.feed_acked(rest) {
                    Some(byte) => {
                        visitor.visit_bytes(&rest[..3]);
                        self.take_event(Event::Byte(byte), visitor, waiting, writer)?;
                        visitor.visit_bytes(&rest[3..5]);
                        self.take_event(Event::Ack, visitor, waiting, writer)?;
                        rest = &rest[5..];
                    }
                    None => {
                        let lexed = self.lexer.feed(rest);
                        visitor.visit_bytes(&rest[..lexed.used]);
                        match lexed.step {
                            Step::Need => return Ok(PieceEnd::All),
                            Step::Event(event) => {
                                self.take_event(event, visitor, waiting, writer)?;
                                rest = &rest[lexed.used..];
                                if let Event::Stop = event {
                                    break;
                                }
                            }
                            Step::Fault(fault) => {
                                return Ok(PieceEnd::Fault {
                                    used: piece.len() - rest.len() + lexed.used,
                                    fault,
                                });
                            }
                        }
                    }
                }
            }
        }
    }

    /// Takes the canonical packet at the front of a piece at once, between two packets and two words.
    /// It returns `None` where no such packet lies whole in front, and then all stands where it
    /// stood.
    #[inline(always)]
    fn take_whole(&mut self, piece: &[u8]) -> Option<Whole>
        ensures takes { (reached : Reached) → ScanStandsAt self.old reached
            → IfSome result (λ whole. TakesWhole reached piece.now whole.used whole.events self.new) }
        ensures within { IfSome result (λ whole. whole.used ≤ length piece.now) }
        ensures some { IfSome result (λ whole. 0 < whole.used) }
        ensures same { (reached : Reached) → ScanStandsAt self.old reached → result ≡ None → ScanStandsAt self.new reached }
    {
        canonical_packets_are_read();
        if !begins_packet(piece) {
            return None;
        }
        if !self.lexer.is_between() || !self.reader.is_between() {
            return None;
        }
        accepted_bus(self.reader.profile());
        let whole = self.reader.take_canonical(&mut self.canonical, piece)?;
        self.lexer.skip(&piece[..whole.used]);
        Some(whole)
    }

    /// Passes over separators and comments at the front of a piece, between two words, so that a
    /// packet after them can be taken at once. It returns how many bytes they are.
    #[inline(always)]
    fn pass_blank(&mut self, piece: &[u8]) -> usize
        ensures stands { (reached : Reached) → ScanStandsAt self.old reached → ScanStandsAt self.new (behind_bytes reached (take result piece.now)) }
        ensures within { result ≤ length piece.now }
    {
        if !begins_blank(piece) {
            return 0;
        }
        if !self.lexer.is_between() {
            return 0;
        }
        let blank = front_blank(piece);
        self.lexer.skip(&piece[..blank]);
        blank
    }

    /// Takes the end of the text, which ends a word under way, and answers the fault of one that is
    /// no token.
    ///
    /// # Errors
    ///
    /// `Write` where the writer failed.
    pub fn take_end<V: Visitor, W: Sink>(
        &mut self,
        visitor: &mut V,
        waiting: &mut Waiting,
        writer: &mut W,
    ) -> Result<Option<LexFault>, RunFault>
        ensures takes { (start : V) (reached : Reached) (text : List ℕ) → ScanStandsAt self.old reached → V.Stands start visitor.old reached text
            → IfOk result (λ end. PutsOut (λ more. TakesEnd (V.Stands start visitor.new) reached end self.new (text ++ more))
            (W.told writer.old).held waiting.old.items (W.told writer.new).held waiting.new.items) }
        ensures failed { WriterTells (W.told writer.old) (W.told writer.new) result }
    {
        match self.lexer.finish() {
            Err(fault) => Ok(Some(fault)),
            Ok(None) => Ok(None),
            Ok(Some(event)) => {
                self.take_event(event, visitor, waiting, writer)?;
                Ok(None)
            }
        }
    }

    /// What the events come to if none follows: the refusal of an end inside a packet, where one is
    /// under way. Nothing changes.
    pub fn truncation(&self) -> Option<Refusal>
        ensures ends { (reached : Reached) → HasRead self.now reached → Truncates reached result }
        ensures none { (reached : Reached) (n : ℕ) (front : List BusEvent) → HasRead self.now reached → reached.standing ≡ Open n front
            → result ≡ None → front ≡ [] }
    {
        self.reader.finish().err()
    }

    /// Takes an event, and tells a visitor what it comes to.
    #[inline(always)]
    fn take_event<V: Visitor, W: Sink>(
        &mut self,
        event: Event,
        visitor: &mut V,
        waiting: &mut Waiting,
        writer: &mut W,
    ) -> Result<(), RunFault>
        ensures lexer { self.new.lexer ≡ self.old.lexer }
        ensures takes { (start : V) (reached : Reached) (text : List ℕ) → HasRead self.old reached → V.Stands start visitor.old reached text → Spells reached.text (reached.events ++ event ∷ [])
            → OnOk result (PutsOut (λ more. TakesEvent (V.Stands start visitor.new) reached event self.new (text ++ more))
            (W.told writer.old).held waiting.old.items (W.told writer.new).held waiting.new.items) }
        ensures failed { WriterTells (W.told writer.old) (W.told writer.new) result }
    {
        match report(&mut self.reader, event) {
            Took::Continues => visitor.visit_event(event, waiting, writer),
            Took::Packet => self.visit_packet(visitor, waiting, writer),
            Took::Refused(refusal) => visit_refusal(event, refusal, visitor, waiting, writer),
        }
    }

    /// Tells a visitor of the packet that was taken at once last.
    #[inline(always)]
    fn visit_whole<V: Visitor, W: Sink>(
        &self,
        bytes: &[u8],
        count: usize,
        visitor: &mut V,
        waiting: &mut Waiting,
        writer: &mut W,
    ) -> Result<(), RunFault>
        ensures visits { (start : V) (reached : Reached) (text : List ℕ) (n : ℕ) (events : List BusEvent) → V.Stands start visitor.old reached text
            → EndsBetween reached.text → Spells reached.text reached.events → reached.standing ≡ Open n []
            → IsWhole reached.profile (last_read self.now.reader) events bytes.now → count ≡ length events
            → OnOk result (PutsOut (λ more. V.Stands start visitor.new (behind_whole reached n bytes.now events (last_read self.now.reader)) (text ++ more))
            (W.told writer.old).held waiting.old.items (W.told writer.new).held waiting.new.items) }
        ensures failed { WriterTells (W.told writer.old) (W.told writer.new) result }
    {
        visitor.visit_whole(bytes, count, self.reader.packet(), waiting, writer)
    }

    /// Tells a visitor of the packet that ended last.
    #[inline(never)]
    fn visit_packet<V: Visitor, W: Sink>(
        &self,
        visitor: &mut V,
        waiting: &mut Waiting,
        writer: &mut W,
    ) -> Result<(), RunFault>
        ensures visits { (start : V) (reached : Reached) (text : List ℕ) (n : ℕ) (front : List BusEvent) (event : BusEvent) → V.Stands start visitor.old reached text
            → Spells reached.text (reached.events ++ event ∷ []) → reached.standing ≡ Open n front → Packet reached.profile (last_read self.now.reader) (front ++ event ∷ [])
            → OnOk result (PutsOut (λ more. V.Stands start visitor.new (behind_packet reached n front event (last_read self.now.reader)) (text ++ more))
            (W.told writer.old).held waiting.old.items (W.told writer.new).held waiting.new.items) }
        ensures failed { WriterTells (W.told writer.old) (W.told writer.new) result }
    {
        visitor.visit_packet(self.reader.packet(), waiting, writer)
    }
}

/// Whether a piece begins as a canonical packet does: with START, an address byte that has ACK and a
/// byte with its answer, or an address byte that has NACK. Most begin with two bytes that have ACK.
#[inline(always)]
fn begins_packet(piece: &[u8]) -> bool {
    match piece {
        [b'S', _, _, _, _, b'A', _, _, _, _, b'A', ..] => true,
        _ => begins_refused(piece),
    }
}

/// Whether a piece begins with START and a leg of one byte or two, the last of which has NACK.
#[inline(never)]
fn begins_refused(piece: &[u8]) -> bool {
    match piece {
        [b'S', _, _, _, _, b'N', ..] | [b'S', _, _, _, _, b'A', _, _, _, _, b'N', ..] => true,
        _ => false,
    }
}

/// Tells a visitor of a refusal.
#[inline(never)]
fn visit_refusal<V: Visitor, W: Sink>(
    event: Event,
    refusal: Refusal,
    visitor: &mut V,
    waiting: &mut Waiting,
    writer: &mut W,
) -> Result<(), RunFault>
    ensures visits { (start : V) (reached : Reached) (text : List ℕ) (n : ℕ) (front : List BusEvent) → V.Stands start visitor.old reached text
        → Spells reached.text (reached.events ++ event ∷ []) → reached.standing ≡ Open n front → RefusedAt reached.profile n front event (refusal_data refusal)
        → OnOk result (PutsOut (λ more. V.Stands start visitor.new (behind_refusal reached n front event (refusal_data refusal)) (text ++ more))
        (W.told writer.old).held waiting.old.items (W.told writer.new).held waiting.new.items) }
    ensures failed { WriterTells (W.told writer.old) (W.told writer.new) result }
{
    visitor.visit_refusal(event, refusal, waiting, writer)
}
