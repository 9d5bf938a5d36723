//! From the text of a capture to the lines of its facts, in pieces.
//!
//! Between two bad words a scan reads on, and the stream is told, which hands each fact to the keeper. A bad word's bytes are taken
//! until 32 have come or it has ended: then its line goes out. What is left of its line is taken
//! and dropped, and a new scan begins after it.
//!
//! Its rows: `tests_tasks`, `src/captures.rt`; `tests/rows/json_objects.txt`, `log.txt`.

ghost use Rattle.std.specs.Prelude.{◌≡◌, ◌⊎◌, ◌≢◌, ◌++◌, ◌∷◌, ◌≤◌, ◌<◌, ℕ, List, [], OnOk, IfOk, length};
ghost use Rattle.pmb_bus.specs.Text.{front_word, open_word};
ghost use Rattle.pmb_command.specs.Bus.{IsBus};
ghost use Rattle.pmb_io.specs.Calls.{WriterTells};
ghost use Rattle.pmb_io.specs.Engines.{PutsOut};
ghost use Rattle.pmb_io.specs.Outgoing.{PutsText};
ghost use Rattle.pmb_telling.specs.Tell.{WritesToldFront};
ghost use Rattle.pmb_telling.specs.declared.engine.EngineState.TheVariants as inside;
ghost use Rattle.pmb_telling.specs.machine.Standing.{HasEnded, HasPutOut, HasStopped, IsLess, StandsBehindBadWord, StandsInBadLine, StandsInBadWord, StandsInWords, TakesLine, teller_bad_words, teller_choice, teller_profile, teller_tally, last_word_lines, open_word_fact, stops_for_good};
ghost use Rattle.pmb_json_objects.specs.Counts.{after_bad_token};
ghost use Rattle.pmb_fact_stream.specs.Before.{Before, at_first};
ghost use Rattle.pmb_fact_stream.specs.Choice.{choice_data};
ghost use Rattle.pmb_scan.specs.Reached.{at_start};
ghost use Rattle.pmb_scan.specs.Scan.{ScanStandsAt};
ghost use Rattle.pmb_fact_stream.specs.Stream.{KeepsFacts, StreamBegins, StreamKnows, stream_choice, stream_profile, stream_time};

use crate::word_end::{behind, is_over, line_bytes, word_bytes};
use crate::word_laws::bad_words_stand_there;
use pmb_bus::laws::{ended_words_lead_on, spelled_has_no_bad_word, texts_may_be_cut_between_words};
use pmb_fact_stream::laws::{open_times_stay, others_are_told};
use pmb_fact_stream::{Choice, KeptStream, Stream};
use pmb_io::{Engine, Flow, RunFault, Sink, Tally, Waiting};
use pmb_keeper::Keeper;
use pmb_reader::laws::some_packet_is_read;
use pmb_scan::laws::scans_lead_on;
use pmb_scan::{AfterBadToken, PieceEnd, Scan};
use pmb_spans::laws::{each_list_has_spans, one_list_of_spans, spans_move};
use pmb_table::Profile;

/// What the next byte belongs to.
#[derive(Clone, Copy)]
enum EngineState {
    /// Words that may be tokens.
    Words,
    /// A word that is no token, whose line is not out.
    BadWord,
    /// The rest of its line.
    BadLine,
}

/// What is left of a piece after a bad line.
enum PieceRest<'b> {
    /// All of it is used.
    Nothing,
    /// No more is wanted.
    Stop,
    /// After the LF of the line.
    Bytes(&'b [u8]),
}

/// From the text of a capture to the lines of its facts, and to a keeper. (What is short stands behind what
/// is long: with a gap before `scan` the compiler copies it once more on the stack.)
#[derive(Drop)]
pub(crate) struct Teller<'p, K> {
    profile: &'p Profile,
    scan: Scan<'p>,
    kept: KeptStream<'p, K>,
    bad_words: AfterBadToken,
    inside: EngineState,
}

impl<'p, K: Keeper> Teller<'p, K> {
    /// Nothing was given yet.
    pub(crate) fn new(
        profile: &'p Profile,
        choice: Choice<'p>,
        bad_words: AfterBadToken,
        keeper: K,
    ) -> Teller<'p, K>
        ensures profile { teller_profile result ≡ profile.now }
        ensures choice { teller_choice result ≡ choice_data choice.entry }
        ensures bad_words { teller_bad_words result ≡ bad_words }
        ensures keeper { result.kept.keeper ≡ keeper }
        ensures begins { HasPutOut K.Keeps result result [] [] }
    {
        let Choice {
            digits,
            start,
            devices,
            ignored,
            telling,
        } = choice;
        let stream = Stream::new(
            profile,
            Choice {
                digits,
                start,
                devices,
                ignored,
                telling,
            },
        );
        Teller::of(profile, bad_words, Scan::new(profile), stream, keeper)
    }

    /// Of a scan and a stream to which nothing was given yet.
    pub(crate) fn of(
        profile: &'p Profile,
        bad_words: AfterBadToken,
        scan: Scan<'p>,
        stream: Stream<'p>,
        keeper: K,
    ) -> Teller<'p, K>
        requires scan { ScanStandsAt scan (at_start profile.now) }
        requires stream { StreamBegins at_first stream }
        requires same { stream_profile stream ≡ profile.now }
        ensures profile { teller_profile result ≡ profile.now }
        ensures choice { teller_choice result ≡ stream_choice stream.entry }
        ensures bad_words { teller_bad_words result ≡ bad_words }
        ensures keeper { result.kept.keeper ≡ keeper }
        ensures begins { HasPutOut K.Keeps result result [] [] }
    {
        Teller {
            profile,
            scan,
            kept: KeptStream { stream, keeper },
            bad_words,
            inside: EngineState::Words,
        }
    }

    /// How many packets came, and how many refusals and words that are no token.
    pub(crate) fn tally(&self) -> Tally
        ensures { result ≡ teller_tally self.now }
    {
        self.kept.stream.tally()
    }

    /// What is kept of the facts.
    pub(crate) fn into_keeper(self) -> K
        ensures { result ≡ self.entry.kept.keeper }
    {
        self.kept.keeper
    }

    /// Takes bytes up to the end of a bad line.
    fn take_line<'b, W: Sink>(
        &mut self,
        bytes: &'b [u8],
        waiting: &mut Waiting,
        writer: &mut W,
    ) -> Result<PieceRest<'b>, RunFault>
        ensures takes { (start : Teller K) (given text : List ℕ) → HasPutOut K.Keeps start self.old given text
            → IfOk result (λ left. PutsOut (λ more. TakesLine K.Keeps start self.new given bytes.now left (text ++ more))
            (W.told writer.old).held waiting.old.items (W.told writer.new).held waiting.new.items) }
        ensures less { IfOk result (λ left. IsLess left (length bytes.now)) }
        ensures failed { WriterTells (W.told writer.old) (W.told writer.new) result }
    {
        match self.inside {
            EngineState::Words => self.take_words(bytes, waiting, writer),
            EngineState::BadWord => self.take_bad_word(bytes, waiting, writer),
            EngineState::BadLine => Ok(self.drop_line(bytes)),
        }
    }

    /// Takes words up to the first that is no token, and then that one.
    fn take_words<'b, W: Sink>(
        &mut self,
        bytes: &'b [u8],
        waiting: &mut Waiting,
        writer: &mut W,
    ) -> Result<PieceRest<'b>, RunFault>
        ensures takes { (start : Teller K) (given text : List ℕ) → self.old.inside ≡ inside.Words → StandsInWords K.Keeps start self.old given text
            → IfOk result (λ left. PutsOut (λ more. TakesLine K.Keeps start self.new given bytes.now left (text ++ more))
            (W.told writer.old).held waiting.old.items (W.told writer.new).held waiting.new.items) }
        ensures less { IfOk result (λ left. IsLess left (length bytes.now)) }
        ensures failed { WriterTells (W.told writer.old) (W.told writer.new) result }
    {
        match self
            .scan
            .take_words(bytes, &mut self.kept, waiting, writer)?
        {
            PieceEnd::All => Ok(PieceRest::Nothing),
            PieceEnd::Fault { used, .. } => {
                spans_move();
                bad_words_stand_there();
                open_times_stay();
                others_are_told();
                // That the events may end here says which packets and refusals came before.
                let _ = self.scan.truncation();
                self.inside = EngineState::BadWord;
                self.take_bad_word(behind(bytes, used), waiting, writer)
            }
        }
    }

    /// Takes the next bytes of a bad word and its line, up to the end of the line.
    fn take_bad_word<'b, W: Sink>(
        &mut self,
        bytes: &'b [u8],
        waiting: &mut Waiting,
        writer: &mut W,
    ) -> Result<PieceRest<'b>, RunFault>
        ensures takes { (start : Teller K) (given text : List ℕ) → self.old.inside ≡ inside.BadWord → StandsInBadWord K.Keeps bytes.now start self.old given text
            → IfOk result (λ left. PutsOut (λ more. TakesLine K.Keeps start self.new given bytes.now left (text ++ more))
            (W.told writer.old).held waiting.old.items (W.told writer.new).held waiting.new.items) }
        ensures less { IfOk result (λ left. IsLess left (length bytes.now)) }
        ensures failed { WriterTells (W.told writer.old) (W.told writer.new) result }
    {
        bad_words_stand_there();
        let count = word_bytes(bytes, self.kept.stream.word_length());
        self.kept.stream.take_text(&bytes[..count]);
        let rest = behind(bytes, count);
        if !is_over(rest, self.kept.stream.word_length()) {
            return Ok(PieceRest::Nothing);
        }
        self.end_bad_word(rest, waiting, writer)
    }

    /// Puts out the line of the bad word, of which no more is wanted, and drops what is left of
    /// its line.
    fn end_bad_word<'b, W: Sink>(
        &mut self,
        rest: &'b [u8],
        waiting: &mut Waiting,
        writer: &mut W,
    ) -> Result<PieceRest<'b>, RunFault>
        ensures takes { (start : Teller K) (given text : List ℕ) → StandsBehindBadWord K.Keeps rest.now start self.old given text
            → IfOk result (λ left. PutsOut (λ more. TakesLine K.Keeps start self.new given rest.now left (text ++ more))
            (W.told writer.old).held waiting.old.items (W.told writer.new).held waiting.new.items) }
        ensures less { IfOk result (λ left. IsLess left (length rest.now)) }
        ensures failed { WriterTells (W.told writer.old) (W.told writer.new) result }
    {
        bad_words_stand_there();
        match self.bad_words {
            AfterBadToken::End => {
                self.put_last_word(waiting, writer)?;
                Ok(PieceRest::Stop)
            }
            AfterBadToken::Continue => {
                let kept = &mut self.kept;
                kept.stream.put_bad_word(&mut kept.keeper, waiting, writer)?;
                self.inside = EngineState::BadLine;
                Ok(self.drop_line(rest))
            }
        }
    }

    /// Drops what is left of a bad line. After its LF reading begins anew.
    fn drop_line<'b>(&mut self, bytes: &'b [u8]) -> PieceRest<'b>
        ensures takes { (start : Teller K) (given text : List ℕ) → self.old.inside ≡ inside.BadLine → StandsInBadLine K.Keeps bytes.now start self.old given text
            → TakesLine K.Keeps start self.new given bytes.now result text }
        ensures less { IsLess result (length bytes.now) }
    {
        match line_bytes(bytes) {
            None => {
                self.kept.stream.take_text(bytes);
                PieceRest::Nothing
            }
            Some(count) => {
                texts_may_be_cut_between_words();
                self.kept.stream.take_text(&bytes[..count + 1]);
                self.kept.stream.begin_anew();
                self.scan = Scan::new(self.profile);
                self.inside = EngineState::Words;
                PieceRest::Bytes(behind(bytes, count + 1))
            }
        }
    }

    /// Puts out the fact of the word under way, which is no token, and the last lines.
    fn put_last_word<W: Sink>(
        &mut self,
        waiting: &mut Waiting,
        writer: &mut W,
    ) -> Result<(), RunFault>
        ensures puts { (b : Before) → StreamKnows b self.old.kept.stream
            → OnOk result (PutsText (W.told writer.old).held waiting.old.items (W.told writer.new).held waiting.new.items (last_word_lines (teller_choice self.old) (stream_profile self.old.kept.stream) (stream_time self.old.kept.stream) b)) }
        ensures kept { (b : Before) → StreamKnows b self.old.kept.stream
            → OnOk result (KeepsFacts K.Keeps self.old.kept.stream self.old.kept.keeper self.new.kept.keeper (open_word_fact (stream_time self.old.kept.stream) b ∷ [])) }
        ensures knows { (b : Before) → StreamKnows b self.old.kept.stream → OnOk result (StreamKnows (record b { counts = after_bad_token b.counts }) self.new.kept.stream) }
        ensures failed { WriterTells (W.told writer.old) (W.told writer.new) result }
    {
        let kept = &mut self.kept;
        kept.stream.put_bad_word(&mut kept.keeper, waiting, writer)?;
        kept.stream.put_counts(waiting, writer)
    }

    /// The end of the words.
    fn end_words<W: Sink>(&mut self, waiting: &mut Waiting, writer: &mut W) -> Result<(), RunFault>
        ensures ends { (start : Teller K) (bytes text : List ℕ) → StandsInWords K.Keeps start self.old bytes text
            → OnOk result (PutsOut (λ more. HasEnded K.Keeps start self.new bytes (text ++ more))
            (W.told writer.old).held waiting.old.items (W.told writer.new).held waiting.new.items) }
        ensures failed { WriterTells (W.told writer.old) (W.told writer.new) result }
    {
        spans_move();
        bad_words_stand_there();
        open_times_stay();
        others_are_told();
        match self.scan.take_end(&mut self.kept, waiting, writer)? {
            None => {
                let kept = &mut self.kept;
                let end = self.scan.truncation();
                kept.stream.put_end(&mut kept.keeper, end, waiting, writer)
            }
            Some(_) => {
                // As in `take_words`.
                let _ = self.scan.truncation();
                self.put_last_word(waiting, writer)
            }
        }
    }
}

impl<'p, K: Keeper> Engine for Teller<'p, K> {
    ghost Stands = { HasPutOut K.Keeps };

    ghost Stops = { HasStopped K.Keeps };

    ghost Ends = { HasEnded K.Keeps };

    fn take<W: Sink>(
        &mut self,
        piece: &[u8],
        waiting: &mut Waiting,
        writer: &mut W,
    ) -> Result<Flow, RunFault> {
        let mut rest = piece;
        'lines: loop {
            match self.take_line(rest, waiting, writer)? {
                PieceRest::Nothing => return Ok(Flow::More),
                PieceRest::Stop => return Ok(Flow::Stop),
                PieceRest::Bytes(bytes) => rest = bytes,
            }
        }
    }

    fn end<W: Sink>(&mut self, waiting: &mut Waiting, writer: &mut W) -> Result<(), RunFault> {
        bad_words_stand_there();
        match self.inside {
            EngineState::Words => self.end_words(waiting, writer),
            EngineState::BadWord => self.put_last_word(waiting, writer),
            EngineState::BadLine => self.kept.stream.put_counts(waiting, writer),
        }
    }

    ghost stops_for_good = { stops_for_good K.Keeps };
}

/// What was put out so far is a beginning of what is written for the same bytes, if they end there.
pub(crate) fn fronts_are_written<K: Keeper>()
    ensures { (start now : Teller K) (bytes text : List ℕ) → IsBus (teller_profile start) → HasPutOut K.Keeps start now bytes text
        → WritesToldFront (teller_choice start) (teller_profile start) (teller_bad_words start) bytes text }
{
    spans_move();
    ended_words_lead_on();
    spelled_has_no_bad_word();
    scans_lead_on();
    others_are_told();
    each_list_has_spans();
    one_list_of_spans();
    some_packet_is_read();
}
