//! From the text of a capture to its first profile.
//!
//! A [`Draft`] reads words up to the first that is no token. `Seen` keeps what the profile has to have,
//! and `Tallies` what its tables say. The text is read as a profile before it is written: so that it is
//! accepted, and has each device and command, is known of each text that goes out.
//!
//! Its rows: `tests/rows/scan.txt`.

ghost use Rattle.std.specs.Prelude.{◌≡◌, ◌≤◌, ◌<◌, ◌++◌, ◌∷◌, [], ℕ, List, IfErr, IfOk, OnOk, IsTrue, length, Ok, Some, IsSome};
ghost use Rattle.std.specs.List.{AllByRecursion};
ghost use Rattle.pmb_bus.specs.declared.event.Event.{Event as BusEvent};
ghost use Rattle.pmb_bus.specs.declared.lexer.LexFault.TheVariants.{BadToken};
ghost use Rattle.pmb_command.specs.Parts.{command_with};
ghost use Rattle.pmb_draft.specs.Draft.{IsDraft, bad_count};
ghost use Rattle.pmb_draft.specs.Result.{IsTextFault};
ghost use Rattle.pmb_draft.specs.Left.{bad_line, left_line, left_out, left_reason, line_of, lines_below};
ghost use Rattle.pmb_draft.specs.machine.CodeSet.{IsIn};
ghost use Rattle.pmb_draft.specs.machine.Draft.{DraftStands, Ended, HasDevice, HasRead, HasStopped, Stopped, Taking, stops_for_good};
ghost use Rattle.pmb_draft.specs.machine.Seen.{HasSeen};
ghost use Rattle.pmb_io.specs.Engines.{Either};
ghost use Rattle.pmb_preamble.specs.Front.{most_profile};
ghost use Rattle.pmb_table.specs.Profile.{ProfileParts, SaysBus};

use crate::code_set::CodeSet;
use crate::device_text::put_device;
use crate::fault::DraftFault;
use crate::seen::{Seen, is_device_address};
use crate::tallies::Tallies;
use crate::text::Text;
use pmb_bus::{Event, LexFault, Lexer, Step};
use pmb_io::{Engine, Flow, RunFault, Sink, Tally, ToolFault, Waiting};
use pmb_table::{BusProfile, DeviceProfile, Profile};
use std::alloc::{AllocError, Global};

/// How many bytes a profile has at most.
const MOST_PROFILE: usize = 1_048_576;

/// What was read of a capture.
#[derive(Drop)]
pub(crate) struct Draft {
    lexer: Lexer,
    seen: Seen,
    tallies: Tallies,
    /// The place of the first word that is no token.
    bad: Option<u64>,
}

impl Draft {
    /// Nothing was read. All memory but that of the text is taken here.
    ///
    /// # Errors
    ///
    /// There was no memory.
    pub(crate) fn new(alloc: Global) -> Result<Draft, AllocError>
        ensures { IfOk result (λ draft. DraftStands draft [] []) }
    {
        let tallies = Tallies::new(alloc)?;
        Ok(Draft {
            lexer: Lexer::new(),
            seen: Seen::new(),
            tallies,
            bad: None,
        })
    }

    /// Takes the next event.
    fn take_event(&mut self, event: Event)
        ensures lexer { self.new.lexer ≡ self.old.lexer }
        ensures bad { self.new.bad ≡ self.old.bad }
        ensures seen { (events : List BusEvent) → HasSeen self.old.seen events → HasSeen self.new.seen (events ++ event ∷ []) }
    {
        self.seen.take(event);
        self.tallies.take(event, self.seen.listed());
    }

    /// Takes note of a word that is no token.
    fn take_fault(&mut self, fault: LexFault)
        ensures bad { (at : ℕ) → fault ≡ BadToken at → self.new.bad ≡ Some at }
        ensures seen { self.new.seen ≡ self.old.seen }
    {
        let LexFault::BadToken { at } = fault;
        self.bad = Some(at);
    }

    /// Takes the next piece of the text.
    fn take_piece(&mut self, piece: &[u8]) -> Flow
        ensures { (bytes : List ℕ) (events : List BusEvent) → DraftStands self.old bytes events
            → Either ((after : List BusEvent) × DraftStands self.new (bytes ++ piece.now) after) (HasStopped self.new (bytes ++ piece.now)) result }
    {
        let mut rest = piece;
        'words: loop {
            let lexed = self.lexer.feed(rest);
            match lexed.step {
                Step::Need => return Flow::More,
                Step::Event(event) => {
                    self.take_event(event);
                    rest = &rest[lexed.used..];
                }
                Step::Fault(fault) => {
                    self.take_fault(fault);
                    return Flow::Stop;
                }
            }
        }
    }

    /// Takes the end of the text.
    fn take_end(&mut self)
        ensures { (bytes : List ℕ) (events : List BusEvent) → DraftStands self.old bytes events → HasRead self.new bytes }
    {
        match self.lexer.finish() {
            Ok(None) => {}
            Ok(Some(event)) => self.take_event(event),
            Err(fault) => self.take_fault(fault),
        }
    }

    /// The text of the profile.
    ///
    /// # Errors
    ///
    /// `Tool` where there was no memory; `TooLong` where it has more bytes than a profile may have; and `Refused` where it isn't
    /// accepted or lacks a device or a command, which shows a mistake in this program.
    pub(crate) fn text(&mut self, alloc: Global) -> Result<Text, DraftFault>
        ensures drafts { (events : List BusEvent) → HasSeen self.old.seen events → IfOk result (λ text. IsDraft events self.old.bad text.bytes.items) }
        ensures faults { IfErr result IsTextFault }
        ensures bad { self.new.bad ≡ self.old.bad }
    {
        self.tallies.end(self.seen.listed());
        let Ok(text) = written(alloc, &self.seen, &self.tallies, self.bad) else {
            return Err(DraftFault::Tool(ToolFault::Memory));
        };
        check(alloc, text.bytes(), &self.seen)?;
        Ok(text)
    }

    /// No packet is counted; a word that is no token counts as a refusal.
    pub(crate) fn tally(&self) -> Tally
        ensures { result.refusals ≡ bad_count self.now.bad }
    {
        Tally {
            packets: self.tallies.packets(),
            refusals: u64::from(self.bad.is_some()),
        }
    }
}

impl Engine for Draft {
    ghost Stands = { Taking };

    ghost Stops = { Stopped };

    ghost Ends = { Ended };

    fn take<W: Sink>(
        &mut self,
        piece: &[u8],
        _waiting: &mut Waiting,
        _writer: &mut W,
    ) -> Result<Flow, RunFault> {
        Ok(self.take_piece(piece))
    }

    fn end<W: Sink>(&mut self, _waiting: &mut Waiting, _writer: &mut W) -> Result<(), RunFault> {
        self.take_end();
        Ok(())
    }

    ghost stops_for_good = { stops_for_good };
}

/// The text: what it is, what is left out, and the tables of the devices.
fn written(
    alloc: Global,
    seen: &Seen,
    tallies: &Tallies,
    bad: Option<u64>,
) -> Result<Text, AllocError>
    ensures { IfOk result (λ text. (head : List ℕ) × (tables : List ℕ)
        × (text.bytes.items ≡ head ++ left_out seen.now.acked seen.now.listed.items bad ++ tables)) }
{
    let tables = tables(alloc, seen, tallies)?;
    let mut text = heading(alloc, tallies.packets())?;
    put_left_out(&mut text, seen, bad)?;
    text.put_bytes(tables.bytes())?;
    Ok(text)
}

/// The first lines.
fn heading(alloc: Global, packets: u64) -> Result<Text, AllocError> {
    let mut text = Text::new(alloc);
    text.put("# Made by pmb scan of ")?;
    text.put_count(packets, "packet")?;
    text.put(". A capture shows no names, and not what the numbers of a maker's own\n")?;
    text.put("# commands mean: add what you know.\n")?;
    Ok(text)
}

/// The tables of the devices, by their addresses.
fn tables(alloc: Global, seen: &Seen, tallies: &Tallies) -> Result<Text, AllocError> {
    let mut text = Text::new(alloc);
    if seen.listed().is_empty() {
        text.put("device = []\n")?;
    }
    for address in 0..128u8 {
        if let Some(place) = seen.place(address) {
            put_device(&mut text, tallies, place, address)?;
        }
    }
    Ok(text)
}

/// Appends a comment for each address that acknowledged and has no table, and one for a bad word.
#[tactic(auto, unfolding(crate::specs::Left::left_out))]
fn put_left_out(text: &mut Text, seen: &Seen, bad: Option<u64>) -> Result<(), AllocError>
    ensures { OnOk result (text.new.bytes.items ≡ text.old.bytes.items ++ left_out seen.now.acked seen.now.listed.items bad) }
{
    put_lines(text, seen)?;
    put_bad_line(text, bad)
}

fn put_lines(text: &mut Text, seen: &Seen) -> Result<(), AllocError>
    ensures { OnOk result (text.new.bytes.items ≡ text.old.bytes.items ++ lines_below seen.now.acked seen.now.listed.items 128) }
{
    for address in 0..128u8 {
        put_line(text, seen, address)?;
    }
    Ok(())
}

#[tactic(auto, unfolding(crate::specs::Left::line_of))]
fn put_line(text: &mut Text, seen: &Seen, address: u8) -> Result<(), AllocError>
    requires { address < 128 }
    ensures { OnOk result (text.new.bytes.items ≡ text.old.bytes.items ++ line_of seen.now.acked seen.now.listed.items address) }
{
    if seen.is_left_out(address) {
        put_left_line(text, address)
    } else {
        Ok(())
    }
}

fn put_left_line(text: &mut Text, address: u8) -> Result<(), AllocError>
    ensures { OnOk result (text.new.bytes.items ≡ text.old.bytes.items ++ left_line address) }
{
    text.put("# ")?;
    text.put_byte(address)?;
    text.put(left_reason(address))
}

/// Why an address that acknowledged has no table.
#[tactic(auto, unfolding(crate::specs::Left::left_reason))]
fn left_reason(address: u8) -> &'static str
    ensures { result.now ≡ left_reason address }
{
    if is_device_address(address) {
        " acknowledged too: a profile has at most 64 devices\n"
    } else {
        " acknowledged: no device of a profile may have this address\n"
    }
}

#[tactic(auto, unfolding(crate::specs::Left::bad_line))]
fn put_bad_line(text: &mut Text, bad: Option<u64>) -> Result<(), AllocError>
    ensures { OnOk result (text.new.bytes.items ≡ text.old.bytes.items ++ bad_line bad) }
{
    let Some(at) = bad else {
        return Ok(());
    };
    text.put("# bad token at byte ")?;
    text.put_number(at)?;
    text.put(": the capture was read up to there\n")
}

/// Whether a text is a profile that is accepted and has what was seen.
fn check(alloc: Global, text: &[u8], seen: &Seen) -> Result<(), DraftFault>
    ensures ok { OnOk result ((bus : ProfileParts) × SaysBus text.now (Ok bus) × (length text.now ≤ most_profile)
        × AllByRecursion (HasDevice seen.now.codes bus.devices) seen.now.listed.items) }
    ensures faults { IfErr result IsTextFault }
{
    if text.len() > MOST_PROFILE {
        return Err(DraftFault::TooLong);
    }
    match BusProfile::from_toml(alloc, text) {
        Ok(bus) => {
            if has_devices(bus.profile(), seen) {
                Ok(())
            } else {
                Err(DraftFault::Refused)
            }
        }
        Err(fault) => Err(DraftFault::of(fault)),
    }
}

/// Whether a profile has each device, with its commands.
fn has_devices(profile: &Profile, seen: &Seen) -> bool
    ensures { IsTrue result → AllByRecursion (HasDevice seen.now.codes profile.now) seen.now.listed.items }
{
    for address in seen.listed() {
        if !has_device(profile, *address, seen.codes()) {
            return false;
        }
    }
    true
}

/// Whether a profile has a device, with its commands.
fn has_device(profile: &Profile, address: u8, codes: &CodeSet) -> bool
    ensures { IsTrue result → HasDevice codes.now profile.now address }
{
    match profile.device(address) {
        Some(device) => has_commands(device, address, codes),
        None => false,
    }
}

/// Whether a device has each command of a set at its address.
fn has_commands(device: &DeviceProfile, address: u8, codes: &CodeSet) -> bool
    ensures { IsTrue result → (code : ℕ) → IsIn codes.now address code → IsSome (command_with code device.now.commands) }
{
    if address >= 128 {
        return false;
    }
    for code in 0..=255u8 {
        if !has_command(device, address, code, codes) {
            return false;
        }
    }
    true
}

/// Whether a device has a command, if its code is in a set at the device's address.
fn has_command(device: &DeviceProfile, address: u8, code: u8, codes: &CodeSet) -> bool
    requires { address < 128 }
    ensures { IsTrue result → IsIn codes.now address code → IsSome (command_with code device.now.commands) }
{
    if codes.contains(address, code) {
        device.entry(code).is_some()
    } else {
        true
    }
}
