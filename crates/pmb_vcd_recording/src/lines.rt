//! What the lines of a VCD give: moments of both wires, and faults.

ghost use Rattle.std.specs.Prelude.{◌≡◌, ◌≤◌, length, option_copied, option_map};
ghost use Rattle.pmb_vcd.specs.Body.{end as end_step, fails as fails_step, hear as hear_step};
ghost use Rattle.pmb_vcd_recording.specs.Source.{begun, fresh, head_ended, head_told, head_word, is_rest_read as rest_is_read, items_of, next_line, over, vec_of, with_body};

use pmb_vcd::{Body, Heard, Id, Why};
use pmb_vcd_head::{Head, Told};
use pmb_wire_names::{Names, Reason};
use pmb_wires::Moment;

/// Where a line stands.
#[derive(Clone, Copy, Debug, PartialEq, Eq)]
pub enum Place {
    /// In the head.
    Head,
    /// Behind it, and both wires are known.
    Body,
    /// Where nothing more is read.
    Over,
}

/// The lines of a VCD, one after the other.
#[derive(Drop)]
pub struct VcdLines {
    /// How many came.
    pub line: u64,
    /// Where the last one stands.
    pub place: Place,
    /// The words of the head.
    pub head: Head,
    /// The signals so far.
    pub names: Names,
    /// The words behind the head: of no signals until both wires are known.
    pub body: Body,
    /// Levels that a wire has already may be written again.
    pub is_simulated: bool,
}

impl VcdLines {
    /// Nothing came yet. The wires have these names, or the usual ones.
    pub fn new(scl: Option<&[u8]>, sda: Option<&[u8]>, is_simulated: bool) -> VcdLines
        ensures { result ≡ fresh (option_copied scl.entry) (option_copied sda.entry) is_simulated }
    {
        VcdLines {
            line: 0,
            place: Place::Head,
            head: Head::new(),
            names: Names::new(scl, sda),
            body: Body::new(Id::new(), Id::new(), 0, is_simulated),
            is_simulated,
        }
    }

    /// Counts a line.
    pub(crate) fn count(&mut self)
        ensures { self.new ≡ next_line self.old }
    {
        self.line = self.line.saturating_add(1);
    }

    /// Takes a word of the head. Returns why nothing more is read, where that is so.
    pub(crate) fn hear_head(&mut self, word: &[u8]) -> Option<Reason>
        ensures now { self.new ≡ (head_word self.old word.now).now }
        ensures why { option_map items_of result ≡ (head_word self.old word.now).fault }
    {
        let told = self.head.hear(word);
        self.take_told(told)
    }

    /// Takes what a word of the head told.
    fn take_told(&mut self, told: Told) -> Option<Reason>
        ensures now { self.new ≡ (head_told self.old told).now }
        ensures why { option_map items_of result ≡ (head_told self.old told).fault }
    {
        match told {
            Told::Nothing => None,
            Told::Signal => {
                self.names
                    .take(self.head.id.as_slice(), self.head.full.as_slice());
                None
            }
            Told::End => self.end_head(),
        }
    }

    /// Ends the head.
    fn end_head(&mut self) -> Option<Reason>
        ensures now { self.new ≡ (head_ended self.old self.old.head.scale).now }
        ensures why { option_map items_of result ≡ (head_ended self.old self.old.head.scale).fault }
    {
        let Some(scale) = self.head.scale else {
            return self.give_up(b"no $timescale");
        };
        if self.names.all.is_empty() {
            return self.give_up(b"no signal has WIDTH 1");
        }
        self.begin_body(scale)
    }

    /// Begins what stands behind the head, if both wires are known.
    fn begin_body(&mut self, scale: u64) -> Option<Reason>
        ensures now { self.new ≡ (begun self.old scale).now }
        ensures why { option_map items_of result ≡ (begun self.old scale).fault }
    {
        match self.names.choose() {
            Ok(wires) => {
                self.body = Body::new(wires.scl, wires.sda, scale, self.is_simulated);
                self.place = Place::Body;
                None
            }
            Err(why) => {
                self.place = Place::Over;
                Some(why)
            }
        }
    }

    /// Reads nothing more.
    fn give_up(&mut self, why: &[u8]) -> Option<Reason>
        requires { length why.now ≤ 100 }
        ensures now { self.new ≡ (over self.old why.now).now }
        ensures why { option_map items_of result ≡ (over self.old why.now).fault }
    {
        self.place = Place::Over;
        Some(reason(why))
    }

    /// Takes a word behind the head.
    pub(crate) fn hear_body(&mut self, word: &[u8]) -> Heard
        ensures now { self.new ≡ with_body self.old (hear_step self.old.body self.old.line word.now).now }
        ensures heard { result ≡ (hear_step self.old.body self.old.line word.now).heard }
    {
        self.body.hear(self.line, word)
    }

    /// A line behind the head can't be read.
    pub(crate) fn fail_body(&mut self, why: Why) -> Heard
        ensures now { self.new ≡ with_body self.old (fails_step self.old.body why).now }
        ensures heard { result ≡ (fails_step self.old.body why).heard }
    {
        self.body.fail(why)
    }

    /// Ends what stands behind the head.
    pub(crate) fn end_body(&mut self) -> Option<Moment>
        ensures now { self.new ≡ with_body self.old (end_step self.old.body).now }
        ensures given { result ≡ (end_step self.old.body).heard.moment }
    {
        self.body.end()
    }
}

fn reason(text: &[u8]) -> Reason
    requires { length text.now ≤ 100 }
    ensures { result ≡ vec_of text.now }
{
    let mut reason = Reason::new();
    let _ = reason.try_extend_from_slice(text);
    reason
}

/// Whether the rest of a line is read behind a word.
pub(crate) fn is_rest_read(heard: &Heard) -> bool
    ensures { result ≡ rest_is_read heard.now.fault }
{
    match heard.fault {
        Some(Why::MakesNoSense) => false,
        Some(Why::DoesNotFollow) | None => true,
    }
}
