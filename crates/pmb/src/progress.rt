//! The line of progress on standard error, while reading takes long.
//!
//! It is shown where standard error is a terminal, and meets no other text: it is wiped before a fault, and before
//! output that can be seen on the terminal. Where standard output is the terminal, the line comes back after two
//! seconds without output. Where it is a pipe, it doesn't, since what reads the pipe may write to the terminal.

use pmb_progress::{COLUMNS, Place, is_due, progress_line, stops, wiped, written_over};
use std::cell::Cell;
use std::io::{IsTerminal, Write};
use std::os::unix::fs::FileTypeExt;
use std::time::Instant;
use std::{env, fs};

/// What standard output is.
#[derive(Clone, Copy)]
enum Output {
    /// A file or a device, where nobody looks on.
    Apart,
    Terminal,
    /// A pipe or the like, whose reader may write to the terminal.
    Pipe,
}

/// The line of progress, and what it is made of.
#[derive(Drop)]
pub(crate) struct Progress<'a> {
    rt: &'a HostRuntime,
    /// Whether it may be shown.
    is_on: Cell<bool>,
    /// Whether packets are counted.
    counts: Cell<bool>,
    /// How many bytes there are in all, if that is known.
    whole: Cell<Option<u64>>,
    /// Whether those of standard input are among them.
    has_input: Cell<bool>,
    /// How many bytes were read; stays at the greatest `u64`, as the next count does.
    seen: Cell<u64>,
    /// How many packets ended in them.
    packets: Cell<u64>,
    /// Where in the text the next byte is.
    place: Cell<Place>,
    /// When the first read began.
    began: Cell<Option<Instant>>,
    /// From when on two seconds have to go by before the line is shown.
    quiet: Cell<Option<Instant>>,
    /// When the line was written last.
    last: Cell<Option<Instant>>,
    /// How many columns the line has that is shown; 0 where none is.
    columns: Cell<usize>,
    /// What standard output is, if that was asked for.
    output: Cell<Option<Output>>,
    /// Whether there was output that the line has to make room for.
    has_output: Cell<bool>,
}

impl<'a> Progress<'a> {
    /// Nothing was read yet, and no line is shown.
    pub(crate) fn new(rt: &'a HostRuntime) -> Progress<'a> {
        Progress {
            rt,
            is_on: Cell::new(rt.stderr().is_terminal() && goes_back(rt)),
            counts: Cell::new(false),
            whole: Cell::new(Some(0)),
            has_input: Cell::new(false),
            seen: Cell::new(0),
            packets: Cell::new(0),
            place: Cell::new(Place::Between),
            began: Cell::new(None),
            quiet: Cell::new(None),
            last: Cell::new(None),
            columns: Cell::new(0),
            output: Cell::new(None),
            has_output: Cell::new(false),
        }
    }

    /// Has packets counted, since what is read is a capture.
    pub(crate) fn count_packets(&self) {
        self.counts.set(true);
    }

    /// Whether the line may be shown.
    pub(crate) fn is_on(&self) -> bool {
        self.is_on.get()
    }

    /// Shows no line from now on.
    pub(crate) fn turn_off(&self) {
        self.wipe();
        self.is_on.set(false);
    }

    /// So many bytes more are to be read, if that is known.
    pub(crate) fn expect(&self, size: Option<u64>) {
        let whole = match (self.whole.get(), size) {
            (Some(whole), Some(size)) => whole.checked_add(size),
            (Some(_) | None, Some(_) | None) => None,
        };
        self.whole.set(whole);
    }

    /// Standard input is to be read, whose size counts once.
    pub(crate) fn expect_input(&self) {
        if self.is_on.get() && !self.has_input.replace(true) {
            self.expect(input_size(self.rt));
        }
    }

    /// The next file begins, outside words and comments.
    pub(crate) fn begin_file(&self) {
        self.place.set(Place::Between);
    }

    /// A read begins.
    pub(crate) fn begin(&self) {
        if self.is_on.get() && self.began.get().is_none() {
            match Instant::now(self.rt) {
                Ok(now) => {
                    self.began.set(Some(now));
                    self.quiet.set(Some(now));
                }
                Err(_) => self.is_on.set(false),
            }
        }
    }

    /// A read has ended, and gave these bytes.
    pub(crate) fn take(&self, bytes: &[u8]) {
        if self.is_on.get() && !bytes.is_empty() {
            self.count(bytes);
            if let Ok(now) = Instant::now(self.rt) {
                if is_due(
                    ms_since(self.quiet.get(), now),
                    ms_since(self.last.get(), now),
                ) && self.has_room(now)
                {
                    self.show(now);
                }
            }
        }
    }

    /// Counts bytes, and the packets that end in them.
    fn count(&self, bytes: &[u8]) {
        self.seen
            .set(self.seen.get().saturating_add(bytes.len() as u64));
        if self.counts.get() {
            let (packets, place) = stops(self.place.get(), bytes);
            self.packets
                .set(self.packets.get().saturating_add(packets as u64));
            self.place.set(place);
        }
    }

    /// Whether there is room for the line, by the output since this was asked last.
    fn has_room(&self, now: Instant) -> bool {
        if !self.has_output.replace(false) {
            return true;
        }
        match self.output() {
            Output::Apart => true,
            Output::Terminal => {
                self.quiet.set(Some(now));
                false
            }
            Output::Pipe => {
                self.is_on.set(false);
                false
            }
        }
    }

    /// Shows the line.
    fn show(&self, now: Instant) {
        let packets = match self.packets.get() {
            0 => None,
            count => Some(count),
        };
        let ms = ms_since(self.began.get(), now);
        let line = progress_line(self.whole.get(), self.seen.get(), ms, packets);
        let columns = self.columns.get().min(COLUMNS);
        if self.send(written_over(columns, line.as_slice()).as_slice()) {
            self.columns.set(line.as_slice().len());
        }
        self.last.set(Some(now));
    }

    /// Wipes the line where output can be seen, since there is some now.
    pub(crate) fn make_room(&self) {
        if self.is_on.get() {
            self.has_output.set(true);
            if self.columns.get() > 0 {
                match self.output() {
                    Output::Apart => {}
                    Output::Terminal | Output::Pipe => self.wipe(),
                }
            }
        }
    }

    /// Wipes the line, if one is shown.
    pub(crate) fn wipe(&self) {
        let columns = self.columns.replace(0);
        if columns > 0 {
            let _ = self.send(wiped(columns.min(COLUMNS)).as_slice());
        }
    }

    /// Sends bytes to the terminal, and returns whether it did. A job in the background sends none.
    fn send(&self, bytes: &[u8]) -> bool {
        is_in_front(self.rt) && self.rt.stderr().write_all(bytes).is_ok()
    }

    /// What standard output is. The system is asked once.
    fn output(&self) -> Output {
        match self.output.get() {
            Some(output) => output,
            None => {
                let output = standard_output(self.rt);
                self.output.set(Some(output));
                output
            }
        }
    }
}

/// Whether a terminal goes back in a line, as TERM says.
fn goes_back(rt: &HostRuntime) -> bool {
    match env::var(rt, "TERM") {
        Ok(term) => term.as_str() != "dumb",
        Err(_) => true,
    }
}

/// Whether this is the job of the terminal that is in the foreground, or there are no jobs. The system's file has
/// the state, the parent, the group, the session, the terminal and its group in the foreground after the name.
fn is_in_front(rt: &HostRuntime) -> bool {
    let Ok(text) = fs::read_to_string(rt, "/proc/self/stat") else {
        return true;
    };
    let Some((_, fields)) = text.as_str().rsplit_once(')') else {
        return true;
    };
    let mut left = fields.split_whitespace();
    let own = left.nth(2);
    let in_front = left.nth(2);
    in_front == Some("-1") || own == in_front
}

/// What standard output is.
fn standard_output(rt: &HostRuntime) -> Output {
    if rt.stdout().is_terminal() {
        return Output::Terminal;
    }
    match fs::metadata(rt, "/dev/stdout") {
        Ok(found) if found.is_file() || found.file_type().is_char_device() => Output::Apart,
        Ok(_) | Err(_) => Output::Pipe,
    }
}

/// The size of standard input, where that is a file.
fn input_size(rt: &HostRuntime) -> Option<u64> {
    match fs::metadata(rt, "/dev/stdin") {
        Ok(found) if found.is_file() => Some(found.len()),
        Ok(_) | Err(_) => None,
    }
}

/// How many milliseconds have gone by. Since a time that never was they are the most.
fn ms_since(time: Option<Instant>, now: Instant) -> u64 {
    match time {
        Some(time) => {
            let gone = now.duration_since(time);
            gone.as_secs()
                .saturating_mul(1000)
                .saturating_add(gone.subsec_millis() as u64)
        }
        None => u64::MAX,
    }
}
