//! Each way to hand over a text: whole, in pieces of one, two and three bytes, and cut in two at
//! each place.

use crate::compare::same;
use pmb_bus::{Event, LexFault, Lexer, Step, event_text};
use std::alloc::{AllocError, Global};
use std::io;
use std::process::Abort;

/// A lexer, the text of the events that it has answered so far, and the offset of the bad word.
#[derive(Drop)]
struct Reading {
    lexer: Lexer,
    text: String,
    bad: Option<u64>,
}

impl Reading {
    fn new(alloc: Global) -> Reading {
        Reading {
            lexer: Lexer::new(),
            text: String::new(alloc),
            bad: None,
        }
    }

    fn event(&mut self, event: Event) -> Result<(), AllocError> {
        self.text.push_str(event_text(event).as_str())
    }

    fn fault(&mut self, fault: LexFault) {
        let LexFault::BadToken { at } = fault;
        self.bad = Some(at);
    }

    fn take(&mut self, piece: &[u8]) -> Result<(), AllocError> {
        let mut rest = piece;
        for _ in 0..piece.len() {
            let lexed = self.lexer.feed(rest);
            rest = &rest[lexed.used..];
            match lexed.step {
                Step::Need => return Ok(()),
                Step::Event(event) => self.event(event)?,
                Step::Fault(fault) => {
                    self.fault(fault);
                    return Ok(());
                }
            }
        }
        Ok(())
    }

    /// What was read of the whole text.
    fn end(mut self, alloc: Global) -> Result<String, AllocError> {
        match self.lexer.finish() {
            Ok(None) => {}
            Ok(Some(event)) => self.event(event)?,
            Err(fault) => self.fault(fault),
        }
        if let Some(at) = self.bad {
            let bad = format!(in alloc; "! {at}")?;
            self.text.push_str(bad.as_str())?;
        }
        Ok(self.text)
    }
}

fn in_pieces(alloc: Global, text: &[u8], size: usize) -> Result<String, AllocError> {
    let mut reading = Reading::new(alloc);
    let mut rest = text;
    for _ in 0..text.len() {
        let (piece, more) = rest.split_at(size.min(rest.len()));
        reading.take(piece)?;
        rest = more;
    }
    reading.end(alloc)
}

fn in_two(alloc: Global, text: &[u8], place: usize) -> Result<String, AllocError> {
    let (front, back) = text.split_at(place.min(text.len()));
    let mut reading = Reading::new(alloc);
    reading.take(front)?;
    reading.take(back)?;
    reading.end(alloc)
}

/// A text spells these events, with `!` and an offset behind them where its first bad word begins
/// there, however it is cut.
pub(crate) fn spells<R: Abort>(
    rt: &R,
    alloc: Global,
    name: &str,
    text: &[u8],
    wanted: &str,
) -> io::Result<()> {
    for size in [text.len(), 1, 2, 3] {
        let found = in_pieces(alloc, text, size)?;
        same(rt, (name, "in pieces of", size), found.as_str(), wanted);
    }
    for place in 0..text.len() {
        let found = in_two(alloc, text, place)?;
        same(rt, (name, "cut at", place), found.as_str(), wanted);
    }
    Ok(())
}
