//! Texts that are cut in two at each place: the events, and the fault, are those that `Lexer` finds in
//! the whole text.

use crate::compare::same;
use pmb_bus::{Event, LexFault, Lexer, Step};
use pmb_firmware::PmbLexer;
use std::alloc::{AllocError, Global};
use std::test::Fail;

static TEXTS: [&str; 9] = [
    "",
    "S b0 A 21 A 00 N P\n",
    "  S\tB0\r\nA",
    "#S\n\nS# A S\nfF#P",
    "S ## #\n#\n 0f#",
    "S b0 A zz A",
    "S # b0 0\n b00 P",
    "S b0 A 2",
    "SS",
];

/// The events of a text, and its fault.
#[derive(Drop)]
struct Found {
    events: Vec<Event>,
    fault: Option<LexFault>,
}

impl Found {
    fn new(alloc: Global) -> Found {
        Found {
            events: Vec::new(alloc),
            fault: None,
        }
    }

    // Notes an answer, and says whether the text may continue.
    fn note(&mut self, step: Step) -> Result<bool, AllocError> {
        match step {
            Step::Need => return Ok(false),
            Step::Event(event) => self.events.push(event)?,
            Step::Fault(fault) => {
                self.fault = Some(fault);
                return Ok(false);
            }
        }
        Ok(true)
    }

    fn note_end(&mut self, end: Result<Option<Event>, LexFault>) -> Result<(), AllocError> {
        match end {
            Ok(None) => {}
            Ok(Some(event)) => self.events.push(event)?,
            Err(fault) => self.fault = Some(fault),
        }
        Ok(())
    }

    fn take(&mut self, lexer: &mut PmbLexer, piece: &[u8]) -> Result<(), AllocError> {
        let mut rest = piece;
        for _ in 0..piece.len() {
            let lexed = lexer.feed(rest);
            rest = &rest[lexed.used..];
            if !self.note(lexed.step)? {
                break;
            }
        }
        Ok(())
    }
}

fn whole(alloc: Global, text: &[u8]) -> Result<Found, AllocError> {
    let mut found = Found::new(alloc);
    let mut lexer = Lexer::new();
    let mut rest = text;
    for _ in 0..text.len() {
        let lexed = lexer.feed(rest);
        rest = &rest[lexed.used..];
        if !found.note(lexed.step)? {
            break;
        }
    }
    found.note_end(lexer.finish())?;
    Ok(found)
}

fn in_two(alloc: Global, front: &[u8], back: &[u8]) -> Result<Found, AllocError> {
    let mut found = Found::new(alloc);
    let mut lexer = PmbLexer::new();
    found.take(&mut lexer, front)?;
    found.take(&mut lexer, back)?;
    found.note_end(lexer.finish())?;
    Ok(found)
}

#[test]
fn cut_at_each_place(rt: HostRuntime) -> Result<(), Fail> {
    for text in TEXTS.as_slice() {
        let bytes = text.as_bytes();
        let right = whole(rt.alloc(), bytes)?;
        for at in 0..bytes.len() + 1 {
            let (front, back) = bytes.split_at(at);
            let found = in_two(rt.alloc(), front, back)?;
            same(
                &rt,
                (text, "at", at),
                found.events.as_slice(),
                right.events.as_slice(),
            );
            same(&rt, (text, "at", at), found.fault, right.fault);
        }
    }
    Ok(())
}
