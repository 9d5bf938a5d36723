//! How many bytes one call uses, and what it answers.

use crate::compare::same;
use Event::{Ack, Byte, Start};
use pmb_bus::{Event, LexFault, Lexed, Lexer, Step};
use std::io;

/// A name, a piece, how much of it is used, and what that comes to.
fn pieces() -> &'static [(&'static str, &'static [u8], usize, Step)] {
    &[
        ("nothing", b"", 0, Step::Need),
        ("a letter and a separator", b"S b0 ", 2, Step::Event(Start)),
        ("a letter and two bytes", b"A\t\t", 2, Step::Event(Ack)),
        ("a letter and one byte", b"S ", 2, Step::Event(Start)),
        ("a letter alone", b"S", 1, Step::Need),
        ("a letter and a comment", b"S# P\nA ", 2, Step::Event(Start)),
        (
            "two digits and a separator",
            b"b0 S ",
            3,
            Step::Event(Byte(0xb0)),
        ),
        (
            "two digits and a last separator",
            b"b0\n",
            3,
            Step::Event(Byte(0xb0)),
        ),
        ("two digits alone", b"b0", 2, Step::Need),
        (
            "two digits and a comment",
            b"b0#S ",
            3,
            Step::Event(Byte(0xb0)),
        ),
        (
            "separators and a letter",
            b" \r\nS P ",
            5,
            Step::Event(Start),
        ),
        ("a comment and a letter", b"#S P\nA P ", 7, Step::Event(Ack)),
        ("separators", b"    ", 4, Step::Need),
        (
            "three digits",
            b"b00 ",
            2,
            Step::Fault(LexFault::BadToken { at: 0 }),
        ),
        (
            "a small s",
            b"s S ",
            0,
            Step::Fault(LexFault::BadToken { at: 0 }),
        ),
        (
            "one digit",
            b" 5 S ",
            2,
            Step::Fault(LexFault::BadToken { at: 1 }),
        ),
    ]
}

#[test]
fn each_piece_is_used_up_to_the_end_of_its_first_word(rt: HostRuntime) {
    for &(name, piece, used, step) in pieces() {
        same(&rt, name, Lexer::new().feed(piece), Lexed { used, step });
    }
}

/// A name, the text in front, a piece that begins with a byte and its ACK, and the byte.
fn acked_bytes() -> &'static [(&'static str, &'static [u8], &'static [u8], u8)] {
    &[
        ("a byte and ACK", b"", b"b0 A ", 0xb0),
        ("and more behind them", b"S ", b"21 A 00 A ", 0x21),
        ("in upper case", b"", b"F8 A P\n", 0xf8),
        ("behind a comment", b"# b0\n", b"0d A ", 0x0d),
    ]
}

#[test]
fn a_byte_and_its_ack_are_taken_at_once(rt: HostRuntime) {
    for &(name, before, piece, byte) in acked_bytes() {
        let mut lexer = Lexer::new();
        let _ = lexer.feed(before);
        let mut other = lexer;
        same(&rt, name, lexer.feed_acked(piece), Some(byte));
        let first = other.feed(piece);
        let second = other.feed(&piece[first.used..]);
        same(
            &rt,
            name,
            (first.step, second.step),
            (Step::Event(Byte(byte)), Step::Event(Ack)),
        );
        same(&rt, name, first.used + second.used, 5);
        same(&rt, name, lexer, other);
    }
}

/// A name, the text in front, and a piece that is left to `feed`.
fn others() -> &'static [(&'static str, &'static [u8], &'static [u8])] {
    &[
        ("a tab behind the byte", b"", b"b0\tA "),
        ("LF behind ACK", b"", b"b0 A\n"),
        ("NACK", b"", b"b0 N "),
        ("two separators", b"", b"b0  A "),
        ("nothing behind ACK", b"", b"b0 A"),
        ("a comment behind ACK", b"", b"b0 A#"),
        ("a comment behind the byte", b"", b"b0#A\n"),
        ("a separator in front", b"", b" b0 A "),
        ("no digit", b"", b"g0 A "),
        ("no second digit", b"", b"0g A "),
        ("within a word", b"b", b"0 A A "),
        ("within a comment", b"#", b"b0 A "),
        ("behind a fault", b"x", b"b0 A "),
        ("nothing", b"", b""),
    ]
}

#[test]
fn nothing_else_is(rt: HostRuntime) {
    for &(name, before, piece) in others() {
        let mut lexer = Lexer::new();
        let _ = lexer.feed(before);
        let other = lexer;
        same(&rt, name, lexer.feed_acked(piece), None);
        same(&rt, name, lexer, other);
    }
}

#[test]
fn answers_a_fault_again(rt: HostRuntime) {
    let mut lexer = Lexer::new();
    let fault = LexFault::BadToken { at: 1 };
    same(
        &rt,
        "a bad word",
        lexer.feed(b" b0x S"),
        Lexed {
            used: 3,
            step: Step::Fault(fault),
        },
    );
    for piece in [b"S b0 ".as_slice(), b""] {
        same(
            &rt,
            piece,
            lexer.feed(piece),
            Lexed {
                used: 0,
                step: Step::Fault(fault),
            },
        );
    }
    same(&rt, "the end", lexer.finish(), Err(fault));
    same(&rt, "the end again", lexer.finish(), Err(fault));
}

#[test]
fn ends_on_large_texts(rt: HostRuntime) -> io::Result<()> {
    let digits = vec![in rt.alloc(); b'5'; 1_000_000]?;
    let mut lexer = Lexer::new();
    same(
        &rt,
        "digits",
        lexer.feed(digits.as_slice()),
        Lexed {
            used: 2,
            step: Step::Fault(LexFault::BadToken { at: 0 }),
        },
    );

    let comment = vec![in rt.alloc(); b'#'; 300_000]?;
    let mut lexer = Lexer::new();
    same(
        &rt,
        "a comment",
        lexer.feed(comment.as_slice()),
        Lexed {
            used: 300_000,
            step: Step::Need,
        },
    );
    same(&rt, "the end of it", lexer.finish(), Ok(None));
    Ok(())
}
