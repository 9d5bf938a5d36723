//! The program at the head of `pmb_firmware`, in two parts.

use crate::compare::same;
use pmb_bus::{Event, Lexed, Step};
use pmb_firmware::{PmbFormat, PmbLexer, PmbQuantity, encode};

#[test]
fn the_program_of_the_lexer(rt: HostRuntime) {
    let mut lexer = PmbLexer::new();
    let start = Step::Event(Event::Start);
    same(
        &rt,
        "a letter",
        lexer.feed(b"S b"),
        Lexed {
            used: 2,
            step: start,
        },
    );
    let need = Step::Need;
    same(
        &rt,
        "a digit",
        lexer.feed(b"b"),
        Lexed {
            used: 1,
            step: need,
        },
    );
    let byte = Step::Event(Event::Byte(0xb0));
    same(
        &rt,
        "its second digit",
        lexer.feed(b"0 "),
        Lexed {
            used: 2,
            step: byte,
        },
    );
    same(&rt, "the end", lexer.finish(), Ok(None));
}

#[test]
fn the_program_of_the_firmware(rt: HostRuntime) {
    let mut code = 0;
    let linear11 = PmbFormat {
        kind: 0,
        exponent: 0,
        mode: 0,
        r: 0,
        m: 0,
        b: 0,
    };
    let twelve = PmbQuantity {
        numerator: 12,
        denominator: 1,
    };
    same(&rt, "twelve", encode(&linear11, twelve, &mut code), 0);
    same(&rt, "its code", code, 0xd300);
}
