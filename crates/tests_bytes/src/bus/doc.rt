//! The program at the head of `pmb_bus`.

use crate::compare::{ensure, same};
use pmb_bus::{
    ALERT_ADDRESS, Event, Kinds, Lexed, Lexer, Step, event_text, pec_next, pec_of, read_address,
    write_address,
};

#[test]
fn the_program_of_the_doc(rt: HostRuntime) {
    let mut lexer = Lexer::new();
    let lexed = lexer.feed(b"S b0 ");
    same(
        &rt,
        "a letter",
        lexed,
        Lexed {
            used: 2,
            step: Step::Event(Event::Start),
        },
    );
    let lexed = lexer.feed(b"b0 ");
    same(
        &rt,
        "two digits",
        lexed,
        Lexed {
            used: 3,
            step: Step::Event(Event::Byte(0xb0)),
        },
    );
    same(
        &rt,
        "text of a byte",
        event_text(Event::Byte(0xb0)).as_str(),
        "b0 ",
    );
    ensure(
        &rt,
        "all kinds",
        Kinds::all().contains(Kinds::of(Event::Byte(0xb0))),
    );
    same(&rt, "code of two bytes", pec_of(&[0xb0, 0x03]), 0x46);
    same(
        &rt,
        "code byte by byte",
        pec_next(pec_of(&[0xb0]), 0x03),
        0x46,
    );
    same(&rt, "write address", write_address(0x58), 0xb0);
    same(&rt, "read address", read_address(ALERT_ADDRESS), 0x19);
}
