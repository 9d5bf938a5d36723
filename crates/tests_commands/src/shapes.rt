//! The forms of commands.
use pmb_table::{Form, Shape};

const ZERO: Option<Form> = Some(Form::Zero);

const ONE: Option<Form> = Some(Form::One);

const TWO: Option<Form> = Some(Form::Two);

const MANY: Option<Form> = Some(Form::Block);

pub(crate) const SEND_BYTE: Shape = Shape {
    write: ZERO,
    read: None,
    call: None,
};

pub(crate) const WRITE_BYTE: Shape = Shape {
    write: ONE,
    read: None,
    call: None,
};

pub(crate) const WRITE_WORD: Shape = Shape {
    write: TWO,
    read: None,
    call: None,
};

pub(crate) const WRITE_EIGHT: Shape = Shape {
    write: Some(Form::Eight),
    read: None,
    call: None,
};

pub(crate) const WRITE_BLOCK: Shape = Shape {
    write: MANY,
    read: None,
    call: None,
};

pub(crate) const READ_BYTE: Shape = Shape {
    write: None,
    read: ONE,
    call: None,
};

pub(crate) const READ_WORD: Shape = Shape {
    write: None,
    read: TWO,
    call: None,
};

pub(crate) const READ_EIGHT: Shape = Shape {
    write: None,
    read: Some(Form::Eight),
    call: None,
};

pub(crate) const READ_BLOCK: Shape = Shape {
    write: None,
    read: MANY,
    call: None,
};

/// Written and read.
pub(crate) const BYTE: Shape = Shape {
    write: ONE,
    read: ONE,
    call: None,
};

pub(crate) const WORD: Shape = Shape {
    write: TWO,
    read: TWO,
    call: None,
};

pub(crate) const FOUR: Shape = Shape {
    write: Some(Form::Four),
    read: Some(Form::Four),
    call: None,
};

pub(crate) const BLOCK: Shape = Shape {
    write: MANY,
    read: MANY,
    call: None,
};

pub(crate) const SEND_AND_READ_BYTE: Shape = Shape {
    write: ZERO,
    read: ONE,
    call: None,
};

pub(crate) const CALL_WORD: Shape = Shape {
    write: None,
    read: None,
    call: TWO,
};

pub(crate) const CALL_BLOCK: Shape = Shape {
    write: None,
    read: None,
    call: MANY,
};

/// Written as a word, and called with a block, as SMBALERT_MASK is.
pub(crate) const MASK: Shape = Shape {
    write: TWO,
    read: None,
    call: MANY,
};

/// Sent without data, read as four bytes, and called with a block.
pub(crate) const SNAPSHOT: Shape = Shape {
    write: ZERO,
    read: Some(Form::Four),
    call: MANY,
};
