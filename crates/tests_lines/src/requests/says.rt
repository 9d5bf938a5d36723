//! Requests as rows tell them, and what is answered to lines.

use arrayvec::ArrayVec;
use pmb_line::append_line;
use pmb_note::Context;
use pmb_quantity::Quantity;
use pmb_request::{Request, parse_request};
use pmb_transaction::Transaction;

/// A line, and the request that it spells, or its first fault.
pub(crate) type Row = (&'static str, &'static str);

/// A text that a row is compared with.
pub(crate) type Text = ArrayVec<u8, 16384>;

/// The rows of a table. A call keeps the proof of a loop over them from carrying the table.
pub(crate) fn rows_of(table: &'static [Row]) -> &'static [Row] {
    table
}

/// What is answered to a line: the request that it spells, or its fault. A `set` and a `get` are told
/// with the mode that they took.
pub(crate) fn answer(context: &Context<'_>, line: &[u8]) -> Text {
    let mut text = Text::new();
    match parse_request(context, line) {
        Ok(request) => append_request(&mut text, request),
        Err(fault) => append(&mut text, fault.text().as_slice()),
    }
    text
}

fn append_request(text: &mut Text, request: Request) {
    match request {
        Request::Write { parts } => {
            let mut line = ArrayVec::<u8, 12544>::new();
            append_line(&Transaction::Write { parts }, &mut line);
            append(text, line.as_slice());
        }
        Request::Read { addr, code, pec } => {
            append(text, b"read");
            append_bytes(text, &[addr, code]);
            append_pec(text, pec);
        }
        Request::Call {
            addr,
            code,
            bytes,
            pec,
        } => {
            append(text, b"call");
            append_bytes(text, &[addr, code]);
            append_bytes(text, bytes.as_slice());
            append_pec(text, pec);
        }
        Request::Set {
            addr,
            code,
            value,
            mode,
            pec,
        } => {
            append(text, b"set");
            append_bytes(text, &[addr, code]);
            append_quantity(text, &value);
            append_mode(text, mode);
            append_pec(text, pec);
        }
        Request::Get {
            addr,
            code,
            mode,
            pec,
        } => {
            append(text, b"get");
            append_bytes(text, &[addr, code]);
            append_mode(text, mode);
            append_pec(text, pec);
        }
    }
}

fn append(text: &mut Text, more: &[u8]) {
    let _ = text.try_extend_from_slice(more);
}

fn append_bytes(text: &mut Text, bytes: &[u8]) {
    for byte in bytes {
        let mut digits = [b' '; 3];
        let _ = hex::encode_to_slice([*byte], &mut digits[1..]);
        append(text, &digits);
    }
}

fn append_quantity(text: &mut Text, value: &Quantity) {
    append(text, b" ");
    append(text, value.text().as_str().as_bytes());
}

fn append_mode(text: &mut Text, mode: Option<u8>) {
    match mode {
        Some(mode) => {
            append(text, b" mode");
            append_bytes(text, &[mode]);
        }
        None => append(text, b" no mode"),
    }
}

fn append_pec(text: &mut Text, pec: bool) {
    if pec {
        append(text, b" pec");
    }
}
