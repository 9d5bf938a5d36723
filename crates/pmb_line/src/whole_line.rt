//! Lines read into transactions that are kept.
//!
//! Its rows: `tests_lines`, `src/lines/rows.rt` and `long.rt`; `tests/rows/lines.txt`.

ghost use Rattle.std.specs.Prelude.{◌≡◌, OnOk, IfOk, IfErr, List, []};
ghost use Rattle.pmb_transaction.specs.Transaction.{transaction_data};
ghost use Rattle.pmb_line.specs.Words.{texts, line_words};
ghost use Rattle.pmb_line.specs.Spelling.{SpellsTransaction};
ghost use Rattle.pmb_line.specs.Fault.{IsFault, IsWithin};
ghost use Rattle.pmb_line.specs.LineFault.{IsLineFault, Parses};
ghost use Rattle.pmb_line.specs.declared.words.Located.{Located as Place};
ghost use Rattle.pmb_line.specs.machine.Reading.{LineStandsAt, write_next, read_next, call_next, refused_next, alert_next};
ghost use Rattle.pmb_line.specs.machine.Left.{left, end};
ghost use Rattle.pmb_line.specs.machine.Pieces.{ReadsLine};

use crate::line_fault::LineFault;
use crate::parts::read_write;
use crate::pieces::{take_end, take_pec};
use crate::refused::read_refused;
use crate::reply::{read_call, read_read};
use crate::token::Token;
use crate::word_fault::WordFault;
use crate::words::Words;
use pmb_table::Profile;
use pmb_transaction::Transaction;
use pmb_transaction_slot::{
    make_alert, make_call, make_no_alert, make_read, make_refused, make_write,
};
use pmb_writer::check;

/// Reads what a line spells into a transaction that the caller keeps. Where that is of the same
/// kind already, only what it holds is written over.
///
/// # Errors
///
/// The line's fault. `into` then holds a transaction that means nothing.
pub fn read_words(line: &[u8], into: &mut Transaction) -> Result<(), WordFault>
    ensures ok { OnOk result (SpellsTransaction (texts (line_words line.now)) (transaction_data into.new)) }
    ensures within { OnOk result (IsWithin (transaction_data into.new)) }
    ensures err { IfErr result (λ fault. IsFault line.now fault) }
{
    read_any(&mut Words::of(line), into)
}

/// Reads a line into a transaction that the caller keeps, as [`read_words`] does, and tests it by
/// [`check`].
///
/// # Errors
///
/// The line's first fault. `into` then holds a transaction that means nothing.
pub fn read_line(profile: &Profile, line: &[u8], into: &mut Transaction) -> Result<(), LineFault>
    ensures ok { OnOk result (Parses profile.now line.now (transaction_data into.new)) }
    ensures err { IfErr result (IsLineFault profile.now line.now) }
{
    if let Err(fault) = read_words(line, into) {
        return Err(LineFault::of_words(fault));
    }
    match check(profile, into) {
        Ok(()) => Ok(()),
        Err(invalid) => Err(LineFault::Invalid(invalid)),
    }
}

/// The transaction that a line spells, and that has a packet under a profile.
///
/// # Errors
///
/// The line's first fault.
pub fn parse_line(profile: &Profile, line: &[u8]) -> Result<Transaction, LineFault>
    ensures ok { IfOk result (λ t. Parses profile.now line.now (transaction_data t)) }
    ensures err { IfErr result (IsLineFault profile.now line.now) }
{
    let mut transaction = Transaction::NoAlert;
    match read_line(profile, line, &mut transaction) {
        Ok(()) => Ok(transaction),
        Err(fault) => Err(fault),
    }
}

fn read_any(words: &mut Words, into: &mut Transaction) -> Result<(), WordFault>
    ensures { ReadsLine (left words.old) (end words.old) (transaction_data into.new) result }
{
    let Some(word) = words.next() else {
        return Err(WordFault::Blank);
    };
    let Some(token) = word.token else {
        return Err(WordFault::BadWord(word.at));
    };
    match token {
        Token::Write => write_into(words, into),
        Token::Read => read_into(words, into),
        Token::Call => call_into(words, into),
        Token::Refused => refused_into(words, into),
        Token::Alert => alert_into(words, into),
        _ => Err(WordFault::BadWord(word.at)),
    }
}

fn write_into(words: &mut Words, into: &mut Transaction) -> Result<(), WordFault>
    ensures { (all : List Place) → LineStandsAt all (write_next []) (left words.old)
        → ReadsLine all (end words.old) (transaction_data into.new) result }
{
    make_write(into);
    let Transaction::Write { parts } = into else {
        unreachable!()
    };
    read_write(words, parts)
}

fn read_into(words: &mut Words, into: &mut Transaction) -> Result<(), WordFault>
    ensures { (all : List Place) → LineStandsAt all read_next (left words.old)
        → ReadsLine all (end words.old) (transaction_data into.new) result }
{
    make_read(into);
    let Transaction::Read {
        addr,
        code,
        reply,
        pec,
    } = into
    else {
        unreachable!()
    };
    read_read(words, addr, code, reply, pec)
}

fn call_into(words: &mut Words, into: &mut Transaction) -> Result<(), WordFault>
    ensures { (all : List Place) → LineStandsAt all call_next (left words.old)
        → ReadsLine all (end words.old) (transaction_data into.new) result }
{
    make_call(into);
    let Transaction::Call {
        addr,
        code,
        bytes,
        reply,
        pec,
    } = into
    else {
        unreachable!()
    };
    read_call(words, addr, code, bytes, reply, pec)
}

fn refused_into(words: &mut Words, into: &mut Transaction) -> Result<(), WordFault>
    ensures { (all : List Place) → LineStandsAt all (refused_next []) (left words.old)
        → ReadsLine all (end words.old) (transaction_data into.new) result }
{
    make_refused(into);
    let Transaction::Refused {
        parts,
        addr,
        sent,
        at_read,
    } = into
    else {
        unreachable!()
    };
    read_refused(words, parts, addr, sent, at_read)
}

/// Reads what stands after `alert`.
fn alert_into(words: &mut Words, into: &mut Transaction) -> Result<(), WordFault>
    ensures { (all : List Place) → LineStandsAt all alert_next (left words.old)
        → ReadsLine all (end words.old) (transaction_data into.new) result }
{
    let Some(word) = words.next() else {
        return Err(WordFault::BadWord(words.end()));
    };
    let Some(token) = word.token else {
        return Err(WordFault::BadWord(word.at));
    };
    match token {
        Token::Byte(byte) => {
            let pec = take_pec(words);
            keep_alert(byte, pec, into);
            take_end(words)
        }
        Token::Nobody => {
            make_no_alert(into);
            take_end(words)
        }
        _ => Err(WordFault::BadWord(word.at)),
    }
}

/// Keeps an answer at the Alert Response Address.
fn keep_alert(byte: u8, pec: bool, into: &mut Transaction)
    ensures { transaction_data into.new ≡ transaction_data (Transaction.Alert byte pec) }
{
    make_alert(into);
    let Transaction::Alert {
        byte: kept,
        pec: with_pec,
    } = into
    else {
        unreachable!()
    };
    *kept = byte;
    *with_pec = pec;
}
