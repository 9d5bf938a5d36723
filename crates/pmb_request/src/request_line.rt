//! Requests as lines of text.
//!
//! Its rows: `tests_lines`, `src/requests/rows.rt`, `modes.rt`; `tests/rows/requests.txt`.

ghost use Rattle.std.specs.Prelude.{◌≡◌, ◌↔◌, ℕ, true, Option, Some, List, IfOk, IfErr};
ghost use Rattle.pmb_command.specs.Parts.{DeviceParts};
ghost use Rattle.pmb_transaction.specs.Transaction.{TransactionData};
ghost use Rattle.pmb_note.specs.Context.{HasSeen, mode};
ghost use Rattle.pmb_line.specs.Left.{end, words_left};
ghost use Rattle.pmb_line.specs.Words.{Word};
ghost use Rattle.pmb_line.specs.Token.{token_of as token_of_word};
ghost use Rattle.pmb_request.specs.Request.{request_data};
ghost use Rattle.pmb_request.specs.RequestFault.{IsRequestFault, SpellsRequest};
ghost use Rattle.pmb_request.specs.machine.Reading.{StandsAt, IsWriteLine, at_address};
ghost use Rattle.pmb_request.specs.machine.Pieces.{AsksForRequest, IsRequestFaultOf};

use crate::command_words::{Target, take_bytes, take_end, take_quantity};
use crate::request::Request;
use crate::request_fault::RequestFault;
use crate::verb::Verb;
use arrayvec::ArrayVec;
use pmb_line::{Token, WordFault, Words, read_words, token_of};
use pmb_note::Context;
use pmb_quantity::Quantity;
use pmb_transaction::Transaction;

/// The request that a line spells. A `set` and a `get` take the VOUT_MODE that the context has for
/// their device, whatever their command is.
///
/// # Errors
///
/// The line's first fault: all its words are judged before the quantity of a `set`.
pub fn parse_request(context: &Context<'_>, line: &[u8]) -> Result<Request, RequestFault>
    ensures ok { IfOk result (λ request. (profile : List DeviceParts) (ts : List TransactionData) → HasSeen context.now profile ts
        → SpellsRequest (mode profile ts) line.now (request_data request)) }
    ensures err { IfErr result (IsRequestFault line.now) }
{
    let mut words = Words::of(line);
    let Some(first) = words.next_word() else {
        return Err(RequestFault::from(WordFault::Blank));
    };
    if is_write(first.text) {
        return parse_write(line);
    }
    match Verb::of(first.text) {
        Some(verb) => parse_operands(verb, context, &mut words),
        None => Err(RequestFault::from(WordFault::BadWord(first.at))),
    }
}

/// Reads what stands after a verb.
fn parse_operands(
    verb: Verb,
    context: &Context<'_>,
    words: &mut Words,
) -> Result<Request, RequestFault>
    ensures ok { (all : List Word) (profile : List DeviceParts) (ts : List TransactionData) → HasSeen context.now profile ts
        → StandsAt all (at_address verb) (words_left words.old) → IfOk result (AsksForRequest (mode profile ts) all) }
    ensures err { (all : List Word) → StandsAt all (at_address verb) (words_left words.old)
        → IfErr result (IsRequestFaultOf all (end words.old)) }
{
    match verb {
        Verb::Read => parse_read(words),
        Verb::Call => parse_call(words),
        Verb::Set => parse_set(context, words),
        Verb::Get => parse_get(context, words),
    }
}

fn is_write(word: &[u8]) -> bool
    ensures { result ≡ true ↔ token_of_word word.now ≡ Some Token.Write }
{
    matches!(token_of(word), Some(Token::Write))
}

/// Reads a line that begins with `write`, as the lines of transactions are read.
fn parse_write(line: &[u8]) -> Result<Request, RequestFault>
    requires { IsWriteLine line.now }
    ensures ok { IfOk result (λ request. (mode : ℕ → Option ℕ) → SpellsRequest mode line.now (request_data request)) }
    ensures err { IfErr result (IsRequestFault line.now) }
{
    let mut transaction = Transaction::Write {
        parts: ArrayVec::new(),
    };
    read_words(line, &mut transaction)?;
    let Transaction::Write { parts } = transaction else {
        unreachable!()
    };
    Ok(Request::Write { parts })
}

/// Reads what stands after `read`.
fn parse_read(words: &mut Words) -> Result<Request, RequestFault>
    ensures ok { (all : List Word) (mode : ℕ → Option ℕ) → StandsAt all (at_address Verb.Read) (words_left words.old)
        → IfOk result (AsksForRequest mode all) }
    ensures err { (all : List Word) → StandsAt all (at_address Verb.Read) (words_left words.old)
        → IfErr result (IsRequestFaultOf all (end words.old)) }
{
    let Target { addr, code } = Target::take(words)?;
    let pec = take_end(words)?;
    Ok(Request::Read { addr, code, pec })
}

/// Reads what stands after `call`.
fn parse_call(words: &mut Words) -> Result<Request, RequestFault>
    ensures ok { (all : List Word) (mode : ℕ → Option ℕ) → StandsAt all (at_address Verb.Call) (words_left words.old)
        → IfOk result (AsksForRequest mode all) }
    ensures err { (all : List Word) → StandsAt all (at_address Verb.Call) (words_left words.old)
        → IfErr result (IsRequestFaultOf all (end words.old)) }
{
    let Target { addr, code } = Target::take(words)?;
    let mut bytes = ArrayVec::new();
    take_bytes(words, &mut bytes)?;
    let pec = take_end(words)?;
    Ok(Request::Call {
        addr,
        code,
        bytes,
        pec,
    })
}

/// Reads what stands after `set`: first all words, then the quantity.
fn parse_set(context: &Context<'_>, words: &mut Words) -> Result<Request, RequestFault>
    ensures ok { (all : List Word) (profile : List DeviceParts) (ts : List TransactionData) → HasSeen context.now profile ts
        → StandsAt all (at_address Verb.Set) (words_left words.old) → IfOk result (AsksForRequest (mode profile ts) all) }
    ensures err { (all : List Word) → StandsAt all (at_address Verb.Set) (words_left words.old)
        → IfErr result (IsRequestFaultOf all (end words.old)) }
{
    let Target { addr, code } = Target::take(words)?;
    let text = take_quantity(words)?;
    let pec = take_end(words)?;
    match Quantity::parse(text) {
        Ok(value) => Ok(Request::Set {
            addr,
            code,
            value,
            mode: context.mode(addr),
            pec,
        }),
        Err(fault) => Err(RequestFault::Quantity(fault)),
    }
}

/// Reads what stands after `get`.
fn parse_get(context: &Context<'_>, words: &mut Words) -> Result<Request, RequestFault>
    ensures ok { (all : List Word) (profile : List DeviceParts) (ts : List TransactionData) → HasSeen context.now profile ts
        → StandsAt all (at_address Verb.Get) (words_left words.old) → IfOk result (AsksForRequest (mode profile ts) all) }
    ensures err { (all : List Word) → StandsAt all (at_address Verb.Get) (words_left words.old)
        → IfErr result (IsRequestFaultOf all (end words.old)) }
{
    let Target { addr, code } = Target::take(words)?;
    let pec = take_end(words)?;
    Ok(Request::Get {
        addr,
        code,
        mode: context.mode(addr),
        pec,
    })
}
