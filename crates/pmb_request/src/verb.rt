//! The first word of a request that asks a command code for something.
//!
//! Its rows: `tests_lines`, `src/requests/rows.rt`.

ghost use Rattle.std.specs.Prelude.{◌≡◌};
ghost use Rattle.pmb_line.specs.Token.{token_of as token_of_word};
ghost use Rattle.pmb_request.specs.machine.Reading.{on_verb, verb_of};

use pmb_line::{Token, token_of};

/// What is asked of a command code.
#[derive(Clone, Copy, Debug, PartialEq, Eq)]
pub(crate) enum Verb {
    Read,
    Call,
    Set,
    Get,
}

impl Verb {
    /// What a line's first word asks for, if that is one of these.
    pub(crate) fn of(word: &[u8]) -> Option<Verb>
        ensures { result ≡ verb_of (token_of_word word.now) word.now }
    {
        match token_of(word) {
            Some(Token::Read) => Some(Verb::Read),
            Some(Token::Call) => Some(Verb::Call),
            _ => set_or_get(word),
        }
    }
}

fn set_or_get(word: &[u8]) -> Option<Verb>
    ensures { result ≡ on_verb word.now }
{
    match word {
        b"set" => Some(Verb::Set),
        b"get" => Some(Verb::Get),
        _ => None,
    }
}
