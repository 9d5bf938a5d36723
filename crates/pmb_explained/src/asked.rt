//! What the words of the command line ask for, as far as it is looked at here.

ghost use Rattle.std.specs.Prelude.{◌≡◌, map};
ghost use Rattle.pmb_explained.specs.Asked.{asks_to_explain};

use std::convert::AsStr;

/// Whether the words ask what a name means.
pub fn asks_to_explain<S: AsStr>(words: &[S]) -> bool
    ensures { result ≡ asks_to_explain (map S.text words.now) }
{
    match words {
        [_, subcommand, ..] => subcommand.as_str() == "explain",
        _ => false,
    }
}

/// Whether the words begin with `import`.
pub(crate) fn is_import<S: AsStr>(words: &[S]) -> bool {
    match words {
        [_, subcommand, ..] => subcommand.as_str() == "import",
        _ => false,
    }
}
