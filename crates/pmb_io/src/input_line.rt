//! Lines of an input.
//!
//! Its rows: `tests/rows/lines.txt`, `tests/rows/requests.txt`, `tests/rows/numbers.txt`.

ghost use Rattle.std.specs.Prelude.{◌≡◌};
ghost use Rattle.pmb_io.specs.Lines.{without_cr};

/// A line of an input.
#[derive(Clone, Copy, Debug, PartialEq, Eq)]
pub enum InputLine<'a> {
    /// What stands before an LF, as it is: a CR at its end too.
    Ended(&'a [u8]),
    /// What follows the last LF, as it is. It is not empty.
    Last(&'a [u8]),
    /// It has more bytes than a line may have, a CR at its end counted.
    TooLong,
}

/// A line without the one CR at its end, if it has one.
pub fn without_return(line: &[u8]) -> &[u8]
    ensures { result.now ≡ without_cr line.now }
{
    match line.strip_suffix(b"\r") {
        Some(before) => before,
        None => line,
    }
}
