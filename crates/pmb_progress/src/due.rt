//! When the line of progress is written.

ghost use Rattle.std.specs.Prelude.{◌≡◌};
ghost use Rattle.pmb_progress.specs.Due.{is_due};

/// How long reading takes at least before the first line, in milliseconds.
const FIRST: u64 = 2000;

/// How long a line stays at least.
const BETWEEN: u64 = 200;

/// Whether the line is written: so long after reading began or output was seen last, and so long after the line was
/// written last, both in milliseconds.
pub fn is_due(reading: u64, shown: u64) -> bool
    ensures { result ≡ is_due reading shown }
{
    reading >= FIRST && shown >= BETWEEN
}
