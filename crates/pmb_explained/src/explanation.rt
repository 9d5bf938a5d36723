//! What is written of a run's faults.

ghost use Rattle.pmb_explained.specs.Grown.{Grew};

use arrayvec::ArrayString;
use pmb_io::Sink;

/// What is written of a run's faults: at most sixteen of them are explained.
pub type Explanation = ArrayString<16384>;

/// Adds a text, if it fits.
pub(crate) fn add(text: &mut Explanation, more: &str) {
    let _ = text.try_push_str(more);
}

/// Writes a text that explains faults. If that fails, no line says so.
pub fn write_text<E: Sink>(text: &[u8], err: &mut E)
    ensures { Grew (E.told err.old) (E.told err.new) }
{
    let _ = err.write_all(text);
}
