//! Laws over the definitions alone, by what they are about.

ghost use Rattle.std.specs.Prelude.{◌≡◌, Some};
ghost use Rattle.pmb_cli.specs.JsonOutput.{TellsBytes};

pub use pmb_args::laws::{fact_words_ask, stats_words_ask, words_ask};
use pmb_io::{Io, Source};
pub use pmb_preamble::laws::{one_front, one_limit};

/// A reader over a slice tells its bytes, each below 256: so what [`tool`](crate::tool) says of lines of
/// JSON holds of each run over input in memory.
pub fn slices_tell_bytes<'b>(bytes: &'b [u8]) -> Io<&'b [u8]>
    ensures bytes { (⟦<Io<&'b [u8]> as Source>⟧.told result).left ≡ Some bytes.now }
    ensures tells { TellsBytes (⟦<Io<&'b [u8]> as Source>⟧.told result) }
{
    let reader = Io::new(bytes);
    reader
}
