//! Values that are words of the command line, as lines.
//!
//! Its rows: `tests/files/rows.txt`.

ghost use Rattle.std.specs.Prelude.{◌≡◌, ◌++◌, IfOk, OnOk, codes, map};
ghost use Rattle.pmb_files.specs.Values.{in_line, value_line, values_text, without_0x};

use std::alloc::{AllocError, Global};

/// The lines of values, each with its LF. `0x` in front of a value is dropped.
pub(crate) fn values_text(alloc: Global, words: &[&str]) -> Result<Vec<u8>, AllocError>
    ensures { IfOk result (λ text. text.items ≡ values_text (map (λ word. word.now) words.now)) }
{
    let mut text = Vec::new(alloc);
    for word in words {
        append_line(&mut text, without_0x(word.as_bytes()))?;
    }
    Ok(text)
}

// Appends a line. An LF in it becomes a blank, so that a word stays one line.
fn append_line(text: &mut Vec<u8>, word: &[u8]) -> Result<(), AllocError>
    ensures { OnOk result (text.new.items ≡ text.old.items ++ (map in_line word.now ++ codes "\n")) }
{
    for byte in word {
        text.push(in_line(*byte))?;
    }
    text.push(b'\n')?;
    Ok(())
}

// A byte as it stands in a line.
fn in_line(byte: u8) -> u8
    ensures { result ≡ in_line byte }
{
    if byte == b'\n' { b' ' } else { byte }
}

// A word without `0x` in front.
fn without_0x(word: &[u8]) -> &[u8]
    ensures { result.now ≡ without_0x word.now }
{
    match word {
        [first, second, more @ ..] if *first == b'0' && (*second == b'x' || *second == b'X') =>
            more,
        _ => word,
    }
}
