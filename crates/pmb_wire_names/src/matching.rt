//! Whether a name is the one that is looked for.

ghost use Rattle.std.specs.Prelude.{◌≡◌};
ghost use Rattle.pmb_wire_names.specs.Matching.{begins, has_word, is_behind_point, is_named, is_word, last_part, lower};

/// Whether a name, or what stands behind a `.` of it, is the wanted one.
pub(crate) fn is_wanted(wanted: &[u8], name: &[u8]) -> bool
    ensures { result ≡ is_named wanted.now name.now }
{
    name == wanted || stands_behind_point(wanted, name)
}

fn stands_behind_point(wanted: &[u8], name: &[u8]) -> bool
    ensures { result ≡ is_behind_point wanted.now name.now }
{
    let mut left = name;
    while let [byte, rest @ ..] = left {
        if *byte == b'.' && rest == wanted {
            return true;
        }
        left = rest;
    }
    false
}

/// What stands behind the last `.` of a name: all of it where there is none.
fn part_of(name: &[u8]) -> &[u8]
    ensures { result.now ≡ last_part name.now }
{
    let mut part = name;
    let mut left = name;
    while let [byte, rest @ ..] = left {
        if *byte == b'.' {
            part = rest;
        }
        left = rest;
    }
    part
}

/// Whether the last part of a name is a word, in any case of letters.
pub(crate) fn ends_in_word(word: &[u8], name: &[u8]) -> bool
    ensures { result ≡ is_word word.now (last_part name.now) }
{
    let part = part_of(name);
    part.len() == word.len() && begins_with(word, part)
}

/// Whether the last part of a name contains a word, in any case of letters.
pub(crate) fn ends_with_word(word: &[u8], name: &[u8]) -> bool
    ensures { result ≡ has_word word.now (last_part name.now) }
{
    let mut left = part_of(name);
    while let [_, rest @ ..] = left {
        if begins_with(word, left) {
            return true;
        }
        left = rest;
    }
    false
}

/// Whether a text begins with a word, in any case of letters.
fn begins_with(word: &[u8], text: &[u8]) -> bool
    ensures { result ≡ begins word.now text.now }
{
    let mut word_left = word;
    let mut left = text;
    while let [letter, others @ ..] = word_left {
        let [byte, rest @ ..] = left else {
            return false;
        };
        if small(*byte) != *letter {
            return false;
        }
        word_left = others;
        left = rest;
    }
    true
}

/// A letter as a small one; another byte as it is.
fn small(byte: u8) -> u8
    ensures { result ≡ lower byte }
{
    match byte {
        b'A'..=b'Z' => byte + 32,
        _ => byte,
    }
}
