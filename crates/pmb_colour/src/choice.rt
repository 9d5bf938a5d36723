//! Whether there is colour.

ghost use Rattle.std.specs.Prelude.{◌≡◌, option_map};
ghost use Rattle.pmb_colour.specs.Choice.{choice_of, has_colour, is_dumb, refuses, takes_colour};

/// What `--color` asks for.
#[derive(Clone, Copy, Debug, PartialEq, Eq)]
pub enum Choice {
    /// Colour where standard output is a terminal that takes it. So it is without the flag.
    Auto,
    Always,
    Never,
}

/// What standard output is.
#[derive(Clone, Copy, Debug, PartialEq, Eq)]
pub enum Output {
    Terminal,
    /// A file, a pipe or the like.
    Other,
}

/// The choice that a word names.
pub fn choice_of(word: &[u8]) -> Option<Choice>
    ensures { result ≡ choice_of word.now }
{
    if word == b"auto".as_slice() {
        Some(Choice::Auto)
    } else if word == b"always".as_slice() {
        Some(Choice::Always)
    } else if word == b"never".as_slice() {
        Some(Choice::Never)
    } else {
        None
    }
}

/// Whether there is colour, by the values of NO_COLOR and TERM too, where these are set.
pub fn has_colour(
    choice: Choice,
    output: Output,
    no_color: Option<&str>,
    term: Option<&str>,
) -> bool
    ensures { result ≡ has_colour choice output (option_map (λ value. value.now) no_color.entry) (option_map (λ value. value.now) term.entry) }
{
    match choice {
        Choice::Auto => takes_colour(output, no_color, term),
        Choice::Always => true,
        Choice::Never => false,
    }
}

fn takes_colour(output: Output, no_color: Option<&str>, term: Option<&str>) -> bool
    ensures { result ≡ takes_colour output (option_map (λ value. value.now) no_color.entry) (option_map (λ value. value.now) term.entry) }
{
    match output {
        Output::Terminal => !refuses(no_color) && !is_dumb(term),
        Output::Other => false,
    }
}

/// Whether NO_COLOR is set, and not empty.
fn refuses(no_color: Option<&str>) -> bool
    ensures { result ≡ refuses (option_map (λ value. value.now) no_color.entry) }
{
    match no_color {
        Some(value) => !value.is_empty(),
        None => false,
    }
}

/// Whether TERM is that of a terminal without sequences.
fn is_dumb(term: Option<&str>) -> bool
    ensures { result ≡ is_dumb (option_map (λ value. value.now) term.entry) }
{
    match term {
        Some(term) => term == "dumb",
        None => false,
    }
}
