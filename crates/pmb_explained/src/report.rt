//! A line of the program's output that reports a fault.
//!
//! Its rows: `tests/rows/explanations.txt`.

use arrayvec::ArrayString;
use pmb_explain::is_explained;
use pmb_words::decimal;

/// What a line reports.
#[derive(Clone, Copy, Default, PartialEq, Eq)]
pub(crate) enum Where {
    /// An event of a capture, from 0: `# refusal at 12: BadPec, expected Byte`.
    Event(u64),
    /// A byte of a capture, from 0: `# bad token at byte 5`.
    Byte(u64),
    /// A line of the input, from 1, and a byte of it where there is one: `# line 1: BadWord at 9`.
    Line(u64, Option<u64>),
    /// The line of the input that has the number of this line of the output: `! BadCode`.
    Same,
    /// A word of a capture by its line and column, from 1: `no token: 0xb0 at line 1 column 3`.
    Column(u64, u64),
    /// A request before: `# refused: leg 1 byte 2`, `# NoByte`.
    #[default]
    Request,
    /// A line on standard error, of words: `pmb: format: BadFormat`.
    Words,
    /// .. of a profile: `pmb: profile: BadName in device 0`.
    Profile,
}

/// The name of a fault, and where it is.
#[derive(Clone, Copy, Default)]
pub(crate) struct Report {
    pub(crate) name: ArrayString<32>,
    pub(crate) place: Where,
    /// Of a protocol error the kinds of events that were expected.
    pub(crate) expected: ArrayString<48>,
}

/// What a line of the output reports, without its LF, if it reports a fault.
pub(crate) fn report_of(line: &[u8]) -> Option<Report> {
    let text = std::str::from_utf8(line).ok()?;
    if let Some(rest) = text.strip_prefix("! ") {
        return named(rest, Where::Same);
    }
    if let Some(rest) = text.strip_prefix("# refusal at ") {
        let (number, rest) = rest.split_once(": ")?;
        let (name, expected) = rest.split_once(", expected ")?;
        let mut report = named(name, Where::Event(number_of(number)?))?;
        let _ = report.expected.try_push_str(expected);
        return Some(report);
    }
    if let Some(number) = text.strip_prefix("# bad token at byte ") {
        return named("BadToken", Where::Byte(number_of(number)?));
    }
    if let Some(rest) = text.strip_prefix("# line ") {
        let (number, rest) = rest.split_once(": ")?;
        let number = number_of(number)?;
        return match rest.split_once(" at ") {
            Some((name, at)) => named(name, Where::Line(number, number_of(at))),
            None => named(rest, Where::Line(number, None)),
        };
    }
    if text.starts_with("# refused: ") {
        return named("refused", Where::Request);
    }
    match text {
        "# BadPec" => named("BadPec", Where::Request),
        "# NoByte" => named("NoByte", Where::Request),
        _ => fault_of_words(text),
    }
}

/// What a line of `log` reports: `no token: 0xb0 at line 1 column 3`, after its columns.
pub(crate) fn word_of_log(line: &[u8]) -> Option<Report> {
    let text = std::str::from_utf8(line).ok()?;
    let (_, rest) = text.split_once("no token: ")?;
    let (_, rest) = rest.split_once(" at line ")?;
    let (line, column) = rest.split_once(" column ")?;
    named(
        "BadToken",
        Where::Column(number_of(line)?, number_of(column)?),
    )
}

/// What a line on standard error reports: `pmb: format: BadFormat`, `pmb: profile: BadName in device 0`.
fn fault_of_words(text: &str) -> Option<Report> {
    let rest = text.strip_prefix("pmb: ")?;
    let (subject, rest) = rest.split_once(": ")?;
    let place = if subject == "profile" {
        Where::Profile
    } else {
        Where::Words
    };
    named(rest.split(' ').next().unwrap_or(rest), place)
}

/// A report by a name, if that is one of a fault.
fn named(name: &str, place: Where) -> Option<Report> {
    if !is_explained(name) {
        return None;
    }
    let mut kept = ArrayString::new();
    kept.try_push_str(name).ok()?;
    Some(Report {
        name: kept,
        place,
        expected: ArrayString::new(),
    })
}

/// The number that some digits write.
pub(crate) fn number_of(digits: &str) -> Option<u64> {
    decimal(digits.as_bytes())
}
