//! What stops a run, and the line that says so.
//!
//! Its rows: `tests/files/rows.txt`.

ghost use Rattle.std.specs.Prelude.{◌≡◌, ◌≢◌, ◌++◌, ◌⊎◌, [], OnOk, IfOk, MatchResult, codes};
ghost use Rattle.std.specs.Fmt.{decimal};
ghost use Rattle.pmb_args.specs.ExitStatus.{IsTold};
ghost use Rattle.pmb_json_text.specs.Spelling.{all_escaped};
ghost use Rattle.pmb_files.specs.Faults.{IsReported, IsSaid, SaysFault, command_line, file_line};

use crate::file_fault::FileFault;
use crate::joined::ReadFailure;
use arrayvec::{ArrayString, ArrayVec};
use pmb_args::{ExitStatus, report};
use pmb_io::{Sink, ToolFault};
use pmb_log_data::append_escaped;
use std::alloc::{AllocError, Global};
use std::fmt::Write;
use std::io::{self, ErrorKind};

// A line about a file. In its name each byte that is not printable ASCII, and `"` and `\`, is `\u00` and
// its two digits.
fn file_line(alloc: Global, name: &str, what: &str) -> Result<Vec<u8>, AllocError>
    ensures { IfOk result (λ line. line.items ≡ file_line name.now what.now) }
{
    let mut line = Vec::new(alloc);
    line.extend_from_slice(b"pmb: ")?;
    append_name(&mut line, name)?;
    line.extend_from_slice(b": ")?;
    line.extend_from_slice(what.as_bytes())?;
    line.push(b'\n')?;
    Ok(line)
}

/// Appends a name, so that it stays in its line.
pub(crate) fn append_name(line: &mut Vec<u8>, name: &str) -> Result<(), AllocError>
    ensures { OnOk result (line.new.items ≡ line.old.items ++ all_escaped name.now) }
{
    for byte in name.as_bytes() {
        let mut piece = ArrayVec::<u8, 6>::new();
        append_escaped(&mut piece, &[*byte]);
        line.extend_from_slice(piece.as_slice())?;
    }
    Ok(())
}

/// Reports on `err` that a file can't be read, and returns the exit status.
pub(crate) fn report_file<E: Sink>(
    alloc: Global,
    name: &str,
    fault: FileFault,
    err: &mut E,
) -> ExitStatus
    ensures { IsReported (SaysFault name.now fault) (E.told err.old) (E.told err.new) result }
{
    match fault {
        FileFault::NoSuchFile => report_line(file_line(alloc, name, "no such file"), err),
        FileFault::IsDirectory => report_line(file_line(alloc, name, "is a directory"), err),
        FileFault::PermissionDenied => report_line(
            file_line(alloc, name, "permission denied"),
            err,
        ),
        FileFault::Other(error) => {
            report_line(file_line(alloc, name, cause(error).as_str()), err)
        }
    }
}

/// Reports on `err` that a profile is too long, and returns the exit status.
pub(crate) fn report_too_long<E: Sink>(alloc: Global, profile: &str, err: &mut E) -> ExitStatus
    ensures { IsReported (IsSaid (file_line profile.now (codes "profile too long"))) (E.told err.old) (E.told err.new) result }
{
    report_line(file_line(alloc, profile, "profile too long"), err)
}

/// Reports on `err` that a profile has a line `%%`, and returns the exit status.
pub(crate) fn report_mark<E: Sink>(
    alloc: Global,
    profile: &str,
    line: u64,
    err: &mut E,
) -> ExitStatus
    ensures { IsReported (IsSaid (file_line profile.now (codes "line " ++ (decimal line ++ codes " is %%")))) (E.told err.old) (E.told err.new) result }
{
    let mut number = itoa::Buffer::new();
    let mut what = ArrayString::<64>::new();
    what.push_str("line ");
    what.push_str(number.format(line));
    what.push_str(" is %%");
    report_line(file_line(alloc, profile, what.as_str()), err)
}

/// Reports on `err` that the words of a subcommand contradict each other, and returns the exit status.
pub(crate) fn report_command<E: Sink>(
    alloc: Global,
    name: &str,
    what: &str,
    err: &mut E,
) -> ExitStatus
    ensures { IsReported (IsSaid (command_line name.now what.now)) (E.told err.old) (E.told err.new) result }
{
    report_line(command_line(alloc, name, what), err)
}

/// Reports on `err` why reading a profile failed, and returns the exit status.
pub(crate) fn report_failure<E: Sink>(
    alloc: Global,
    failure: Option<ReadFailure<'_>>,
    err: &mut E,
) -> ExitStatus
    ensures told { IsTold (E.told err.old) (E.told err.new) }
    ensures status { (result ≡ ExitStatus.IoFailed) ⊎ (result ≡ ExitStatus.NoMemory) }
{
    let Some(failure) = failure else {
        return report(ToolFault::Read, err);
    };
    match failure_line(alloc, failure) {
        Ok(line) => {
            let _ = err.write_all(line.as_slice());
            ExitStatus::IoFailed
        }
        Err(_) => report(ToolFault::Memory, err),
    }
}

/// The line that says why reading a file failed, and where.
pub(crate) fn failure_line(alloc: Global, failure: ReadFailure<'_>) -> Result<Vec<u8>, AllocError>
    ensures { IfOk result (λ line. line.items ≢ []) }
{
    let mut what = ArrayString::<96>::new();
    what.push_str("read failed: ");
    let _ = what.try_push_str(cause(failure.cause).as_str());
    file_line(alloc, failure.name, what.as_str())
}

/// A text that the tool wrote of a fault, with a file's name in it: after `pmb: `, or before the text.
pub(crate) fn named_line(alloc: Global, name: &str, text: &[u8]) -> Result<Vec<u8>, AllocError>
    ensures { IfOk result (λ line. line.items ≢ []) }
{
    let mut line = Vec::new(alloc);
    line.extend_from_slice(b"pmb: ")?;
    append_name(&mut line, name)?;
    line.extend_from_slice(b": ")?;
    line.extend_from_slice(text.strip_prefix(b"pmb: ").unwrap_or(text))?;
    Ok(line)
}

/// Lines, in each of which that begins with `pmb: ` a file's name comes after that.
pub(crate) fn named_lines(alloc: Global, name: &str, text: &[u8]) -> Result<Vec<u8>, AllocError> {
    let mut lines = Vec::new(alloc);
    for line in text.split_inclusive(|byte| *byte == b'\n') {
        if line.starts_with(b"pmb: ") {
            lines.extend_from_slice(named_line(alloc, name, line)?.as_slice())?;
        } else {
            lines.extend_from_slice(line)?;
        }
    }
    Ok(lines)
}

// A line about a subcommand.
fn command_line(alloc: Global, name: &str, what: &str) -> Result<Vec<u8>, AllocError>
    ensures { IfOk result (λ line. line.items ≡ command_line name.now what.now) }
{
    let mut line = Vec::new(alloc);
    line.extend_from_slice(b"pmb: ")?;
    line.extend_from_slice(name.as_bytes())?;
    line.extend_from_slice(b": ")?;
    line.extend_from_slice(what.as_bytes())?;
    line.push(b'\n')?;
    Ok(line)
}

// What the system says of a file, in words. These are the errors of Linux for which there are words.
fn cause(error: io::Error) -> ArrayString<64> {
    let mut words = ArrayString::new();
    let _ = match error.kind() {
        ErrorKind::NotFound => words.try_push_str("no such file"),
        ErrorKind::IsADirectory => words.try_push_str("is a directory"),
        ErrorKind::PermissionDenied => words.try_push_str("permission denied"),
        _ => words.try_push_str(system_words(error.raw_os_error().unwrap_or(0))),
    };
    if words.is_empty() {
        let _ = write!(words, "system error {}", error.raw_os_error().unwrap_or(0));
    }
    words
}

// The words of an error of Linux by its number, or none.
fn system_words(code: i32) -> &'static str {
    match code {
        5 => "input/output error",
        20 => "not a directory",
        23 | 24 => "too many open files",
        36 => "name too long",
        40 => "too many symbolic links",
        _ => "",
    }
}

// Reports a line, and returns the exit status of bad arguments, or where there was no memory for the
// line, of that.
fn report_line<E: Sink>(line: Result<Vec<u8>, AllocError>, err: &mut E) -> ExitStatus
    ensures { MatchResult line (λ line. IsReported (IsSaid line.items) (E.told err.old) (E.told err.new) result) (λ _. (result ≡ ExitStatus.NoMemory) × IsTold (E.told err.old) (E.told err.new)) }
{
    match line {
        Ok(line) => {
            let _ = err.write_all(line.as_slice());
            ExitStatus::BadArguments
        }
        Err(_) => report(ToolFault::Memory, err),
    }
}
