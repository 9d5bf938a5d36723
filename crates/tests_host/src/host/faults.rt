//! Requests that no host is made for.

use crate::compare::same;
use crate::host::requests::{Asked, OTHER_FORMS, request_of};
use pmb_host::{Host, HostFault};
use pmb_table::{Profile, SAMPLE};
use pmb_value::{ModeFault, RangeFault};
use pmb_writer::Invalid;
use std::process::Abort;
use std::test::Fail;

/// A request, and its first fault.
type Row = (Asked, HostFault);

/// Under the sample profile.
fn sample_rows() -> [Row; 30] {
    [
        (Asked::Write(&[]), HostFault::Invalid(Invalid::NoParts)),
        (
            Asked::Write(&[(0x58, 0x21, &[0], false)]),
            HostFault::Invalid(Invalid::WrongLength),
        ),
        (
            Asked::Read(0x20, 0x88, false),
            HostFault::Invalid(Invalid::UnknownDevice),
        ),
        (
            Asked::Read(0x58, 0xc8, false),
            HostFault::Invalid(Invalid::UnknownCommand),
        ),
        (
            Asked::Read(0x58, 0x03, false),
            HostFault::Invalid(Invalid::NotAllowed),
        ),
        (
            Asked::Read(0x5a, 0x88, false),
            HostFault::Invalid(Invalid::PecMode),
        ),
        (
            Asked::Call(0x58, 0x88, &[], false),
            HostFault::Invalid(Invalid::NotAllowed),
        ),
        (
            Asked::Get(0x20, 0x88, None, false),
            HostFault::Invalid(Invalid::UnknownDevice),
        ),
        (
            Asked::Get(0x58, 0xc8, None, false),
            HostFault::Invalid(Invalid::UnknownCommand),
        ),
        (
            Asked::Set(0x58, 0x88, b"12", None, false),
            HostFault::Invalid(Invalid::NotAllowed),
        ),
        (
            Asked::Set(0x58, 0x03, b"12", None, false),
            HostFault::Invalid(Invalid::NotAllowed),
        ),
        (Asked::Get(0x58, 0x99, None, false), HostFault::NotAQuantity),
        (Asked::Get(0x5a, 0x99, None, false), HostFault::NotAQuantity),
        (
            Asked::Get(0x5a, 0x88, None, false),
            HostFault::Invalid(Invalid::PecMode),
        ),
        (
            Asked::Set(0x58, 0x21, b"1", None, false),
            HostFault::ModeUnknown,
        ),
        (
            Asked::Set(0x58, 0x21, b"1", Some(0x97), false),
            HostFault::Mode(ModeFault::Relative),
        ),
        (
            Asked::Set(0x58, 0x21, b"-1", Some(0x14), false),
            HostFault::Range(RangeFault::Below),
        ),
        (
            Asked::Set(0x58, 0x21, b"100", Some(0x14), false),
            HostFault::Range(RangeFault::Above),
        ),
        (
            Asked::Write(&[(0x58, 0x03, &[], false), (0x58, 0x03, &[], false)]),
            HostFault::Invalid(Invalid::AddressTwice),
        ),
        (
            Asked::Write(&[(0x58, 0x03, &[], false), (0x59, 0x03, &[], true)]),
            HostFault::Invalid(Invalid::PecMode),
        ),
        (
            Asked::Write(&[(0x58, 0x88, &[0, 0], false)]),
            HostFault::Invalid(Invalid::NotAllowed),
        ),
        (
            Asked::Call(0x59, 0x1b, &[0x7a], true),
            HostFault::Invalid(Invalid::PecMode),
        ),
        (
            Asked::Get(0x58, 0x03, None, false),
            HostFault::Invalid(Invalid::NotAllowed),
        ),
        (Asked::Get(0x58, 0x8b, None, false), HostFault::ModeUnknown),
        (
            Asked::Get(0x58, 0x22, Some(0x20), false),
            HostFault::Mode(ModeFault::Vid),
        ),
        (
            Asked::Set(0x58, 0x21, b"1", Some(0x60), false),
            HostFault::Mode(ModeFault::Ieee),
        ),
        (
            Asked::Get(0x58, 0x21, Some(0x40), false),
            HostFault::Mode(ModeFault::NoCoefficients),
        ),
        // That a command is no number comes before the packet error code, and that before the mode.
        (
            Asked::Set(0x5a, 0x7e, b"1", None, false),
            HostFault::NotAQuantity,
        ),
        (
            Asked::Set(0x5a, 0x21, b"1", None, false),
            HostFault::Invalid(Invalid::PecMode),
        ),
        (
            Asked::Set(0x58, 0x46, b"33521665", None, false),
            HostFault::Range(RangeFault::Above),
        ),
    ]
}

/// Under the profile of other forms.
fn other_rows() -> [Row; 9] {
    [
        (
            Asked::Set(0x10, 0xe0, b"1", None, false),
            HostFault::Invalid(Invalid::NotAllowed),
        ),
        (
            Asked::Call(0x10, 0xe1, &[1], false),
            HostFault::Invalid(Invalid::WrongLength),
        ),
        (
            Asked::Call(0x10, 0xe1, &[1, 2], true),
            HostFault::Invalid(Invalid::PecMode),
        ),
        (
            Asked::Set(0x10, 0x35, b"128", None, false),
            HostFault::Range(RangeFault::Above),
        ),
        (
            Asked::Set(0x10, 0x35, b"-128.1", None, false),
            HostFault::Range(RangeFault::Below),
        ),
        (
            Asked::Set(0x10, 0xe2, b"65505", None, false),
            HostFault::Range(RangeFault::Above),
        ),
        (
            Asked::Set(0x10, 0xe3, b"2", None, false),
            HostFault::Range(RangeFault::Above),
        ),
        // The code that is off stands for no voltage.
        (
            Asked::Set(0x10, 0xe3, b"0", None, false),
            HostFault::Range(RangeFault::Below),
        ),
        (
            Asked::Set(0x10, 0xe3, b"0.249", None, false),
            HostFault::Range(RangeFault::Below),
        ),
    ]
}

/// Whether each request has the fault of its row.
fn check_rows(rt: &impl Abort, profile: &Profile, rows: &[Row]) -> Result<(), Fail> {
    for &(asked, expected) in rows {
        let request = request_of(asked).ok_or("request")?;
        match Host::new(profile, request) {
            Ok(_) => return Err("a host was made".into()),
            Err(fault) => same(rt, asked, fault, expected),
        }
    }
    Ok(())
}

#[test]
fn each_request_has_its_first_fault(rt: HostRuntime) -> Result<(), Fail> {
    let profile = Profile::from_toml(rt.alloc(), SAMPLE.as_bytes()).map_err(|_| "profile")?;
    check_rows(&rt, &profile, &sample_rows())
}

#[test]
fn other_forms_have_theirs(rt: HostRuntime) -> Result<(), Fail> {
    let profile = Profile::from_toml(rt.alloc(), OTHER_FORMS.as_bytes()).map_err(|_| "profile")?;
    check_rows(&rt, &profile, &other_rows())
}
