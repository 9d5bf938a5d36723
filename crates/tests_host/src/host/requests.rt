//! Requests in words, for rows of tests.

use arrayvec::ArrayVec;
use pmb_host::Request;
use pmb_transaction::Part;
use pmb_value::Quantity;

/// A command that is written without data and read as a number, one that is called with two bytes,
/// one in half precision, one in VID codes, and one in LINEAR11 with one exponent.
pub(crate) const OTHER_FORMS: &str = "[[device]]\naddress = 0x10\npec = \"off\"\n\
                                      [[device.command]]\ncode = 0xe0\nwrite = \"zero\"\nread = \"two\"\nkind = \"linear11\"\n\
                                      [[device.command]]\ncode = 0xe1\ncall = \"two\"\n\
                                      [[device.command]]\ncode = 0xe2\nwrite = \"two\"\nread = \"two\"\nkind = \"half\"\n\
                                      [[device.command]]\ncode = 0xe3\nwrite = \"two\"\nread = \"two\"\nkind = \"vid:vr12\"\n\
                                      [[device.command]]\nname = \"VIN_ON\"\nexponent = -3\n";

/// A request of a row.
#[derive(Clone, Copy, Debug)]
pub(crate) enum Asked {
    /// One byte or more after a code, to each of some addresses.
    Write(&'static [(u8, u8, &'static [u8], bool)]),
    Read(u8, u8, bool),
    Call(u8, u8, &'static [u8], bool),
    Set(u8, u8, &'static [u8], Option<u8>, bool),
    Get(u8, u8, Option<u8>, bool),
}

pub(crate) fn bytes_of(items: &[u8]) -> ArrayVec<u8, 255> {
    let mut bytes = ArrayVec::new();
    let _ = bytes.try_extend_from_slice(items);
    bytes
}

pub(crate) fn parts_of(items: &[(u8, u8, &'static [u8], bool)]) -> ArrayVec<Part, 16> {
    let mut parts = ArrayVec::new();
    for &(addr, code, bytes, pec) in items {
        let bytes = bytes_of(bytes);
        let _ = parts.try_push(Part {
            addr,
            code,
            bytes,
            pec,
        });
    }
    parts
}

/// The request; none where its quantity is no quantity's text.
pub(crate) fn request_of(asked: Asked) -> Option<Request> {
    match asked {
        Asked::Write(parts) => Some(Request::Write {
            parts: parts_of(parts),
        }),
        Asked::Read(addr, code, pec) => Some(Request::Read { addr, code, pec }),
        Asked::Call(addr, code, bytes, pec) => Some(Request::Call {
            addr,
            code,
            bytes: bytes_of(bytes),
            pec,
        }),
        Asked::Set(addr, code, text, mode, pec) => {
            let value = Quantity::parse(text).ok()?;
            Some(Request::Set {
                addr,
                code,
                value,
                mode,
                pec,
            })
        }
        Asked::Get(addr, code, mode, pec) => Some(Request::Get {
            addr,
            code,
            mode,
            pec,
        }),
    }
}
