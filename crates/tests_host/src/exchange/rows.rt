//! Requests, one after the other on one bus.

use crate::compare::{ensure, same};
use arrayvec::ArrayVec;
use plain_packets::part;
use pmb_bus::event_text;
use pmb_devices::Bus;
use pmb_exchange::{Exchange, ExchangeStep};
use pmb_host::{Host, HostFault, HostStep, Reply, Request};
use pmb_table::{Profile, SAMPLE};
use pmb_value::Quantity;
use std::alloc::{AllocError, Global};
use std::test::Fail;

/// A part without a packet error code: an address, a code, and data.
type Plain = (u8, u8, &'static [u8]);

/// How a request ends.
#[derive(Clone, Copy)]
enum End {
    Written,
    Bytes(&'static [u8]),
    Whole(i64),
    RefusedAt(u8, u16),
    RefusedRead,
}

fn write(plain: &[Plain]) -> Request {
    let mut parts = ArrayVec::new();
    for &(addr, code, data) in plain {
        let _ = parts.try_push(part(addr, code, data, false));
    }
    Request::Write { parts }
}

fn call(addr: u8, code: u8, data: &[u8]) -> Request {
    let mut bytes = ArrayVec::new();
    let _ = bytes.try_extend_from_slice(data);
    Request::Call {
        addr,
        code,
        bytes,
        pec: false,
    }
}

/// Whether a host ended so.
fn is_end(step: &HostStep, end: End) -> bool {
    match (step, end) {
        (HostStep::Done(Reply::Written), End::Written) => true,
        (HostStep::Done(Reply::Bytes(bytes)), End::Bytes(wanted)) => bytes.as_slice() == wanted,
        (HostStep::Done(Reply::Value(value)), End::Whole(number)) => {
            Quantity::new(number, 1) == Ok(*value)
        }
        (HostStep::Failed(fault), End::RefusedAt(leg, byte)) => {
            let at_read = false;
            *fault == HostFault::Refused { leg, byte, at_read }
        }
        (HostStep::Failed(fault), End::RefusedRead) => {
            let (leg, byte, at_read) = (2, 0, true);
            *fault == HostFault::Refused { leg, byte, at_read }
        }
        _ => false,
    }
}

/// Runs a request to its end: whether it ended so, twice in a row, and the text of what was recorded.
fn run<'p>(
    alloc: Global,
    profile: &'p Profile,
    bus: &mut Bus<'p>,
    request: Request,
    end: End,
) -> Result<(bool, Vec<u8>), AllocError> {
    let mut text = Vec::new(alloc);
    let Ok(host) = Host::new(profile, request) else {
        return Ok((false, text));
    };
    let mut exchange = Exchange::new(host);
    for _ in 0..4162 {
        match exchange.next(bus) {
            ExchangeStep::Recorded(recorded) => {
                for event in recorded.events() {
                    text.extend_from_slice(event_text(*event).as_bytes())?;
                }
            }
            ExchangeStep::End(step) => {
                let again = match exchange.next(bus) {
                    ExchangeStep::End(step) => is_end(&step, end),
                    ExchangeStep::Recorded(_) => false,
                };
                return Ok((again && is_end(&step, end), text));
            }
        }
    }
    Ok((false, text))
}

#[test]
fn requests_are_run_as_told(rt: HostRuntime) -> Result<(), Fail> {
    let profile = Profile::from_toml(rt.alloc(), SAMPLE.as_bytes())?;
    let mut bus = Bus::new(rt.alloc(), &profile)?;
    let read_cml = Request::Read {
        addr: 0x58,
        code: 0x7e,
        pec: false,
    };
    let get_vin = Request::Get {
        addr: 0x58,
        code: 0x88,
        mode: None,
        pec: true,
    };
    let rows = [
        (
            write(&[(0x58, 0x00, &[0x00])]),
            "S b0 A 00 A 00 A P\n",
            End::Written,
        ),
        (
            write(&[(0x58, 0x00, &[0x05])]),
            "S b0 A 00 A 05 N P\n",
            End::RefusedAt(1, 2),
        ),
        (read_cml, "S b0 A 7e A S b1 A 40 N P\n", End::Bytes(&[0x40])),
        (
            write(&[(0x59, 0x03, &[]), (0x58, 0x00, &[0x02])]),
            "S b2 A 03 A S b0 A 00 A 02 N P\n",
            End::RefusedAt(2, 2),
        ),
        (
            call(0x58, 0x06, &[0x01]),
            "S b0 A 06 A 01 A 01 A S b1 N P\n",
            End::RefusedRead,
        ),
        (
            get_vin,
            "S b0 A 88 A S b1 A 00 A d3 A f6 N P\n",
            End::Whole(12),
        ),
    ];
    for (request, wanted, end) in rows {
        let (ended, text) = run(rt.alloc(), &profile, &mut bus, request, end)?;
        same(&rt, wanted, text.as_slice(), wanted.as_bytes());
        ensure(&rt, wanted, ended);
    }
    Ok(())
}
