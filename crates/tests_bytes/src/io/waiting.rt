//! Text that waits for a writer, and is sent where there is no room after it.

use crate::compare::same;
use pmb_io::{Failing, Io, ROOM, RunFault, Waiting, make_room, put, send};
use std::io;

#[test]
fn what_waits_is_sent_where_there_is_no_room(rt: HostRuntime) -> io::Result<()> {
    let text = vec![in rt.alloc(); b'a'; 20_000]?;
    let full = vec![in rt.alloc(); b'd'; ROOM]?;
    let mut waiting = Waiting::new();
    let mut writer = Io::new(Vec::new(rt.alloc()));
    same(
        &rt,
        "20,000 bytes wait",
        put(&mut waiting, text.as_slice(), &mut writer),
        Ok(()),
    );
    same(
        &rt,
        "there is room",
        make_room(&mut waiting, ROOM - 20_000, &mut writer),
        Ok(()),
    );
    same(&rt, "they are kept", waiting.len(), 20_000);
    same(
        &rt,
        "one byte too much",
        make_room(&mut waiting, ROOM - 19_999, &mut writer),
        Ok(()),
    );
    same(&rt, "all is sent", waiting.len(), 0);
    same(
        &rt,
        "two bytes",
        put(&mut waiting, b"bc", &mut writer),
        Ok(()),
    );
    same(
        &rt,
        "a whole room",
        put(&mut waiting, full.as_slice(), &mut writer),
        Ok(()),
    );
    same(&rt, "only the room waits", waiting.len(), ROOM);
    same(
        &rt,
        "the rest is sent",
        send(&mut waiting, &mut writer),
        Ok(()),
    );
    same(&rt, "none waits", waiting.len(), 0);
    let written = writer.into_inner();
    same(&rt, "bytes written", written.len(), 20_002 + ROOM);
    same(
        &rt,
        "the seam",
        written.as_slice().get(19_999..20_003),
        Some(b"abcd".as_slice()),
    );
    Ok(())
}

#[test]
fn what_can_not_be_sent_waits(rt: HostRuntime) -> io::Result<()> {
    let full = vec![in rt.alloc(); b'd'; ROOM]?;
    let mut waiting = Waiting::new();
    let mut writer = Failing::new(Io::new(Vec::new(rt.alloc())));
    writer.fail_after(0);
    same(
        &rt,
        "three bytes",
        put(&mut waiting, b"abc", &mut writer),
        Ok(()),
    );
    same(
        &rt,
        "no room",
        make_room(&mut waiting, ROOM, &mut writer),
        Err(RunFault::Write),
    );
    same(
        &rt,
        "no room for more",
        put(&mut waiting, full.as_slice(), &mut writer),
        Err(RunFault::Write),
    );
    same(
        &rt,
        "not sent",
        send(&mut waiting, &mut writer),
        Err(RunFault::Write),
    );
    same(
        &rt,
        "they wait still",
        waiting.as_slice(),
        b"abc".as_slice(),
    );
    Ok(())
}
