//! A first profile, and the board of a part.

use pmb_draft::write_draft;
use pmb_io::Io;
use pmb_parts::{Part, about, board};
use std::test::Fail;

/// The row `a word is written` of `tests/rows/scan.txt`.
#[test]
fn a_first_profile_is_written(rt: HostRuntime) -> Result<(), Fail> {
    let mut reader = Io::new(b" 18 A P\n".as_slice());
    let mut writer = Io::new(Vec::new(rt.alloc()));
    let tally = write_draft(rt.alloc(), b"S b0 A 21 A 00 A", &mut reader, &mut writer)
        .ok()
        .ok_or("no profile")?;
    assert!(rt; tally.refusals == 0);
    let written =
        "# Made by pmb scan of 1 packet. A capture shows no names, and not what the numbers of a maker's own\n\
                   # commands mean: add what you know.\n\n\
                   # 1 packet: 0 with a packet error code, 1 without\n\
                   [[device]]\naddress = 0x58\npec = \"off\"\n# 21 VOUT_COMMAND: 1 of 1 packet\n";
    assert!(rt; writer.into_inner().as_slice() == written.as_bytes());
    Ok(())
}

#[test]
fn a_board_has_its_part(rt: HostRuntime) -> Result<(), Fail> {
    let text = b"# A part. More.\n[[device]]\naddress = 0x20\npec = \"off\"\n";
    assert!(rt; about(rt.alloc(), text)?.as_slice() == b"A part.".as_slice());
    let parts = [Part {
        text,
        address: 0x10,
    }];
    let written = board(rt.alloc(), &parts).ok().ok_or("no board")?;
    let wanted = b"# A part. More.\n[[device]]\naddress = 0x10\npec = \"off\"\n";
    assert!(rt; written.as_slice() == wanted.as_slice());
    Ok(())
}
