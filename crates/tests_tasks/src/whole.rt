//! Whole inputs, into a writer and into rooms.

use pmb_cli::{AfterBadToken, Digits, Io, Start};
use pmb_in_memory::{
    JsonChoice, MemoryTask, Put, WholeFault, put_json, put_whole, write_json, write_whole,
};
use pmb_io::Tally;
use pmb_table::{FaultKind, ProfileFault, SAMPLE};
use std::test::Fail;

const END: &str = "{\"kind\":\"end\",\"packets\":0,\"refusals\":0,\"bad_tokens\":0}\n";

fn all_known() -> JsonChoice {
    JsonChoice {
        digits: Digits::default(),
        start: Start::AllKnown,
        bad_words: AfterBadToken::End,
    }
}

#[test]
fn texts_are_written_and_put(rt: HostRuntime) -> Result<(), Fail> {
    let sample = SAMPLE.as_bytes();
    let one = Tally {
        packets: 1,
        refusals: 0,
    };
    let mut room = [0; 16];
    let put = put_whole(
        MemoryTask::Build,
        rt.alloc(),
        sample,
        b"write 58 03",
        &mut room,
    );
    assert!(rt;
        put == Ok(Put {
            tally: one,
            length: 14
        })
    );
    assert!(rt; room == *b"S b0 A 03 A P\n\0\0");
    let mut writer = Io::new(Vec::new(rt.alloc()));
    let written = write_whole(
        MemoryTask::Build,
        rt.alloc(),
        sample,
        b"write 58 03",
        &mut writer,
    );
    assert!(rt; written == Ok(one));
    assert!(rt; writer.into_inner().as_slice() == b"S b0 A 03 A P\n".as_slice());
    Ok(())
}

#[test]
fn objects_are_written_and_put(rt: HostRuntime) -> Result<(), Fail> {
    let sample = SAMPLE.as_bytes();
    let mut writer = Io::new(Vec::new(rt.alloc()));
    let written = write_json(all_known(), b"", rt.alloc(), sample, b"", &mut writer);
    assert!(rt; written == Ok(Tally::new()));
    assert!(rt; writer.into_inner().as_slice() == END.as_bytes());
    let mut room = [b'~'; 8];
    let put = put_json(all_known(), b"", rt.alloc(), sample, b"", &mut room);
    let length = END.len();
    assert!(rt;
        put == Ok(Put {
            tally: Tally::new(),
            length
        })
    );
    assert!(rt; room == *b"{\"kind\":");
    Ok(())
}

// A fault of the profile leaves the room as it was.
#[test]
fn a_bad_profile_leaves_the_room(rt: HostRuntime) {
    let profile = b"[[device]]\naddress = 0x10\npec = \"off\"\npages = 33";
    let mut room = [b'~'; 32];
    let put = put_whole(MemoryTask::Show, rt.alloc(), profile, b"S P", &mut room);
    let fault = ProfileFault {
        what: FaultKind::BadPages,
        device: Some(0),
        command: None,
    };
    assert!(rt; put == Err(WholeFault::Profile(fault)));
    assert!(rt; room == [b'~'; 32]);
}
