//! A text put into the room that the caller has for it.
ghost use Rattle.std.specs.Prelude.{◌≡◌, ◌+◌, ◌<◌, ◌∷◌, ◌++◌, drop, length};
ghost use Rattle.pmb_firmware.specs.Room.{put};
ghost use Rattle.pmb_firmware.specs.CallStatus.{number_of};

use crate::call_status::CallStatus;

/// Puts a text and a NUL at the start of the room and tells the text's length. Where both don't fit
/// the room stays as it was.
pub(crate) fn put(text: &[u8], room: &mut [u8], length: &mut usize) -> i32
    ensures { record { status = result; room = room.new; length = length.new } ≡ put text.now room.old }
{
    *length = text.len();
    if text.len() >= room.len() {
        return CallStatus::NoRoom.number();
    }
    put_terminated(text, room);
    CallStatus::Done.number()
}

/// Puts a text and a NUL at the start of a room in which both fit.
fn put_terminated(text: &[u8], room: &mut [u8])
    requires { length text.now < length room.old }
    ensures { room.new ≡ text.now ++ 0 ∷ drop (length text.now + 1) room.old }
{
    let (front, back) = room.split_at_mut(text.len());
    front.copy_from_slice(text);
    back[0] = 0;
}

/// Tells that there is no text: the room stays as it was.
pub(crate) fn put_none(status: CallStatus, length: &mut usize) -> i32
    ensures status { result ≡ number_of status }
    ensures length { length.new ≡ 0 }
{
    *length = 0;
    status.number()
}
