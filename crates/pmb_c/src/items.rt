//! Items of a capture whose text comes in pieces.
//!
//! A record is the struct of the header: numbers have their low byte first, and each field is aligned
//! (`pmb_items`, `specs/Record`).
//!
//! Their rows: `.ci/items.c`.

ghost use Rattle.std.specs.Prelude.{◌≡◌, length, option_map};
ghost use Rattle.pmb_c.specs.Choice.{chosen};
ghost use Rattle.pmb_c.specs.Items.{LooksAt, NextItem, TakesRecord, reason_text, result_of_look};
ghost use Rattle.pmb_c.specs.Reader.{OpensReader};
ghost use Rattle.pmb_firmware.specs.Room.{put_some, some_name};

use crate::choice::PmbChoice;
use crate::handle::PmbHandle;
use crate::held::ReaderKind;
use crate::reader::{act, open_as};
use crate::result::PmbResult;
use pmb_capture_reader::{Answer, Task, Work};
use pmb_firmware::{CallStatus, put_name};
use pmb_items::{RECORD, reason_of};
use std::alloc::Global;

/// The record of an item.
#[repr(C)]
#[derive(Clone, Copy)]
pub struct PmbItem {
    pub bytes: [u8; 680],
}

/// Opens a reader of items under the profile that another handle holds. What the reader's handle held
/// before is closed first.
#[unsafe(no_mangle)]
pub extern "C" fn pmb_reader_open_items(
    alloc: Global,
    reader: &mut PmbHandle,
    profile: &mut PmbHandle,
    choice: &PmbChoice,
    devices: &[u8],
) -> i32
    ensures held { profile.new.held ≡ profile.old.held }
    ensures opens { OpensReader ReaderKind.Items (chosen choice.now devices.now) devices.now profile.old.held reader.new.held result }
{
    open_as(alloc, ReaderKind::Items, reader, profile, choice, devices)
}

/// Moves the oldest item that is ready, and returns how many it moved: 1, or 0 where none is ready. Then
/// the item stays as it was.
#[unsafe(no_mangle)]
pub extern "C" fn pmb_reader_next(
    alloc: Global,
    reader: &mut PmbHandle,
    item: &mut PmbItem,
    told: &mut PmbResult,
) -> usize
    ensures { NextItem reader.old.held item.old.bytes reader.new.held item.new.bytes told.new result }
{
    let Some(answer) = look(alloc, reader) else {
        *told = PmbResult::of_status(CallStatus::Closed);
        return 0;
    };
    *told = told_of_look(answer);
    if answer.ready < RECORD {
        return 0;
    }
    take_record(alloc, reader, &mut item.bytes);
    1
}

/// Writes the name that json has for the reason of a refusal, and a NUL.
#[unsafe(no_mangle)]
pub extern "C" fn pmb_reason_name(reason: i32, text: &mut [u8], length: &mut usize) -> i32
    ensures { record { status = result; room = text.new; length = length.new }
        ≡ put_some (some_name (reason_text reason)) text.old }
{
    put_name(reason_text(reason), text, length)
}

/// What is ready of items; `None` where the handle holds no reader of items.
fn look(alloc: Global, handle: &mut PmbHandle) -> Option<Answer>
    ensures { LooksAt handle.old.held handle.new.held result }
{
    let mut work = Work::new(Task::Look, b"", &mut []);
    act(alloc, handle, Some(ReaderKind::Items), &mut work)
}

/// Moves the oldest record, which is ready, into the room.
fn take_record(alloc: Global, handle: &mut PmbHandle, room: &mut [u8])
    requires { length room.old ≡ RECORD }
    ensures { TakesRecord handle.old.held room.old handle.new.held room.new }
{
    let mut work = Work::new(Task::Take, b"", room);
    act(alloc, handle, Some(ReaderKind::Items), &mut work);
}

/// What is told of what is ready, before an item of it is moved.
fn told_of_look(look: Answer) -> PmbResult
    ensures { result ≡ result_of_look look }
{
    let ready = look.ready / RECORD;
    let status = if ready > 1 {
        CallStatus::NoRoom
    } else {
        CallStatus::Done
    };
    let mut told = PmbResult::of_status(status);
    told.length = ready;
    told.packets = look.tally.packets;
    told.refusals = look.tally.refusals;
    told
}

/// The name of the reason with a number, as items have it.
fn reason_text(reason: i32) -> Option<&'static [u8]>
    ensures { option_map (λ name. name.now) result ≡ reason_text reason }
{
    if reason < 0 {
        return None;
    }
    match reason_of(reason as u32) {
        Some(reason) => Some(reason.name()),
        None => None,
    }
}
