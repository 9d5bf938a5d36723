//! The record of an item.

ghost use Rattle.std.specs.Prelude.{◌≡◌, ◌+◌, ◌≤◌, ◌++◌, length};
ghost use Rattle.std.specs.Int.{to_le_bytes, w16, w64};
ghost use Rattle.pmb_items.specs.Record.{command_bytes, device_bytes, item_bytes, kind_bytes, leg_bytes, part_bytes, signed_bytes, text_bytes, text_part, value_bytes, where_bytes};

use crate::item::{Item, ItemLeg, ItemText};
use arrayvec::ArrayVec;

/// How many bytes a record has.
pub const RECORD: usize = 680;

impl Item {
    /// Appends its record, of [`RECORD`] bytes: one field after the other, numbers with their low byte first.
    pub fn append<const N: usize>(&self, out: &mut ArrayVec<u8, N>)
        requires room { length out.old.items + RECORD ≤ N }
        ensures record { out.new.items ≡ out.old.items ++ item_bytes self.now }
        ensures long { length out.new.items ≡ length out.old.items + RECORD }
    {
        self.put_where(out);
        self.put_part(out);
        self.put_value(out);
        self.put_command(out);
        self.put_device(out);
        self.put_kind(out);
        self.put_text_part(out);
    }

    fn put_where<const N: usize>(&self, out: &mut ArrayVec<u8, N>)
        requires room { length out.old.items + 24 ≤ N }
        ensures record { out.new.items ≡ out.old.items ++ where_bytes self.now }
        ensures long { length out.new.items ≡ length out.old.items + 24 }
    {
        put_u64(out, self.head.at);
        put_u64(out, self.head.line);
        put_u64(out, self.head.column);
    }

    fn put_part<const N: usize>(&self, out: &mut ArrayVec<u8, N>)
        requires room { length out.old.items + 16 ≤ N }
        ensures record { out.new.items ≡ out.old.items ++ part_bytes self.now }
        ensures long { length out.new.items ≡ length out.old.items + 16 }
    {
        put_u64(out, self.part.number);
        put_u64(out, self.part.count);
    }

    fn put_value<const N: usize>(&self, out: &mut ArrayVec<u8, N>)
        requires room { length out.old.items + 16 ≤ N }
        ensures record { out.new.items ≡ out.old.items ++ value_bytes self.now }
        ensures long { length out.new.items ≡ length out.old.items + 16 }
    {
        put_i64(out, self.number.numerator);
        put_i64(out, self.number.denominator);
    }

    fn put_command<const N: usize>(&self, out: &mut ArrayVec<u8, N>)
        requires room { length out.old.items + 6 ≤ N }
        ensures record { out.new.items ≡ out.old.items ++ command_bytes self.now }
        ensures long { length out.new.items ≡ length out.old.items + 6 }
    {
        put_u16(out, self.command.code);
        put_u16(out, self.command.page);
        put_u16(out, self.command.phase);
    }

    fn put_device<const N: usize>(&self, out: &mut ArrayVec<u8, N>)
        requires room { length out.old.items + 6 ≤ N }
        ensures record { out.new.items ≡ out.old.items ++ device_bytes self.now }
        ensures long { length out.new.items ≡ length out.old.items + 6 }
    {
        put_u16(out, self.pec.there);
        put_u16(out, self.pec.right);
        put_u16(out, self.device);
    }

    fn put_kind<const N: usize>(&self, out: &mut ArrayVec<u8, N>)
        requires room { length out.old.items + 8 ≤ N }
        ensures record { out.new.items ≡ out.old.items ++ kind_bytes self.now }
        ensures long { length out.new.items ≡ length out.old.items + 8 }
    {
        let kinds = [
            self.kind,
            self.refused,
            self.number.kind,
            self.number.assumed,
            self.refusal.reason,
            self.refusal.expected,
            self.refusal.got,
            self.refusal.byte,
        ];
        put(out, &kinds);
    }

    fn put_text_part<const N: usize>(&self, out: &mut ArrayVec<u8, N>)
        requires room { length out.old.items + 604 ≤ N }
        ensures record { out.new.items ≡ out.old.items ++ text_part self.now }
        ensures long { length out.new.items ≡ length out.old.items + 604 }
    {
        put_leg(out, &self.sent);
        put_leg(out, &self.reply);
        put_text(out, &self.head.time);
        put_text(out, &self.word);
    }
}

fn put_leg<const N: usize>(out: &mut ArrayVec<u8, N>, leg: &ItemLeg)
    requires room { length out.old.items + 260 ≤ N }
    ensures record { out.new.items ≡ out.old.items ++ leg_bytes leg.now }
    ensures long { length out.new.items ≡ length out.old.items + 260 }
{
    put_u16(out, leg.length);
    put(out, &leg.bytes);
}

fn put_text<const N: usize>(out: &mut ArrayVec<u8, N>, text: &ItemText)
    requires room { length out.old.items + 42 ≤ N }
    ensures record { out.new.items ≡ out.old.items ++ text_bytes text.now }
    ensures long { length out.new.items ≡ length out.old.items + 42 }
{
    put_u16(out, text.length);
    put(out, &text.bytes);
}

fn put_u64<const N: usize>(out: &mut ArrayVec<u8, N>, number: u64)
    requires room { length out.old.items + 8 ≤ N }
    ensures record { out.new.items ≡ out.old.items ++ to_le_bytes w64 number }
    ensures long { length out.new.items ≡ length out.old.items + 8 }
{
    put(out, &number.to_le_bytes());
}

#[tactic(auto, unfolding(crate::specs::Record::signed_bytes))]
fn put_i64<const N: usize>(out: &mut ArrayVec<u8, N>, number: i64)
    requires room { length out.old.items + 8 ≤ N }
    ensures record { out.new.items ≡ out.old.items ++ signed_bytes number }
    ensures long { length out.new.items ≡ length out.old.items + 8 }
{
    put(out, &number.to_le_bytes());
}

fn put_u16<const N: usize>(out: &mut ArrayVec<u8, N>, number: u16)
    requires room { length out.old.items + 2 ≤ N }
    ensures record { out.new.items ≡ out.old.items ++ to_le_bytes w16 number }
    ensures long { length out.new.items ≡ length out.old.items + 2 }
{
    put(out, &number.to_le_bytes());
}

/// Appends bytes.
fn put<const N: usize>(out: &mut ArrayVec<u8, N>, bytes: &[u8])
    requires room { length out.old.items + length bytes.now ≤ N }
    ensures record { out.new.items ≡ out.old.items ++ bytes.now }
    ensures long { length out.new.items ≡ length out.old.items + length bytes.now }
{
    let _ = out.try_extend_from_slice(bytes);
}
