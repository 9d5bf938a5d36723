//! Notes of transactions.
//!
//! Its rows: `tests_lines`, `src/notes/rows.rt` and `long.rt`; `tests/rows/captures.txt`.

ghost use Rattle.std.specs.Prelude.{◌≡◌, ◌+◌, ◌*◌, ◌/◌, ◌≤◌, ◌++◌, ◌∷◌, [], ℕ, List, Option, codes, flat_map, length, map};
ghost use Rattle.hex.specs.Hex.{encode_lower};
ghost use Rattle.pmb_coefficients.specs.Coefficients.{Coefficients};
ghost use Rattle.pmb_command.specs.Parts.{DeviceParts, device_with};
ghost use Rattle.pmb_transaction.specs.Transaction.{TransactionData, part_data, transaction_data};
ghost use Rattle.pmb_note.specs.Context.{HasSeen};
ghost use Rattle.pmb_note.specs.Note.{command_text, data_text, joined, note, of_device, part_text_before, part_text, refused_text, text_under};
ghost use Rattle.pmb_note.specs.machine.Standing.{mode_in};
ghost use Rattle.pmb_note.specs.machine.Written.{Appends};

use crate::context::Context;
use crate::text::append;
use crate::value::append_value;
use arrayvec::{ArrayString, ArrayVec};
use pmb_command::Kind;
use pmb_transaction::{Part, Transaction};

/// The text of a note.
pub type Note = ArrayString<8192>;

impl<'p> Context<'p> {
    /// What a transaction says, by the context before it.
    ///
    /// A complete part or a read is said by the command's name and what its kind tells of the data:
    /// a quantity exactly, `raw` for an output voltage under a VOUT_MODE that is unknown or no
    /// format; the set bits of a status register, or `none`. Parts are joined by ` + `. Of a call
    /// the name is said, of a refused packet its parts and what was refused, and of an alert the
    /// device.
    pub fn note(&self, transaction: &Transaction) -> Note
        ensures { (profile : List DeviceParts) (ts : List TransactionData) → HasSeen self.now profile ts
            → result.bytes ≡ note profile ts (transaction_data transaction.now) }
    {
        let mut bytes = ArrayVec::<u8, 8192>::new();
        self.append_text(transaction, &mut bytes);
        let text = str::from_utf8(bytes.as_slice()).unwrap();
        let mut note = Note::new();
        note.push_str(text);
        note
    }

    /// Appends the note of a transaction, as [`note`](Context::note) has it. There must be room for
    /// 8,192 bytes, more than any has.
    pub fn append_note<const N: usize>(&self, transaction: &Transaction, out: &mut ArrayVec<u8, N>)
        requires { length out.old.items + 8192 ≤ N }
        ensures note { (profile : List DeviceParts) (ts : List TransactionData) → HasSeen self.now profile ts
            → out.new.items ≡ out.old.items ++ note profile ts (transaction_data transaction.now) }
        ensures longer { length out.new.items ≤ length out.old.items + 8192 }
    {
        self.append_text(transaction, out);
    }

    // Appends the note of a transaction by the VOUT_MODE of each device.
    fn append_text<const N: usize>(&self, transaction: &Transaction, out: &mut ArrayVec<u8, N>)
        requires { length out.old.items + 8192 ≤ N }
        ensures { Appends (text_under self.now.profile.now (mode_in self.now) (transaction_data transaction.now)) 8192 out.old.items out.new.items }
    {
        match transaction {
            Transaction::Write { parts } => self.append_parts(parts.as_slice(), out),
            Transaction::Read {
                addr,
                code,
                reply,
                ..
            } => self.append_command(*addr, *code, reply.as_slice(), out),
            Transaction::Call { addr, code, .. } => self.append_name(*addr, *code, out),
            Transaction::Refused {
                parts,
                sent,
                at_read,
                ..
            } => {
                self.append_parts_before(parts.as_slice(), out);
                append(out, refused_text(sent.as_slice(), *at_read));
            }
            Transaction::Alert { byte, .. } => append_alert(*byte, out),
            Transaction::NoAlert => append(out, "no device"),
        }
    }

    // Appends what was written to a device or read from it.
    fn append_command<const N: usize>(
        &self,
        addr: u8,
        code: u8,
        bytes: &[u8],
        out: &mut ArrayVec<u8, N>,
    )
        requires { length out.old.items + 320 ≤ N }
        ensures { Appends (command_text self.now.profile.now (mode_in self.now) addr code bytes.now) 320 out.old.items out.new.items }
    {
        let Some(device) = self.profile.device(addr) else {
            return;
        };
        match device.entry(code) {
            None => {}
            Some(entry) => append_value(out, self.mode_for(entry.kind, addr), device, entry, bytes),
        }
    }

    // The VOUT_MODE that the data of a command are read by: of interest to output voltages alone.
    #[inline]
    fn mode_for(&self, kind: Kind, addr: u8) -> Option<u8>
        ensures { (coefficients : Option Coefficients) (code : ℕ) (bytes : List ℕ)
            → data_text coefficients result code kind bytes ≡ data_text coefficients (mode_in self.now addr) code kind bytes }
    {
        match kind {
            Kind::Vout | Kind::VoutSigned => self.kept_mode(addr),
            Kind::Raw | Kind::Number(_) | Kind::Status | Kind::Text => None,
        }
    }

    // Appends the name of a command.
    fn append_name<const N: usize>(&self, addr: u8, code: u8, out: &mut ArrayVec<u8, N>)
        requires { length out.old.items + 320 ≤ N }
        ensures { Appends (of_device (λ device entry. entry.name) code (device_with addr self.now.profile.now)) 320 out.old.items out.new.items }
    {
        let Some(device) = self.profile.device(addr) else {
            return;
        };
        match device.entry(code) {
            None => {}
            Some(entry) => append(out, entry.name.as_str()),
        }
    }

    // Appends the text of a part.
    fn append_part<const N: usize>(&self, part: &Part, out: &mut ArrayVec<u8, N>)
        requires { length out.old.items + 320 ≤ N }
        ensures { Appends (part_text self.now.profile.now (mode_in self.now) (part_data part.now)) 320 out.old.items out.new.items }
    {
        self.append_command(part.addr, part.code, part.bytes.as_slice(), out);
    }

    // Appends parts with ` + ` between each two.
    fn append_parts<const N: usize>(&self, parts: &[Part], out: &mut ArrayVec<u8, N>)
        requires few { length parts.now ≤ 16 }
        requires room { length out.old.items + 323 * length parts.now ≤ N }
        ensures { Appends (joined (map (part_text self.now.profile.now (mode_in self.now)) (map part_data parts.now))) (323 * length parts.now) out.old.items out.new.items }
    {
        let [first, rest @ ..] = parts else {
            return;
        };
        self.append_part(first, out);
        for part in rest {
            append(out, " + ");
            self.append_part(part, out);
        }
    }

    // Appends parts with ` + ` after each.
    fn append_parts_before<const N: usize>(&self, parts: &[Part], out: &mut ArrayVec<u8, N>)
        requires few { length parts.now ≤ 15 }
        requires room { length out.old.items + 323 * length parts.now ≤ N }
        ensures { Appends (flat_map (part_text_before self.now.profile.now (mode_in self.now)) (map part_data parts.now)) (323 * length parts.now) out.old.items out.new.items }
    {
        for part in parts {
            self.append_part(part, out);
            append(out, " + ");
        }
    }
}

// What was refused, by what was sent.
fn refused_text(sent: &[u8], at_read: bool) -> &'static str
    ensures text { result.now ≡ refused_text sent.now at_read }
    ensures few { length result.now ≤ 20 }
{
    if at_read {
        return "read address refused";
    }
    match sent {
        [] => "address refused",
        [_] => "code refused",
        _ => "byte refused",
    }
}

// Appends the address that the byte of an alert has.
fn append_alert<const N: usize>(byte: u8, out: &mut ArrayVec<u8, N>)
    requires { length out.old.items + 9 ≤ N }
    ensures { Appends (codes "device " ++ encode_lower (byte / 2 ∷ [])) 9 out.old.items out.new.items }
{
    append(out, "device ");
    append_digits(byte / 2, out);
}

// Appends the two digits of a byte.
fn append_digits<const N: usize>(byte: u8, out: &mut ArrayVec<u8, N>)
    requires { length out.old.items + 2 ≤ N }
    ensures { Appends (encode_lower (byte ∷ [])) 2 out.old.items out.new.items }
{
    let mut digits = [0; 2];
    let _ = hex::encode_to_slice([byte], &mut digits);
    let _ = out.try_extend_from_slice(&digits);
}
