//! The registers that a device begins with.
//!
//! Its rows: `tests_devices`, `src/registers/written.rt`; `tests/rows/profile_text.txt`.

ghost use Rattle.std.specs.Prelude.{◌≡◌, ◌+◌, ◌<◌, ◌≤◌, [], ◌∷◌, ◌++◌, None, Some, length, map, take, vec_capacity};
ghost use Rattle.std.specs.List.{flat_map, range_with_len};
ghost use Rattle.pmb_command.specs.Entry.{entry_parts};
ghost use Rattle.pmb_command.specs.Parts.{CommandParts, command_with};
ghost use Rattle.pmb_registers.specs.State.{first_bytes, first_bytes_at, first_mode, first_page, first_state, registers_of, zeros};
ghost use Rattle.pmb_registers.specs.machine.Registers.{register_data};
ghost use Rattle.pmb_registers.specs.machine.Places.{ArePlaces, NoneHas, registers_of_some};

use crate::forms::register_form;
use crate::register::Register;
use crate::register_range::RegisterRange;
use arrayvec::ArrayVec;
use pmb_command::{Entry, Form};
use pmb_table::DeviceProfile;
use pmb_table::laws::accepted_device;

/// The code of VOUT_MODE.
const VOUT_MODE: u8 = 0x20;

/// Zeros, as many as a form has bytes; a block begins empty.
fn zeros(form: Form) -> &'static [u8]
    ensures value { result.now ≡ zeros form }
    ensures few { length result.now ≤ 255 }
{
    match form {
        Form::Zero | Form::Block => &[],
        Form::One => &[0],
        Form::Two => &[0, 0],
        Form::Four => &[0, 0, 0, 0],
        Form::Eight => &[0, 0, 0, 0, 0, 0, 0, 0],
    }
}

/// A list of these bytes.
fn list_of(bytes: &[u8]) -> ArrayVec<u8, 255>
    requires { length bytes.now ≤ 255 }
    ensures { result.items ≡ bytes.now }
{
    let mut list = ArrayVec::new();
    let _ = list.try_extend_from_slice(bytes);
    list
}

/// VOUT_MODE of a page at first, and 0 for a page that the device lacks.
pub fn first_mode(device: &DeviceProfile, page: u8) -> u8
    ensures { result ≡ first_mode device.now page }
{
    match device.modes().get(usize::from(page)) {
        Some(mode) => *mode,
        None => 0,
    }
}

/// What the register of a code holds at first on a page, in its form: VOUT_MODE the page's mode, any
/// other what the profile says for the page, or zeros. A register for all pages begins as page 0
/// does. A code that the device lacks has no register; zeros are returned for it, and the mode for
/// VOUT_MODE.
pub fn first_bytes(device: &DeviceProfile, page: u8, code: u8, form: Form) -> ArrayVec<u8, 255>
    ensures command { (command : CommandParts) → command_with code device.now.commands ≡ Some command → result.items ≡ first_bytes device.now page command form }
    ensures lacking { command_with code device.now.commands ≡ None → result.items ≡ first_bytes_at device.now page code None form }
{
    if code == VOUT_MODE {
        return list_of(&[first_mode(device, page)]);
    }
    match device.initial(code, page) {
        Some(bytes) => list_of(bytes),
        None => list_of(zeros(form)),
    }
}

/// A register with these bytes.
fn register_of(code: u8, page: Option<u8>, bytes: &[u8]) -> Register
    requires { length bytes.now ≤ 255 }
    ensures { register_data result ≡ record { code = code; page = page; bytes = bytes.now } }
{
    Register {
        code,
        page,
        bytes: list_of(bytes),
    }
}

/// Adds the register of a code in a form on one page, or its register for all.
fn push_register(
    registers: &mut Vec<Register>,
    device: &DeviceProfile,
    code: u8,
    form: Form,
    page: Option<u8>,
)
    requires { length registers.old.items < vec_capacity registers.old }
    ensures added { (command : CommandParts) → command_with code device.now.commands ≡ Some command
        → map register_data registers.new.items ≡ map register_data registers.old.items
        ++ record { code = code; page = page; bytes = first_bytes device.now (first_page page) command form } ∷ [] }
    ensures one { length registers.new.items ≡ length registers.old.items + 1 }
    ensures room { vec_capacity registers.new ≡ vec_capacity registers.old }
{
    let bytes = first_bytes(device, page.unwrap_or(0), code, form);
    registers.push_reserved(register_of(code, page, bytes.as_slice()));
}

/// Adds a register for each page.
fn push_pages(registers: &mut Vec<Register>, device: &DeviceProfile, code: u8, form: Form)
    requires { length registers.old.items + device.now.pages ≤ vec_capacity registers.old }
    ensures added { (command : CommandParts) → command_with code device.now.commands ≡ Some command
        → map register_data registers.new.items ≡ map register_data registers.old.items
        ++ map (λ page. record { code = code; page = page; bytes = first_bytes device.now (first_page page) command form })
        (map Some (range_with_len 0 device.now.pages)) }
    ensures room { vec_capacity registers.new ≡ vec_capacity registers.old }
{
    for page in 0..device.pages() {
        push_register(registers, device, code, form, Some(page));
    }
}

/// Adds the registers of a code.
fn push_registers(registers: &mut Vec<Register>, device: &DeviceProfile, code: u8)
    requires { length registers.old.items
        + length (registers_of_some device.now (command_with code device.now.commands)) ≤ vec_capacity registers.old }
    ensures added { map register_data registers.new.items ≡ map register_data registers.old.items
        ++ registers_of_some device.now (command_with code device.now.commands) }
    ensures room { vec_capacity registers.new ≡ vec_capacity registers.old }
{
    let Some(entry) = device.entry(code) else {
        return;
    };
    let Some(form) = register_form(entry.shape) else {
        return;
    };
    if entry.paged {
        push_pages(registers, device, code, form);
    } else {
        push_register(registers, device, code, form, None);
    }
}

/// Adds the registers of a code that has none yet, and keeps their place.
fn add_registers(
    registers: &mut Vec<Register>,
    places: &mut [RegisterRange; 256],
    device: &DeviceProfile,
    code: u8,
)
    requires placed { ArePlaces places.old (map register_data registers.old.items) }
    requires none_yet { NoneHas code (map register_data registers.old.items) }
    requires room { length registers.old.items
        + length (registers_of_some device.now (command_with code device.now.commands)) ≤ vec_capacity registers.old }
    ensures added { map register_data registers.new.items ≡ map register_data registers.old.items
        ++ registers_of_some device.now (command_with code device.now.commands) }
    ensures placed { ArePlaces places.new (map register_data registers.new.items) }
    ensures room { vec_capacity registers.new ≡ vec_capacity registers.old }
{
    let start = registers.len();
    push_registers(registers, device, code);
    places[code as usize] = RegisterRange {
        start,
        end: registers.len(),
    };
}

/// Adds the registers of the command at an index, after those of the commands before it. There is
/// room for them.
pub(crate) fn add_command(
    registers: &mut Vec<Register>,
    places: &mut [RegisterRange; 256],
    device: &DeviceProfile,
    index: usize,
)
    requires within { index < length device.now.commands }
    requires before { map register_data registers.old.items ≡ flat_map (registers_of device.now) (take index device.now.commands) }
    requires placed { ArePlaces places.old (map register_data registers.old.items) }
    requires room { length (first_state device.now).registers ≤ vec_capacity registers.old }
    ensures added { map register_data registers.new.items ≡ flat_map (registers_of device.now) (take (index + 1) device.now.commands) }
    ensures placed { ArePlaces places.new (map register_data registers.new.items) }
    ensures room { vec_capacity registers.new ≡ vec_capacity registers.old }
{
    accepted_device(device);
    if let Some(entry) = device.entry_at(index) {
        add_registers(registers, places, device, entry.code);
    }
}

/// Places without registers.
pub(crate) fn no_places() -> [RegisterRange; 256]
    ensures { ArePlaces result [] }
{
    [RegisterRange { start: 0, end: 0 }; 256]
}

/// How many registers the device has.
pub(crate) fn count_registers(device: &DeviceProfile) -> usize
    ensures { result ≡ length (first_state device.now).registers }
{
    accepted_device(device);
    let mut count: usize = 0;
    for i in 0..device.len() {
        if let Some(entry) = device.entry_at(i) {
            count += count_of(device, entry);
        }
    }
    count
}

/// How many registers a command of the device has.
fn count_of(device: &DeviceProfile, entry: &Entry) -> usize
    ensures { (command : CommandParts) → command.entry ≡ entry_parts entry.now
        → result ≡ length (registers_of device.now command) }
{
    let Some(_form) = register_form(entry.shape) else {
        return 0;
    };
    if entry.paged {
        return usize::from(device.pages());
    }
    1
}
