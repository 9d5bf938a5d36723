//! Profiles, their keys, the bus that one makes, and hints for mistakes.

use pmb_hints::{Place, hints};
use pmb_io::Io;
use pmb_keys::{Addresses, array_of, only, present, read_command, read_device_keys};
use pmb_profile_text::describe;
use pmb_table::{
    BusProfile, FaultKind, Form, PecMode, Profile, ProfileFault, SAMPLE, bit_name, by_name,
    standard,
};
use std::test::Fail;
use toml::Value;

#[test]
fn standard_commands_have_names(rt: HostRuntime) -> Result<(), Fail> {
    let code = by_name("STATUS_WORD").ok_or("no command")?;
    assert!(rt; code == 0x79);
    let entry = standard(code).ok_or("no command")?;
    assert!(rt; entry.shape.read == Some(Form::Two));
    assert!(rt; Form::Two.takes(2));
    assert!(rt; bit_name(code, 15) == Some("VOUT"));
    Ok(())
}

/// What the keys of a device say of its address and of packet error codes.
fn address_and_pec(value: &Value) -> Result<(u8, PecMode), FaultKind> {
    match read_device_keys(value, &[], &Addresses::none(), &Addresses::none()) {
        Ok(keys) => Ok((keys.address, keys.pec)),
        Err(what) => Err(what),
    }
}

#[test]
fn keys_are_read(rt: HostRuntime) -> Result<(), Fail> {
    let text = "device = { address = 16, pec = 'on', command = [{ name = 'READ_VIN' }] }";
    let table = toml::table_from_str(rt.alloc(), text)?;
    assert!(rt; only(&table, &["device"]) == Ok(()));
    let value = present(&table, "device")?;
    assert!(rt; address_and_pec(value) == Ok((0x10, PecMode::On)));
    let inner = value.as_table().ok_or("no table")?;
    let array = present(inner, "command")?;
    let commands = array_of(array)?;
    let first = commands.first().ok_or("no command")?;
    let command = read_command(rt.alloc(), first, 1, &[])?;
    assert!(rt; command.entry.code == 0x88);
    Ok(())
}

#[test]
fn a_device_listens_at_other_addresses(rt: HostRuntime) -> Result<(), Fail> {
    let text =
        "device = [{ address = 16, pec = 'on', also = [91, 16] }, { address = 91, pec = 'off' }]";
    let profile = Profile::from_toml(rt.alloc(), text.as_bytes())?;
    let device = profile.device(0x10).ok_or("no device")?;
    assert!(rt; device.listens(0x5b));
    assert!(rt; device.listens(0x10));
    assert!(rt; !device.listens(0x11));
    assert!(rt; device.also().addresses().as_slice() == b"\x10\x5b".as_slice());
    let other = profile.device(0x5b).ok_or("no device")?;
    assert!(rt; !other.listens(0x5b));
    assert!(rt; other.also().addresses().is_empty());
    Ok(())
}

#[test]
fn a_profile_has_devices(rt: HostRuntime) -> Result<(), Fail> {
    let profile = Profile::from_toml(rt.alloc(), SAMPLE.as_bytes())?;
    let device = profile.device(0x58).ok_or("no device")?;
    assert!(rt; device.pec() == PecMode::Optional);
    let entry = device.entry(0x88).ok_or("no command")?;
    assert!(rt; entry.name.as_str() == "READ_VIN");
    assert!(rt; device.initial(0x88, 1) == Some(b"\x00\xd3".as_slice()));
    Ok(())
}

#[test]
fn a_bus_is_described(rt: HostRuntime) -> Result<(), Fail> {
    let text = b"[[device]]\naddress = 0x20\npec = \"off\"\nstandard = false\n";
    let profile = BusProfile::from_toml(rt.alloc(), text)?;
    let mut written = Vec::new(rt.alloc());
    let mut writer = Io::new(&mut written);
    assert!(rt; describe(&profile, &mut writer) == Ok(()));
    let first = b"devices     1\n\ndevice      0\naddress     20, as a byte 40 to write";
    assert!(rt; written.as_slice().starts_with(first));
    Ok(())
}

// Want of memory is a fault that no profile has, so nothing helps with it.
#[test]
fn a_fault_is_explained(rt: HostRuntime) -> Result<(), Fail> {
    let text = b"[[device]]\naddress = 0xb0\npec = \"on\"\n";
    let fault = Profile::from_toml(rt.alloc(), text)
        .err()
        .ok_or("no fault")?;
    let hints_of_address = hints(rt.alloc(), text, fault);
    let lines = hints_of_address.lines.as_str();
    assert!(rt; lines.starts_with("  line 2, column 1: address = 0xb0: "));
    assert!(rt; lines.ends_with("0xb0 is the 8-bit form of 58h: address = 0x58\n"));
    assert!(rt; hints_of_address.place == Some(Place { line: 2, column: 1 }));
    let want = ProfileFault {
        what: FaultKind::OutOfMemory,
        device: None,
        command: None,
    };
    let nothing = hints(rt.alloc(), b"device = []", want);
    assert!(rt; nothing.lines.as_str() == "");
    assert!(rt; nothing.place == None);
    Ok(())
}
