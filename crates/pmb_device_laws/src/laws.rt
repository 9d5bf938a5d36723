//! Laws on the rules of simulated devices and of their bus: each function is its contract, and does
//! nothing.

ghost use Rattle.std.specs.Prelude.{◌≡◌, List, map};
ghost use Rattle.pmb_command.specs.Bus.{IsBus, IsDevice};
ghost use Rattle.pmb_command.specs.Parts.{DeviceParts};
ghost use Rattle.pmb_registers.specs.State.{DeviceState, InState};
ghost use Rattle.pmb_device.specs.declared.device.Device.{Device};
ghost use Rattle.pmb_device.specs.declared.signal.DeviceSignal.{DeviceSignal};
ghost use Rattle.pmb_device.specs.declared.signal.HostSignal.{HostSignal};
ghost use Rattle.pmb_device.specs.Device.{DeviceStanding, DeviceStandsAt};
ghost use Rattle.pmb_device.specs.Legs.{Legs};
ghost use Rattle.pmb_device.specs.Rules.{Answers};
ghost use Rattle.pmb_device.specs.Ends.{Ends};
ghost use Rattle.pmb_devices.specs.declared.bus.Bus.{Bus};
ghost use Rattle.pmb_devices.specs.Bus.{BusAnswers};
ghost use Rattle.pmb_devices.specs.Runs.{AllEnd};
ghost use Rattle.pmb_device_laws.specs.Calls.{AreBusCalls, AreDeviceCalls, BusesGoAlike, BusesStandAlike, Call};
ghost use Rattle.pmb_device_laws.specs.Calls.{DevicesGoAlike, DevicesStandAlike, signals};

/// The rules allow one answer to a signal at most, by a device's profile, its state at the last STOP
/// and the signals since then. The device is one that an accepted profile may have, as every device is
/// that stands somewhere ([`devices_are_accepted`]). Another one could have a command that is read as a
/// block and called without data: a reply to its code would have two forms.
pub fn one_answer()
    ensures { (device : DeviceParts) (state : DeviceState) (legs : Legs) (signal : HostSignal)
        (result other : DeviceSignal) → IsDevice device → Answers device state legs signal result
        → Answers device state legs signal other → result ≡ other }
{}

/// STOP leads a device, whichever it is, to one state at most, by its state before and the signals since
/// the last STOP.
pub fn one_end()
    ensures { (device : DeviceParts) (legs : Legs) (before after other : DeviceState)
        → Ends device legs before after → Ends device legs before other → after ≡ other }
{}

/// A device that stands somewhere is one that an accepted profile may have.
pub fn devices_are_accepted()
    ensures { (device : Device) (standing : DeviceStanding) → DeviceStandsAt device standing
        → IsDevice standing.device }
{}

/// For every list of signals: two devices that stand alike, with one profile, one state and the same
/// signals since the last STOP, give the same answers to it, and stand alike after it.
pub fn devices_go_alike()
    ensures { (device other : Device) (calls others : List (Call Device)) → DevicesStandAlike device other
        → AreDeviceCalls device calls → AreDeviceCalls other others → signals calls ≡ signals others
        → DevicesGoAlike device other calls others }
{}

/// On a bus of an accepted profile a signal has one answer at most, and STOP leads the devices of any bus
/// to one list of states at most.
pub fn one_bus_answer()
    ensures answer { (members : List InState) (legs : Legs) (signal : HostSignal) (result other : DeviceSignal)
        → IsBus (map (λ m. m.device) members) → BusAnswers members legs signal result
        → BusAnswers members legs signal other → result ≡ other }
    ensures end { (members after others : List InState) (legs : Legs)
        → AllEnd legs members after → AllEnd legs members others → after ≡ others }
{}

/// For every list of signals: two buses that stand alike, as two do that were just made of one profile,
/// give the same answers to it, and stand alike after it. So the same is recorded, since that follows
/// from a signal and its answer.
pub fn buses_go_alike()
    ensures { (bus other : Bus) (calls others : List (Call Bus)) → BusesStandAlike bus other
        → AreBusCalls bus calls → AreBusCalls other others → signals calls ≡ signals others
        → BusesGoAlike bus other calls others }
{}
