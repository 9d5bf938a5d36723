//! How often each device came, and the totals.
//!
//! Its rows: `tests_json`, `src/object_lines/counts.rt`; `tests/rows/json_objects.txt`.

ghost use Rattle.std.specs.Prelude.{◌≡◌, ◌<◌, ℕ, Some, map, option_map};
ghost use Rattle.pmb_transaction.specs.Transaction.{part_data, transaction_data};
ghost use Rattle.pmb_json_objects.specs.Counts.{CountsData, DeviceData, after_bad_token, after_other, after_packet, after_refusal, counted, has_come, none_counted, nothing_counted, parts_to, sum_of, writes_alone};
ghost use Rattle.pmb_json_objects.specs.machine.Counting.{AreCounts, CountsAre, device_counts, one_at, one_of};

use pmb_transaction::{Part, Transaction};

/// How many addresses of seven bits there are.
const ADDRESSES: usize = 128;

/// How often a device came. Each number stays at the greatest `u64`.
#[derive(Clone, Copy, Debug, PartialEq, Eq)]
pub struct DeviceCounts {
    /// Writes to it, each part of a group for one.
    pub writes: u64,
    pub reads: u64,
    pub calls: u64,
    /// Packets that it refused.
    pub refused: u64,
    /// Refusals of events in packets to it.
    pub refusals: u64,
    /// Packets to its address, where that speaks no PMBus.
    pub others: u64,
}

/// How often each device came, and how many packets, refusals, words that are no token and packets to
/// addresses that speak no PMBus there were. Each number stays at the greatest `u64`.
#[derive(Drop)]
pub struct Counts {
    devices: [DeviceCounts; 128],
    packets: u64,
    refusals: u64,
    bad_tokens: u64,
    others: u64,
}

impl DeviceCounts {
    /// It has not come.
    const fn new() -> DeviceCounts
        ensures { result ≡ device_counts none_counted }
    {
        DeviceCounts {
            writes: 0,
            reads: 0,
            calls: 0,
            refused: 0,
            refusals: 0,
            others: 0,
        }
    }

    /// Whether it has come at all.
    pub fn has_come(&self) -> bool
        ensures { (known : DeviceData) → self.now ≡ device_counts known → result ≡ has_come known }
    {
        self.writes > 0
            || self.reads > 0
            || self.calls > 0
            || self.refused > 0
            || self.refusals > 0
            || self.others > 0
    }
}

/// What a packet, a refusal or an other is to a device.
#[derive(Clone, Copy)]
enum What {
    Write,
    Read,
    Call,
    Refused,
    Refusal,
    Other,
}

impl What {
    /// Counts it.
    fn count(self, counts: &mut DeviceCounts)
        ensures { (known : DeviceData) → counts.old ≡ device_counts known → counts.new ≡ device_counts (sum_of known (one_of self)) }
    {
        match self {
            What::Write => counts.writes = counts.writes.saturating_add(1),
            What::Read => counts.reads = counts.reads.saturating_add(1),
            What::Call => counts.calls = counts.calls.saturating_add(1),
            What::Refused => counts.refused = counts.refused.saturating_add(1),
            What::Refusal => counts.refusals = counts.refusals.saturating_add(1),
            What::Other => counts.others = counts.others.saturating_add(1),
        }
    }
}

impl Counts {
    /// Nothing came.
    pub fn new() -> Counts
        ensures { CountsAre result nothing_counted }
    {
        Counts {
            devices: [DeviceCounts::new(); ADDRESSES],
            packets: 0,
            refusals: 0,
            bad_tokens: 0,
            others: 0,
        }
    }

    /// Counts a packet.
    pub fn count_packet(&mut self, transaction: &Transaction)
        ensures { (known : CountsData) → CountsAre self.old known → CountsAre self.new (after_packet known (transaction_data transaction.now)) }
    {
        self.packets = self.packets.saturating_add(1);
        count_transaction(&mut self.devices, transaction);
    }

    /// Counts a refusal in a packet to a device, if it says one.
    pub fn count_refusal(&mut self, device: Option<u8>)
        ensures { (known : CountsData) → CountsAre self.old known → CountsAre self.new (after_refusal known device) }
    {
        self.refusals = self.refusals.saturating_add(1);
        if let Some(addr) = device {
            count_at(&mut self.devices, addr, What::Refusal);
        }
    }

    /// Counts a word that is no token.
    pub fn count_bad_token(&mut self)
        ensures { (known : CountsData) → CountsAre self.old known → CountsAre self.new (after_bad_token known) }
    {
        self.bad_tokens = self.bad_tokens.saturating_add(1);
    }

    /// Counts a packet to an address that speaks no PMBus: neither as a packet nor as a refusal.
    pub fn count_other(&mut self, addr: u8)
        ensures { (known : CountsData) → CountsAre self.old known → CountsAre self.new (after_other known addr) }
    {
        self.others = self.others.saturating_add(1);
        count_at(&mut self.devices, addr, What::Other);
    }

    /// How many packets.
    pub(crate) fn packets(&self) -> u64
        ensures { result ≡ self.now.packets }
    {
        self.packets
    }

    /// How many refusals.
    pub(crate) fn refusals(&self) -> u64
        ensures { result ≡ self.now.refusals }
    {
        self.refusals
    }

    /// How many words that are no token.
    pub(crate) fn bad_tokens(&self) -> u64
        ensures { result ≡ self.now.bad_tokens }
    {
        self.bad_tokens
    }

    /// How many packets to addresses that speak no PMBus.
    pub(crate) fn others(&self) -> u64
        ensures { result ≡ self.now.others }
    {
        self.others
    }

    /// How often the device with an address came.
    pub fn device(&self, addr: u8) -> Option<&DeviceCounts>
        requires { addr < 128 }
        ensures { (known : CountsData) → CountsAre self.now known → option_map (λ d. d.now) result ≡ Some (device_counts (known.of_device addr)) }
    {
        self.devices.get(usize::from(addr))
    }
}

/// Counts what a transaction is to each device.
fn count_transaction(devices: &mut [DeviceCounts], transaction: &Transaction)
    ensures { (each : ℕ → DeviceData) → AreCounts devices.old each → AreCounts devices.new (λ addr. sum_of (each addr) (counted addr (transaction_data transaction.now))) }
{
    match transaction {
        Transaction::Write { parts } => count_parts(devices, parts.as_slice()),
        Transaction::Read { addr, .. } => count_at(devices, *addr, What::Read),
        Transaction::Call { addr, .. } => count_at(devices, *addr, What::Call),
        Transaction::Refused { parts, addr, .. } => {
            count_parts(devices, parts.as_slice());
            count_at(devices, *addr, What::Refused);
        }
        Transaction::Alert { .. } | Transaction::NoAlert => {}
    }
}

/// Counts each part as a write.
fn count_parts(devices: &mut [DeviceCounts], parts: &[Part])
    ensures { (each : ℕ → DeviceData) → AreCounts devices.old each → AreCounts devices.new (λ addr. sum_of (each addr) (writes_alone (parts_to addr (map part_data parts.now)))) }
{
    for part in parts {
        count_at(devices, part.addr, What::Write);
    }
}

/// Counts one more of the device with an address.
fn count_at(devices: &mut [DeviceCounts], addr: u8, what: What)
    ensures { (each : ℕ → DeviceData) → AreCounts devices.old each → AreCounts devices.new (λ other. sum_of (each other) (one_at addr what other)) }
{
    let place = usize::from(addr);
    if place < devices.len() {
        what.count(&mut devices[place]);
    }
}
