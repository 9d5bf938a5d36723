ghost use Rattle.std.specs.Prelude.{◌≡◌};

/// How many packets were read and how many refusals met. Each count stays at the greatest `u64`.
#[derive(Clone, Copy, Debug, PartialEq, Eq)]
pub struct Tally {
    /// Packets that were read, or lines whose answer is a text.
    pub packets: u64,
    /// Refusals, a bad token and an end inside a packet among them, or lines whose answer is a fault.
    pub refusals: u64,
}

impl Tally {
    ghost use Rattle.pmb_io.specs.Tally.{with_packet, with_refusal};

    /// Nothing counted yet.
    pub fn new() -> Tally
        ensures { result ≡ record { packets = 0; refusals = 0 } }
    {
        Tally {
            packets: 0,
            refusals: 0,
        }
    }

    /// Counts a packet.
    pub fn count_packet(&mut self)
        ensures { self.new ≡ with_packet self.old }
    {
        self.packets = self.packets.saturating_add(1);
    }

    /// Counts a refusal.
    pub fn count_refusal(&mut self)
        ensures { self.new ≡ with_refusal self.old }
    {
        self.refusals = self.refusals.saturating_add(1);
    }
}
