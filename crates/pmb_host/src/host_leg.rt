//! The bytes of a written leg, by their places.

ghost use Rattle.std.specs.Prelude.{◌≡◌, ◌++◌, slice_get};
ghost use Rattle.std.specs.Option.{option_to_list};
ghost use Rattle.pmb_host.specs.machine.Legs.{coded_with, plain_bytes, wire_of};

/// The bytes of a leg: an address, and after it a command code, the count of a block, data and a
/// packet error code, where there are such.
#[derive(Clone, Copy, Debug)]
pub(crate) struct HostLeg<'a> {
    pub address: u8,
    pub code: Option<u8>,
    pub count: Option<u8>,
    pub data: &'a [u8],
    pub pec: bool,
}

impl HostLeg<'_> {
    /// The byte at a place. Where that is the packet error code it is this one.
    pub fn byte_at(&self, place: usize, crc: u8) -> Option<u8>
        ensures { result ≡ slice_get (coded_with self.now.pec crc (plain_bytes self.now)) place }
    {
        match place.checked_sub(1) {
            None => Some(self.address),
            Some(behind) => self.behind_address(behind, crc),
        }
    }

    /// The byte at a place after the address.
    fn behind_address(&self, place: usize, crc: u8) -> Option<u8>
        ensures { result ≡ slice_get (coded_with self.now.pec crc (option_to_list self.now.code ++ wire_of self.now)) place }
    {
        let Some(code) = self.code else {
            return self.behind_code(place, crc);
        };
        match place.checked_sub(1) {
            None => Some(code),
            Some(behind) => self.behind_code(behind, crc),
        }
    }

    /// The byte at a place after the code.
    fn behind_code(&self, place: usize, crc: u8) -> Option<u8>
        ensures { result ≡ slice_get (coded_with self.now.pec crc (wire_of self.now)) place }
    {
        let Some(count) = self.count else {
            return self.data_at(place, crc);
        };
        match place.checked_sub(1) {
            None => Some(count),
            Some(behind) => self.data_at(behind, crc),
        }
    }

    /// The byte at a place after the count: of the data, or the packet error code after them.
    fn data_at(&self, place: usize, crc: u8) -> Option<u8>
        ensures { result ≡ slice_get (coded_with self.now.pec crc self.now.«data».now) place }
    {
        if place < self.data.len() {
            Some(self.data[place])
        } else if self.pec && place == self.data.len() {
            Some(crc)
        } else {
            None
        }
    }
}
