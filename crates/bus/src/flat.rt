// A flat memory.
ghost use Rattle.std.specs.Prelude.{◌≡◌, ◌<◌, ◌≤◌, length, MatchResult};
ghost use Rattle.bus.specs.Memory.{flat};

use crate::memory::{Memory, Place};

// The most bytes that 24 address bits reach.
pub const PLACES: usize = 0x1000000;

// Given bytes; every function code is answered below their number, and all codes name the same bytes.
#[derive(Drop)]
pub struct Flat<'a> {
    bytes: &'a mut [u8],
}

impl<'a> Flat<'a> {
    // A memory over these bytes, or the bytes back if they are more than 24 address bits reach.
    pub fn new(bytes: &'a mut [u8]) -> Result<Flat<'a>, &'a mut [u8]>
        ensures { MatchResult result (λ m. (length bytes.old ≤ 16777216) × (m.bytes.now ≡ bytes.old)) (λ b. (16777216 < length bytes.old) × (b.now ≡ bytes.old)) }
    {
        if bytes.len() > PLACES {
            return Err(bytes);
        }
        Ok(Flat { bytes })
    }

    fn holds(&self, place: Place) -> bool
        ensures { result ≡ (flat self.now.bytes.now).readable place.code place.address }
    {
        place.code < 8 && (place.address as usize) < self.bytes.len()
    }
}

impl<'a> Memory for Flat<'a> {
    ghost means = { λ s. flat s.bytes.now };

    fn is_readable(&self, place: Place) -> bool {
        self.holds(place)
    }

    fn is_writable(&self, place: Place) -> bool {
        self.holds(place)
    }

    // By an index, as in `write`: it is one byte that is meant.
    fn read(&self, place: Place) -> Option<u8> {
        self.holds(place)
            .then(|| self.bytes[place.address as usize])
    }

    fn write(&mut self, place: Place, byte: u8) {
        if self.holds(place) {
            self.bytes[place.address as usize] = byte;
        }
    }
}
