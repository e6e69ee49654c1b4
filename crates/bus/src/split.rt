// Two memories side by side.
ghost use Rattle.bus.specs.Loans.{Beside};
ghost use Rattle.bus.specs.Memory.{split};

use crate::memory::{Memory, Place};

// Function codes 4 to 7 go to `upper`, codes 0 to 3 to `lower`; no byte belongs to both.
#[derive(Drop)]
pub struct Split<A: Memory, B: Memory> {
    pub upper: A,
    pub lower: B,
}

// The halves have a type each, so that every method makes the choice itself: no one function can give either half.
impl<A: Memory, B: Memory> Memory for Split<A, B> {
    ghost means = { λ s. split (A.Memory.means s.upper) (B.Memory.means s.lower) };

    ghost loans = { λ s. Beside (A.Memory.loans s.upper) (B.Memory.loans s.lower) };

    fn is_readable(&self, place: Place) -> bool {
        if place.code < 4 {
            self.lower.is_readable(place)
        } else {
            self.upper.is_readable(place)
        }
    }

    fn is_writable(&self, place: Place) -> bool {
        if place.code < 4 {
            self.lower.is_writable(place)
        } else {
            self.upper.is_writable(place)
        }
    }

    fn read(&self, place: Place) -> Option<u8> {
        if place.code < 4 {
            self.lower.read(place)
        } else {
            self.upper.read(place)
        }
    }

    fn write(&mut self, place: Place, byte: u8) {
        if place.code < 4 {
            self.lower.write(place, byte);
        } else {
            self.upper.write(place, byte);
        }
    }
}
