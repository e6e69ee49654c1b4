// A memory that is lent.
ghost use Rattle.bus.specs.Loans.{Lent};

use crate::memory::{Memory, Place};

impl<M: Memory> Memory for &mut M {
    ghost means = { λ s. M.Memory.means s.now };

    ghost loans = { λ s. Lent s.ghost_name (M.Memory.loans s.now) };

    fn is_readable(&self, place: Place) -> bool {
        (**self).is_readable(place)
    }

    fn is_writable(&self, place: Place) -> bool {
        (**self).is_writable(place)
    }

    fn read(&self, place: Place) -> Option<u8> {
        (**self).read(place)
    }

    fn write(&mut self, place: Place, byte: u8) {
        (**self).write(place, byte);
    }

    // A word is asked of the memory itself too, which may have methods of its own for it.
    fn is_word_readable(&self, place: Place) -> bool {
        (**self).is_word_readable(place)
    }

    fn is_word_writable(&self, place: Place) -> bool {
        (**self).is_word_writable(place)
    }

    fn read_word(&self, place: Place) -> Option<(u8, u8)> {
        (**self).read_word(place)
    }

    fn write_word(&mut self, place: Place, high: u8, low: u8) {
        (**self).write_word(place, high, low);
    }
}
