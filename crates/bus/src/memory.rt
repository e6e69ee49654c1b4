// A memory, by what it means.
ghost use Rattle.std.specs.Prelude.{◌≡◌};
ghost use Rattle.bus.specs.Loans.{Loans, Owned};
ghost use Rattle.bus.specs.Memory.{MemoryMeaning, low_address, byte_read, byte_written, is_word_readable, is_word_writable, word_read, word_written};

// A function code and an address, as they are sent.
#[derive(Clone, Copy, PartialEq, Eq, Debug)]
pub struct Place {
    pub code: u8,
    pub address: u32,
}

impl Place {
    // The place after this one, where a word at this one has its low byte.
    pub fn next(self) -> Place
        ensures { result ≡ record { code = self.code; address = low_address self.address } }
    {
        Place {
            address: self.address.wrapping_add(1),
            ..self
        }
    }
}

pub trait Memory {
    ghost means: { Self → MemoryMeaning };

    // What of the memory is lent; no call changes that. (A memory that owns its bytes, or what it has them in, need not
    // say so.)
    ghost loans: { Self → Loans } = { λ _. Owned };

    // Whether a place is answered for reading.
    fn is_readable(&self, place: Place) -> bool
        ensures { result ≡ (means self.now).readable place.code place.address };

    // Whether a place is answered for writing.
    fn is_writable(&self, place: Place) -> bool
        ensures { result ≡ (means self.now).writable place.code place.address };

    // The byte at a place, if it is answered.
    fn read(&self, place: Place) -> Option<u8>
        ensures { result ≡ byte_read place.code place.address (means self.now) };

    // Sets the byte at a place, if it is answered; otherwise nothing changes.
    fn write(&mut self, place: Place, byte: u8)
        ensures after { means self.new ≡ byte_written place.code place.address byte (means self.old) }
        ensures lent { loans self.new ≡ loans self.old };

    // A word is answered whole or not at all, so it has methods of its own and is no two bytes.
    fn is_word_readable(&self, place: Place) -> bool
        ensures { result ≡ is_word_readable place.code place.address (means self.now) }
    {
        self.is_readable(place) && self.is_readable(place.next())
    }

    fn is_word_writable(&self, place: Place) -> bool
        ensures { result ≡ is_word_writable place.code place.address (means self.now) }
    {
        self.is_writable(place) && self.is_writable(place.next())
    }

    // The two bytes of a word, the high one first, if both are answered.
    fn read_word(&self, place: Place) -> Option<(u8, u8)>
        ensures { result ≡ word_read place.code place.address (means self.now) }
    {
        Some((self.read(place)?, self.read(place.next())?))
    }

    // Sets the two bytes of a word, if both are answered; otherwise nothing changes.
    fn write_word(&mut self, place: Place, high: u8, low: u8)
        ensures after { means self.new ≡ word_written place.code place.address high low (means self.old) }
        ensures lent { loans self.new ≡ loans self.old }
    {
        if self.is_word_writable(place) {
            self.write(place, high);
            self.write(place.next(), low);
        }
    }
}
