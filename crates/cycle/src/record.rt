// What a bus cycle is told as.
ghost use Rattle.std.specs.Prelude.{◌≡◌};
ghost use Rattle.cycle.specs.Record.{kind_letter};

use registers::fault::Fault;

// The data of a cycle: a byte, or a word with its high byte first.
#[derive(Clone, Copy, PartialEq, Eq, Debug)]
pub enum Data {
    Byte(u8),
    Word(u8, u8),
}

// A cycle reads or writes an operand's bytes, or reads a word of an entry.
#[derive(Clone, Copy, PartialEq, Eq, Debug)]
pub enum Kind {
    Read,
    Write,
    Entry,
}

impl Kind {
    // The letter that stands for it. (A method and no Display: it is one letter in texts of several forms.)
    pub fn letter(self) -> char
        ensures { result ≡ kind_letter self }
    {
        match self {
            Kind::Read => 'R',
            Kind::Write => 'W',
            Kind::Entry => 'B',
        }
    }
}

// A cycle with the function code and the address that were sent (under single addressing those of the memory), or an
// error in the place of one. (Code and address stand apart and not as a Place: the texts and the law read the two
// singly.)
#[derive(Clone, Copy, PartialEq, Eq, Debug)]
pub enum Record {
    Cycle {
        channel: u8,
        kind: Kind,
        code: u8,
        address: u32,
        data: Data,
    },
    Error {
        channel: u8,
        fault: Fault,
    },
}

impl Record {
    // What a place of a trace holds before a record is put there.
    pub const BLANK: Record = Record::Error {
        channel: 0,
        fault: Fault::Configuration,
    };
}
