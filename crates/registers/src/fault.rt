// What can go wrong in a channel, and the code that the error register then shows.
ghost use Rattle.std.specs.Prelude.{◌≡◌};
ghost use Rattle.registers.specs.Fault.{code_of};

// Each with its code; specs/Fault.antt says when it occurs.
#[derive(Clone, Copy, PartialEq, Eq, Debug)]
pub enum Fault {
    Configuration = 1,
    Timing = 2,
    MemoryAddress = 5,
    DeviceAddress = 6,
    BaseAddress = 7,
    MemoryBus = 9,
    DeviceBus = 10,
    BaseBus = 11,
    MemoryCount = 13,
    BaseCount = 15,
    Abort = 17,
}

impl Fault {
    // What the error register shows. A method and no From: its name says which number it is.
    pub fn code(self) -> u8
        ensures { result ≡ code_of self }
    {
        self as u8
    }
}
