// The control byte: what a write stores, and the continue bit.
ghost use Rattle.std.specs.Prelude.{◌≡◌};
ghost use Rattle.registers.specs.Control.{is_continuing, is_halted, stored, continued, uncontinued};

use crate::groups::Control;

// The bits of the byte: start, continue, halt, software abort and interrupts.
pub const STR: u8 = 0x80;

pub const CNT: u8 = 0x40;

pub const HLT: u8 = 0x20;

pub const SAB: u8 = 0x10;

pub const INT: u8 = 0x08;

impl Control {
    // Whether another block follows this one, from the base registers.
    pub fn is_continuing(&self) -> bool
        ensures { result ≡ is_continuing self.now }
    {
        self.ccr & CNT != 0
    }

    // Whether the channel is kept from the bus.
    pub fn is_halted(&self) -> bool
        ensures { result ≡ is_halted self.now }
    {
        self.ccr & HLT != 0
    }

    // A write: the halt and interrupt bits are taken from the value, the continue bit stays.
    pub fn store(&mut self, value: u8)
        ensures { self.new ≡ stored value self.old }
    {
        self.ccr = (self.ccr & CNT) | (value & (HLT | INT));
    }

    // Another block is to follow.
    pub fn set_continue(&mut self)
        ensures { self.new ≡ continued self.old }
    {
        self.ccr |= CNT;
    }

    // No other block is to follow.
    pub fn drop_continue(&mut self)
        ensures { self.new ≡ uncontinued self.old }
    {
        self.ccr &= !CNT;
    }
}
