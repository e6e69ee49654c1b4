// The status byte: what stands in it, and what changes it.
ghost use Rattle.std.specs.Prelude.{◌≡◌};
ghost use Rattle.registers.specs.Status.{is_active, is_block_done, is_busy, failed, activated, completed, ended, block_done, cleared};

use crate::fault::Fault;
use crate::groups::Status;

// The bits of the byte: operation complete, block complete, ended by the device, error and active.
pub const COC: u8 = 0x80;

pub const BLOCK: u8 = 0x40;

pub const NDT: u8 = 0x20;

pub const ERR: u8 = 0x10;

pub const ACT: u8 = 0x08;

impl Status {
    // Whether an operation is under way.
    pub fn is_active(&self) -> bool
        ensures { result ≡ is_active self.now }
    {
        self.csr & ACT != 0
    }

    // Whether a block of a continued operation is complete.
    pub fn is_block_done(&self) -> bool
        ensures { result ≡ is_block_done self.now }
    {
        self.csr & BLOCK != 0
    }

    // Whether something of an operation stands, so that none may start.
    pub fn is_busy(&self) -> bool
        ensures { result ≡ is_busy self.now }
    {
        self.csr & (COC | BLOCK | NDT | ERR | ACT) != 0
    }

    // An error: the first one's code is kept.
    pub fn fail(&mut self, fault: Fault)
        ensures { self.new ≡ failed fault self.old }
    {
        if self.csr & ERR == 0 {
            self.cer = fault.code();
        }
        self.csr = (self.csr | (COC | ERR)) & !ACT;
    }

    // An operation starts.
    pub fn activate(&mut self)
        ensures { self.new ≡ activated self.old }
    {
        self.csr |= ACT;
    }

    // The operation is complete.
    pub fn complete(&mut self)
        ensures { self.new ≡ completed self.old }
    {
        self.csr = (self.csr | COC) & !ACT;
    }

    // The device has ended the operation.
    pub fn end(&mut self)
        ensures { self.new ≡ ended self.old }
    {
        self.csr = (self.csr | (COC | NDT)) & !ACT;
    }

    // A block is complete, and the operation goes on with the next.
    pub fn end_block(&mut self)
        ensures { self.new ≡ block_done self.old }
    {
        self.csr |= BLOCK;
    }

    // Each of bits 7 to 4 that is 1 in the value is cleared.
    pub fn clear(&mut self, value: u8)
        ensures { self.new ≡ cleared value self.old }
    {
        self.csr &= !(value & (COC | BLOCK | NDT | ERR));
        if value & ERR != 0 {
            self.cer = 0;
        }
    }
}
