// Reading and writing the registers of a channel.
ghost use Rattle.std.specs.Prelude.{◌≡◌, ◌-◌, ◌<◌, min, slice_index, slice_set};
ghost use Rattle.channel.specs.Read.{register_read};
ghost use Rattle.channel.specs.Write.{register_written, reached, half_written, written};

use crate::decode::{Access, Register, decode};
use crate::state::Channel;
use registers::fault::Fault;

impl Channel {
    // What a register byte reads.
    pub fn read(&self, register: Register) -> u8
        ensures { result ≡ register_read register self.now }
    {
        match register {
            Register::Csr => self.registers.status.csr,
            Register::Cer => self.registers.status.cer,
            Register::Dcr => self.registers.config.dcr,
            Register::Ocr => self.registers.config.ocr,
            Register::Scr => self.registers.config.scr,
            Register::Ccr => self.registers.control.ccr,
            Register::Mtc(k) => byte_of(k, self.registers.counters.mtc.to_be_bytes()),
            Register::Mar(k) => byte_of(k, self.registers.counters.mar.to_be_bytes()),
            Register::Dar(k) => byte_of(k, self.registers.counters.dar.to_be_bytes()),
            Register::Btc(k) => byte_of(k, self.registers.table.btc.to_be_bytes()),
            Register::Bar(k) => byte_of(k, self.registers.table.bar.to_be_bytes()),
            Register::Niv => self.registers.vectors.niv,
            Register::Eiv => self.registers.vectors.eiv,
            Register::Mfc => self.registers.counters.mfc,
            Register::Dfc => self.registers.config.dfc,
            Register::Bfc => self.registers.table.bfc,
            Register::Cpr => self.registers.vectors.cpr,
        }
    }

    // A write that is made, whatever the channel is doing.
    // The five longer registers have an arm each, since each has a field and a width of its own.
    fn store(&mut self, register: Register, value: u8)
        ensures { self.new ≡ register_written register value self.old }
    {
        match register {
            Register::Csr => self.registers.status.clear(value),
            Register::Cer => {}
            Register::Dcr => self.registers.config.dcr = value & 0xF8,
            Register::Ocr => self.registers.config.ocr = value & 0xBF,
            Register::Scr => self.registers.config.scr = value & 0x0F,
            Register::Ccr => self.write_control(value),
            Register::Mtc(k) => {
                let bytes = with_byte(k, value, self.registers.counters.mtc.to_be_bytes());
                self.registers.counters.mtc = u16::from_be_bytes(bytes);
            }
            Register::Mar(k) => {
                let bytes = with_byte(k, value, self.registers.counters.mar.to_be_bytes());
                self.registers.counters.mar = u32::from_be_bytes(bytes);
            }
            Register::Dar(k) => {
                let bytes = with_byte(k, value, self.registers.counters.dar.to_be_bytes());
                self.registers.counters.dar = u32::from_be_bytes(bytes);
            }
            Register::Btc(k) => {
                let bytes = with_byte(k, value, self.registers.table.btc.to_be_bytes());
                self.registers.table.btc = u16::from_be_bytes(bytes);
            }
            Register::Bar(k) => {
                let bytes = with_byte(k, value, self.registers.table.bar.to_be_bytes());
                self.registers.table.bar = u32::from_be_bytes(bytes);
            }
            Register::Niv => self.registers.vectors.niv = value,
            Register::Eiv => self.registers.vectors.eiv = value,
            Register::Mfc => self.registers.counters.mfc = value & 7,
            Register::Dfc => self.registers.config.dfc = value & 7,
            Register::Bfc => self.registers.table.bfc = value & 7,
            Register::Cpr => self.registers.vectors.cpr = value & 3,
        }
    }

    // What a write at an offset (below 64) reaches now; `number` is this channel's.
    pub fn reach(&self, number: u8, offset: u8) -> Access
        ensures { result ≡ reached number offset self.now }
    {
        decode(
            number,
            offset,
            self.registers.status.is_active(),
            self.registers.config.is_chained(),
        )
    }

    fn write_half(&mut self, half: Access, value: u8)
        ensures { self.new ≡ half_written half value self.old }
    {
        if let Access::To(register) = half {
            self.store(register, value);
        }
    }

    // A write of two halves, of which one bars both.
    pub fn write(&mut self, high: Access, high_value: u8, low: Access, low_value: u8)
        ensures { self.new ≡ written high high_value low low_value self.old }
    {
        if high == Access::Barred || low == Access::Barred {
            self.fail(Fault::Timing);
            return;
        }
        self.write_half(high, high_value);
        self.write_half(low, low_value);
    }
}

// Byte k of a register, from the high end; a number past the last byte means the last.
fn byte_of<const N: usize>(k: u8, bytes: [u8; N]) -> u8
    requires { 0 < N }
    ensures { result ≡ slice_index bytes.entry (min k (N - 1)) }
{
    bytes[usize::from(k).min(N - 1)]
}

// The register's bytes with byte k replaced.
fn with_byte<const N: usize>(k: u8, value: u8, mut bytes: [u8; N]) -> [u8; N]
    requires { 0 < N }
    ensures { result ≡ slice_set bytes.entry (min k (N - 1)) value }
{
    bytes[usize::from(k).min(N - 1)] = value;
    bytes
}
