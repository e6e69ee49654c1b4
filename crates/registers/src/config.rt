// The fields of the configuration registers. Each is read by its mask and shift once, as a kind; a value that means
// nothing is None.
ghost use Rattle.std.specs.Prelude.{◌≡◌, nat_le};
ghost use Rattle.registers.specs.Bits.{odd};
ghost use Rattle.registers.specs.Config.{mode_of, device_type_of, is_port16, size_given, chain_given, reqg, requests_of, counting_of, mac, dac, is_single, is_chained, is_array, is_burst, is_inward, is_device_memory, size_of, chain_of, bytes_of, moved_as, next_mar, stride, next_dar, is_misplaced, is_field_unused, is_single_unfit, is_dual_unfit, is_unusable};

use crate::groups::{Chain, Config, Counting, DeviceType, RequestMode, Requests, Size};

impl Config {
    // No TryFrom: what a number means belongs to its field, and there is no error to tell.
    fn xrm(&self) -> Option<RequestMode>
        ensures { result ≡ mode_of self.now }
    {
        match self.dcr >> 6 {
            0 => Some(RequestMode::Burst),
            1 => None,
            _ => Some(RequestMode::CycleSteal),
        }
    }

    fn dtyp(&self) -> DeviceType
        ensures { result ≡ device_type_of self.now }
    {
        match (self.dcr >> 4) & 3 {
            0 => DeviceType::Dual,
            1 => DeviceType::DualDevice,
            _ => DeviceType::Single,
        }
    }

    // Whether the device has a port of 16 bits, and not of 8.
    pub fn is_port16(&self) -> bool
        ensures { result ≡ is_port16 self.now }
    {
        self.dcr & 0x08 != 0
    }

    fn size_field(&self) -> Option<Size>
        ensures { result ≡ size_given self.now }
    {
        match (self.ocr >> 4) & 3 {
            0 => Some(Size::Byte),
            1 => Some(Size::Word),
            2 => Some(Size::Long),
            _ => None,
        }
    }

    fn chain_field(&self) -> Option<Chain>
        ensures { result ≡ chain_given self.now }
    {
        match (self.ocr >> 2) & 3 {
            0 => Some(Chain::Plain),
            2 => Some(Chain::Array),
            3 => Some(Chain::Linked),
            _ => None,
        }
    }

    // Where the operation's requests come from.
    pub fn reqg(&self) -> Requests
        ensures { result ≡ requests_of self.now }
    {
        match self.ocr & 3 {
            0 => Requests::LimitedRate,
            1 => Requests::MaximumRate,
            2 => Requests::Line,
            _ => Requests::FirstAutomatic,
        }
    }

    // At either rate, the channel makes all its requests itself.
    fn is_automatic(&self) -> bool
        ensures { result ≡ nat_le (reqg self.now) 1 }
    {
        matches!(self.reqg(), Requests::LimitedRate | Requests::MaximumRate)
    }

    fn mac(&self) -> Option<Counting>
        ensures { result ≡ counting_of (mac self.now) }
    {
        counting((self.scr >> 2) & 3)
    }

    fn dac(&self) -> Option<Counting>
        ensures { result ≡ counting_of (dac self.now) }
    {
        counting(self.scr & 3)
    }

    // Whether one cycle joins the device and memory, so that the device needs no address.
    pub fn is_single(&self) -> bool
        ensures { result ≡ is_single self.now }
    {
        self.dtyp() == DeviceType::Single
    }

    // Whether a table says where the operation's blocks lie, as an array or as linked entries.
    pub fn is_chained(&self) -> bool
        ensures { result ≡ is_chained self.now }
    {
        self.chain() != Chain::Plain
    }

    // Whether the entries of the operation's blocks lie one after the other.
    pub fn is_array(&self) -> bool
        ensures { result ≡ is_array self.now }
    {
        self.chain() == Chain::Array
    }

    // Whether the request line asks while it is on, and not by a change from off to on.
    pub fn is_burst(&self) -> bool
        ensures { result ≡ is_burst self.now }
    {
        self.xrm() == Some(RequestMode::Burst)
    }

    // From the device to memory.
    pub fn is_inward(&self) -> bool
        ensures { result ≡ is_inward self.now }
    {
        self.ocr & 0x80 != 0
    }

    // Whether the device side is memory too.
    pub fn is_device_memory(&self) -> bool
        ensures { result ≡ is_device_memory self.now }
    {
        self.dtyp() == DeviceType::Dual && self.is_automatic()
    }

    // The size of an operand; a field that means nothing counts as a long.
    pub fn size(&self) -> Size
        ensures { result ≡ size_of self.now }
    {
        self.size_field().unwrap_or(Size::Long)
    }

    // Where the operation's blocks come from; a field that means nothing counts as no chaining.
    pub fn chain(&self) -> Chain
        ensures { result ≡ chain_of self.now }
    {
        self.chain_field().unwrap_or(Chain::Plain)
    }

    fn bytes(&self) -> u32
        ensures { result ≡ bytes_of (size_of self.now) }
    {
        match self.size() {
            Size::Byte => 1,
            Size::Word => 2,
            Size::Long => 4,
        }
    }

    // A port of 8 bits takes every other byte.
    fn stride(&self) -> u32
        ensures { result ≡ stride self.now }
    {
        if self.is_port16() {
            self.bytes()
        } else {
            2 * self.bytes()
        }
    }

    // The memory address after an operand.
    pub fn next_mar(&self, mar: u32) -> u32
        ensures { result ≡ next_mar self.now mar }
    {
        moved(self.mac(), self.bytes(), mar)
    }

    // The device address after an operand.
    pub fn next_dar(&self, dar: u32) -> u32
        ensures { result ≡ next_dar self.now dar }
    {
        if self.is_single() {
            dar
        } else {
            moved(self.dac(), self.stride(), dar)
        }
    }

    // An address at which no operand of this size may lie.
    pub fn is_misplaced(&self, address: u32) -> bool
        ensures { result ≡ is_misplaced self.now address }
    {
        self.size() != Size::Byte && is_odd(address)
    }

    fn is_field_unused(&self) -> bool
        ensures { result ≡ is_field_unused self.now }
    {
        self.xrm().is_none()
            || self.size_field().is_none()
            || self.chain_field().is_none()
            || self.mac().is_none()
            || self.dac().is_none()
    }

    // Single addressing joins memory and device in one cycle, so an operand has the width of the port.
    fn is_single_unfit(&self) -> bool
        ensures { result ≡ is_single_unfit self.now }
    {
        let fit = if self.is_port16() {
            Size::Word
        } else {
            Size::Byte
        };
        self.is_single() && self.size() != fit
    }

    fn is_dual_unfit(&self) -> bool
        ensures { result ≡ is_dual_unfit self.now }
    {
        !self.is_single() && self.is_port16() && self.size() == Size::Byte && !self.is_automatic()
    }

    // Settings that no start takes, with or without the continue bit.
    pub fn is_unusable(&self, cnt: bool) -> bool
        ensures { result ≡ is_unusable cnt self.now }
    {
        self.is_field_unused()
            || (cnt && self.is_chained())
            || self.is_single_unfit()
            || self.is_dual_unfit()
    }
}

// Whether an address is odd: no word may lie there.
pub fn is_odd(address: u32) -> bool
    ensures { result ≡ odd address }
{
    address % 2 == 1
}

// A field that says how an address counts.
fn counting(field: u8) -> Option<Counting>
    ensures { result ≡ counting_of field }
{
    match field {
        0 => Some(Counting::Still),
        1 => Some(Counting::Up),
        2 => Some(Counting::Down),
        _ => None,
    }
}

fn moved(count: Option<Counting>, by: u32, address: u32) -> u32
    ensures { result ≡ moved_as count by address }
{
    match count {
        Some(Counting::Up) => address.wrapping_add(by),
        Some(Counting::Down) => address.wrapping_sub(by),
        Some(Counting::Still) | None => address,
    }
}
