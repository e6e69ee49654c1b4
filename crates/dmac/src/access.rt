// Register access: reading and writing a byte or a word at an offset.
ghost use Rattle.std.specs.Prelude.{◌≡◌, ◌/◌, ◌%◌, ◌<◌, Some, None, MatchResult};
ghost use Rattle.dmac.specs.Access.{register_of, register_after, reach_of, reach_after, is_nowhere, is_control, is_no_word, starts_by_word, word_refusal, half_read, byte_read, word_read, taken_in, byte_written, word_taken_in, word_written};

use crate::controller::Dmac;
use channel::decode::{Access, Register, decode};
use refusal::kinds::Refusal;
use registers::control::STR;

fn channel_of(offset: u8) -> u8
    ensures { result ≡ offset / 64 }
{
    offset >> 6
}

fn offset_within(offset: u8) -> u8
    ensures { result ≡ offset % 64 }
{
    offset % 64
}

fn register_of(offset: u8) -> Access
    ensures { result ≡ register_of offset }
{
    decode(channel_of(offset), offset_within(offset), false, false)
}

fn register_after(offset: u8) -> Access
    ensures { result ≡ register_after offset }
{
    offset.checked_add(1).map_or(Access::Nowhere, register_of)
}

fn is_nowhere(access: Access) -> bool
    ensures { result ≡ is_nowhere access }
{
    access == Access::Nowhere
}

fn is_control(access: Access) -> bool
    ensures { result ≡ is_control access }
{
    access == Access::To(Register::Ccr)
}

fn is_no_word(offset: u8) -> bool
    ensures { result ≡ is_no_word offset }
{
    is_nowhere(register_of(offset)) && is_nowhere(register_after(offset))
}

fn starts_by_word(offset: u8, value: u16) -> bool
    ensures { result ≡ starts_by_word offset value }
{
    let [_, low] = value.to_be_bytes();
    is_control(register_after(offset)) && low & STR != 0
}

// Whether a word access at this offset is allowed, or why it is refused.
fn allow_word(offset: u8, starts: bool) -> Result<(), Refusal>
    ensures { MatchResult result (λ _. word_refusal offset starts ≡ None) (λ r. word_refusal offset starts ≡ Some r) }
{
    if is_no_word(offset) {
        return Err(Refusal::NoRegister);
    }
    if offset % 2 == 1 {
        return Err(Refusal::OddWord);
    }
    if starts {
        return Err(Refusal::StartByWord);
    }
    Ok(())
}

impl Dmac {
    fn read_half(&self, half: Access, channel: u8) -> u8
        requires { channel < 4 }
        ensures { result ≡ half_read half channel self.now }
    {
        match half {
            Access::Nowhere | Access::Barred => 0,
            Access::To(register) => self.channels[channel as usize].read(register),
            Access::General => self.gcr,
        }
    }

    // A register byte. (A word has refusals of its own, and one barred half bars both: so bytes and words have calls each.)
    pub fn read_byte(&self, offset: u8) -> Result<u8, Refusal>
        ensures { result ≡ byte_read offset self.now }
    {
        let register = register_of(offset);
        if is_nowhere(register) {
            return Err(Refusal::NoRegister);
        }
        Ok(self.read_half(register, channel_of(offset)))
    }

    // Two register bytes, the high one at the offset and the low one after it.
    pub fn read_word(&self, offset: u8) -> Result<u16, Refusal>
        ensures { result ≡ word_read offset self.now }
    {
        allow_word(offset, false)?;
        let high = self.read_half(register_of(offset), channel_of(offset));
        let low = self.read_half(register_after(offset), channel_of(offset));
        Ok(u16::from_be_bytes([high, low]))
    }

    fn reach_of(&self, offset: u8) -> Access
        ensures { result ≡ reach_of offset self.now }
    {
        let channel = channel_of(offset);
        self.channels[channel as usize].reach(channel, offset_within(offset))
    }

    // (`register_after` asks the table, and this one the channel.)
    fn reach_after(&self, offset: u8) -> Access
        ensures { result ≡ reach_after offset self.now }
    {
        offset
            .checked_add(1)
            .map_or(Access::Nowhere, |next| self.reach_of(next))
    }

    // The halves and their bytes stay four parameters, as `written` has them: only two functions take them.
    fn take_in(&mut self, channel: u8, high: Access, high_value: u8, low: Access, low_value: u8)
        requires { channel < 4 }
        ensures { self.new ≡ taken_in channel high high_value low low_value self.old }
    {
        match low {
            Access::General => self.gcr = low_value & 0x0F,
            Access::Nowhere | Access::Barred | Access::To(_) => {
                self.channels[channel as usize].write(high, high_value, low, low_value);
            }
        }
    }

    // Writes a register byte.
    pub fn write_byte(&mut self, offset: u8, value: u8) -> Result<(), Refusal>
        ensures { record { state = self.new; answer = result } ≡ byte_written offset value self.old }
    {
        if is_nowhere(register_of(offset)) {
            return Err(Refusal::NoRegister);
        }
        let low = self.reach_of(offset);
        self.take_in(channel_of(offset), Access::Nowhere, 0, low, value);
        Ok(())
    }

    fn take_in_word(&mut self, offset: u8, value: u16)
        ensures { self.new ≡ word_taken_in offset value self.old }
    {
        let high = self.reach_of(offset);
        let low = self.reach_after(offset);
        let [high_value, low_value] = value.to_be_bytes();
        self.take_in(channel_of(offset), high, high_value, low, low_value);
    }

    // Writes two register bytes, or neither.
    pub fn write_word(&mut self, offset: u8, value: u16) -> Result<(), Refusal>
        ensures { record { state = self.new; answer = result } ≡ word_written offset value self.old }
    {
        allow_word(offset, starts_by_word(offset, value))?;
        self.take_in_word(offset, value);
        Ok(())
    }
}
