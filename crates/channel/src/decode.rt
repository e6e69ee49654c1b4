// Which register byte stands at which offset.
ghost use Rattle.std.specs.Prelude.{◌≡◌};
ghost use Rattle.channel.specs.Decode.{access_at};

// A register byte of a channel. The number of a byte of a longer register counts from the high end.
#[derive(Clone, Copy, PartialEq, Eq, Debug)]
pub enum Register {
    Csr,
    Cer,
    Dcr,
    Ocr,
    Scr,
    Ccr,
    Mtc(u8),
    Mar(u8),
    Dar(u8),
    Btc(u8),
    Bar(u8),
    Niv,
    Eiv,
    Mfc,
    Dfc,
    Bfc,
    Cpr,
}

// What an access at an offset reaches: no register, a register that is barred from writing, a register of the
// channel, or the general control register.
#[derive(Clone, Copy, PartialEq, Eq, Debug)]
pub enum Access {
    Nowhere,
    Barred,
    To(Register),
    General,
}

// What a write at an offset (below 64) of a channel reaches, if the channel is active or not, and chained or
// not. A read reaches what a write reaches in a channel that is not active.
pub fn decode(channel: u8, offset: u8, active: bool, chained: bool) -> Access
    ensures { result ≡ access_at channel offset active chained }
{
    match offset {
        0x04..=0x06 | 0x0A..=0x0F | 0x14..=0x17 | 0x29 | 0x31 if active => Access::Barred,
        0x1A..=0x1F | 0x39 if active && chained => Access::Barred,
        0x00 => Access::To(Register::Csr),
        0x01 => Access::To(Register::Cer),
        0x04 => Access::To(Register::Dcr),
        0x05 => Access::To(Register::Ocr),
        0x06 => Access::To(Register::Scr),
        0x07 => Access::To(Register::Ccr),
        n @ 0x0A..=0x0B => Access::To(Register::Mtc(n - 0x0A)),
        n @ 0x0C..=0x0F => Access::To(Register::Mar(n - 0x0C)),
        n @ 0x14..=0x17 => Access::To(Register::Dar(n - 0x14)),
        n @ 0x1A..=0x1B => Access::To(Register::Btc(n - 0x1A)),
        n @ 0x1C..=0x1F => Access::To(Register::Bar(n - 0x1C)),
        0x25 => Access::To(Register::Niv),
        0x27 => Access::To(Register::Eiv),
        0x29 => Access::To(Register::Mfc),
        0x2D => Access::To(Register::Cpr),
        0x31 => Access::To(Register::Dfc),
        0x39 => Access::To(Register::Bfc),
        0x3F if channel == 3 => Access::General,
        _ => Access::Nowhere,
    }
}
