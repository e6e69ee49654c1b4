// The bytes of a fill, and the answers. An answer is added to a `Vec<u8>`, and to no `String`: what a caller has
// put there before may be any bytes.
ghost use Rattle.std.specs.Prelude.{◌≡◌, ◌+◌, ◌*◌, ◌/◌, ◌<◌, ◌++◌, length, OnOk, Some, slice_index};
ghost use Rattle.std.specs.Fmt.{AppendsText};
ghost use Rattle.std.specs.Iterator.{YieldsFirst, item_count};
ghost use Rattle.script.specs.Digits.{digit_value, data_bytes};
ghost use Rattle.script.specs.Text.{hex_code, hex_text, newline, ok_text, byte_text, refusal_text};

use crate::digits::digit;
use refusal::kinds::Refusal;
use std::alloc::AllocError;
use std::fmt;

// The value of a digit, where a byte that is none counts 0.
fn value(code: u8) -> u8
    ensures counted { result ≡ digit_value code }
    ensures small { result < 16 }
{
    digit(code).unwrap_or(0)
}

// The byte that two digits spell, where a byte that is no digit counts 0.
fn spelled(high: u8, low: u8) -> u8
    ensures { result ≡ 16 * digit_value high + digit_value low }
{
    16 * value(high) + value(low)
}

// The bytes that pairs of digits spell, one after the other.
#[derive(Drop)]
pub struct DataBytes<'a> {
    digits: &'a [u8],
}

impl<'a> DataBytes<'a> {
    // The bytes that these digits spell; a digit left over at the end spells none.
    pub fn of(digits: &'a [u8]) -> DataBytes<'a>
        ensures { result.digits.now ≡ digits.now }
    {
        DataBytes { digits }
    }
}

impl<'a> Iterator for DataBytes<'a> {
    type Item = u8;

    ghost next_gives = { YieldsFirst (λ s. data_bytes s.digits.now) };

    ghost remaining = { item_count (λ s. data_bytes s.digits.now) };

    fn next(&mut self) -> Option<u8> {
        match self.digits {
            [high, low, rest @ ..] => {
                self.digits = rest;
                Some(spelled(*high, *low))
            }
            _ => None,
        }
    }
}

// How many bytes the pairs of `digits` spell.
pub fn data_count(digits: &[u8]) -> usize
    ensures bytes { result ≡ length (data_bytes digits.now) }
    ensures half { result ≡ length digits.now / 2 }
{
    digits.len() / 2
}

// The byte that the pair number `index` of `digits` spells, or 0 where there is none.
pub fn byte_at(digits: &[u8], index: usize) -> u8
    ensures { result ≡ slice_index (data_bytes digits.now) index }
{
    if index < data_count(digits) {
        let (pairs, _) = digits.as_chunks::<2>();
        let [high, low] = pairs[index];
        spelled(high, low)
    } else {
        0
    }
}

// The code of a digit.
fn digit_code(digit: u8) -> u8
    requires { digit < 16 }
    ensures { result ≡ hex_code digit }
{
    if digit < 10 {
        b'0' + digit
    } else {
        b'A' - 10 + digit
    }
}

// A byte as two digits.
pub fn hex_pair(byte: u8) -> [u8; 2]
    ensures { result ≡ hex_text byte }
{
    [digit_code(byte / 16), digit_code(byte % 16)]
}

// A byte that is printed as two digits.
#[derive(Clone, Copy, PartialEq, Eq, Debug)]
pub struct Hex(pub u8);

impl fmt::Display for Hex {
    ghost output = { λ h. Some (hex_text h.0) };

    fn fmt<W: fmt::Write>(&self, f: &mut fmt::Formatter<W>) -> fmt::Result {
        let byte = self.0;
        write!(f, "{byte:02X}")
    }
}

// Adds what a value prints to what `out` holds. By way of a String, whose error is an AllocError, for want of memory and
// where the value's own `fmt` fails; `write!` onto a Vec fails by an io::Error. The functions below need no String.
pub fn put<D: fmt::Display + Drop>(out: &mut Vec<u8>, text: D) -> Result<(), AllocError>
    ensures { OnOk result (AppendsText out.old.items out.new.items (D.output text)) }
{
    let text = text.to_string(*out.allocator())?;
    out.extend_from_slice(text.as_bytes())
}

// Adds bytes to what `out` holds.
pub fn put_text(out: &mut Vec<u8>, text: &[u8]) -> Result<(), AllocError>
    ensures { OnOk result (out.new.items ≡ out.old.items ++ text.now) }
{
    out.extend_from_slice(text)
}

// Adds a byte as two digits to `out`.
pub fn put_pair(out: &mut Vec<u8>, byte: u8) -> Result<(), AllocError>
    ensures { OnOk result (out.new.items ≡ out.old.items ++ hex_text byte) }
{
    put_text(out, &hex_pair(byte))
}

// Ends the line that `out` ends with.
pub fn put_newline(out: &mut Vec<u8>) -> Result<(), AllocError>
    ensures { OnOk result (out.new.items ≡ out.old.items ++ newline) }
{
    put_text(out, b"\n")
}

// Adds the answer `OK`.
pub fn put_ok(out: &mut Vec<u8>) -> Result<(), AllocError>
    ensures { OnOk result (out.new.items ≡ out.old.items ++ ok_text) }
{
    put_text(out, b"OK\n")
}

// Adds the answer that is a byte, as `2A`.
pub fn put_byte(out: &mut Vec<u8>, byte: u8) -> Result<(), AllocError>
    ensures { OnOk result (out.new.items ≡ out.old.items ++ byte_text byte) }
{
    let [high, low] = hex_pair(byte);
    put_text(out, &[high, low, b'\n'])
}

// Adds the answer that is a refusal, as `E 06`.
pub fn put_refusal(out: &mut Vec<u8>, refusal: Refusal) -> Result<(), AllocError>
    ensures { OnOk result (out.new.items ≡ out.old.items ++ refusal_text refusal) }
{
    let number = refusal.number();
    let text = [b'E', b' ', b'0' + number / 10, b'0' + number % 10, b'\n'];
    put_text(out, &text)
}
