// The fields of a line, and the numbers and bytes that they spell.
ghost use Rattle.std.specs.Prelude.{◌≤◌};

use script::digits::{all_digits, digit};
use script::text::{byte_at, data_count};
use std::alloc::{AllocError, Global};
use std::num::TryFromIntError;

// A line that says nothing.
#[derive(Clone, Copy, Debug)]
pub struct BadLine;

// A number that is too large for its type.
impl From<TryFromIntError> for BadLine {
    fn from(_error: TryFromIntError) -> BadLine {
        BadLine
    }
}

// Why a line that sets up is not taken.
#[derive(Clone, Copy, Debug)]
pub enum LineError {
    BadLine,
    NoMemory(AllocError),
}

impl From<BadLine> for LineError {
    fn from(_error: BadLine) -> LineError {
        LineError::BadLine
    }
}

impl From<AllocError> for LineError {
    fn from(error: AllocError) -> LineError {
        LineError::NoMemory(error)
    }
}

// No line has more fields than five: a sixth shows that there are too many, and those after it are not looked for.
const MOST: usize = 6;

// The first fields of a line, which one blank separates; `count` says how many. They stand here and in no list, so that
// reading a line takes no memory.
#[derive(Drop)]
pub struct Fields<'a> {
    found: [&'a [u8]; MOST],
    count: usize,
    ghost within: { count ≤ 6 },
}

impl<'a> Fields<'a> {
    pub fn of(line: &'a [u8]) -> Fields<'a> {
        let mut found: [&'a [u8]; MOST] = [line; MOST];
        let mut fields = line.split(|code| *code == b' ');
        // The places are counted, since the count is told with the fields.
        for count in 0..MOST {
            match fields.next() {
                Some(field) => found[count] = field,
                None => return Fields { found, count },
            }
        }
        Fields { found, count: MOST }
    }

    pub fn as_slice(&self) -> &[&'a [u8]] {
        &self.found[..self.count]
    }
}

// What a digit more makes of a number.
fn with_digit(value: u32, base: u8, code: u8) -> Option<u32> {
    let digit = digit(code).filter(|digit| *digit < base)?;
    value
        .checked_mul(u32::from(base))?
        .checked_add(u32::from(digit))
}

// The number that digits of a base spell; bad where there is none, or another byte, or the number is too large.
fn number(field: &[u8], base: u8) -> Result<u32, BadLine> {
    if field.is_empty() {
        return Err(BadLine);
    }
    field
        .iter()
        .try_fold(0, |value, code| with_digit(value, base, *code))
        .ok_or(BadLine)
}

// A hexadecimal number of any width.
pub fn hex(field: &[u8]) -> Result<u32, BadLine> {
    number(field, 16)
}

// A hexadecimal number of so many digits.
pub fn hex_of<T: TryFrom<u32, Error = TryFromIntError>>(
    field: &[u8],
    width: usize,
) -> Result<T, BadLine> {
    if field.len() != width {
        return Err(BadLine);
    }
    Ok(T::try_from(number(field, 16)?)?)
}

// A decimal number of at most nine digits, with no leading zeros.
pub fn decimal<T: TryFrom<u32, Error = TryFromIntError>>(field: &[u8]) -> Result<T, BadLine> {
    match field {
        [b'0', _, ..] => Err(BadLine),
        _ if field.len() > 9 => Err(BadLine),
        _ => Ok(T::try_from(number(field, 10)?)?),
    }
}

// A decimal number that a call takes as a byte: one that is too large is taken as 255, which every such call refuses.
pub fn decimal_byte(field: &[u8]) -> Result<u8, BadLine> {
    Ok(u8::try_from(decimal::<u32>(field)?).unwrap_or(255))
}

// A decimal number below a limit.
pub fn decimal_below(field: &[u8], limit: u8) -> Result<u8, BadLine> {
    match decimal(field)? {
        number if number < limit => Ok(number),
        _ => Err(BadLine),
    }
}

// A line or a flag: 0 or 1.
pub fn flag(field: &[u8]) -> Result<bool, BadLine> {
    match field {
        b"0" => Ok(false),
        b"1" => Ok(true),
        _ => Err(BadLine),
    }
}

// The bytes that pairs of digits spell.
fn spelled(heap: Global, digits: &[u8]) -> Result<Vec<u8>, AllocError> {
    let mut bytes = Vec::with_capacity(heap, data_count(digits))?;
    for index in 0..data_count(digits) {
        bytes.push(byte_at(digits, index))?;
    }
    Ok(bytes)
}

// The bytes that pairs of digits spell; a hyphen stands for none. What is no pairs of digits is bad before any memory is
// taken.
pub fn bytes(heap: Global, field: &[u8]) -> Result<Vec<u8>, LineError> {
    if field == b"-".as_slice() {
        return Ok(Vec::new(heap));
    }
    if field.len() % 2 != 0 || !all_digits(field) {
        return Err(LineError::BadLine);
    }
    Ok(spelled(heap, field)?)
}
