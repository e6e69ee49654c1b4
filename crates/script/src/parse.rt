// What a line says: the numbers in it, then one function for each form of line, then the choice by the letter.
ghost use Rattle.std.specs.Prelude.{◌≡◌, cond, ◌&&◌, ◌==◌, [], ◌∷◌, length};
ghost use Rattle.script.specs.Command.{said, no_command, blank_at, pair_at, address_at, write_line, read_line, fill_line, show_line, run_line, by_letter, parsed};

use crate::command::Command;
use crate::digits::{all_digits, digit};
use refusal::kinds::Refusal;

// The byte that two digits spell; a byte that is no digit makes the line no command.
fn pair(high: u8, low: u8) -> Result<u8, Refusal>
    ensures { result ≡ pair_at (high ∷ low ∷ []) 0 }
{
    let high = digit(high).ok_or(Refusal::NoCommand)?;
    let low = digit(low).ok_or(Refusal::NoCommand)?;
    Ok(16 * high + low)
}

// The address that six digits spell.
fn address(digits: [u8; 6]) -> Result<u32, Refusal>
    ensures { result ≡ address_at digits 0 }
{
    let [a, b, c, d, e, f] = digits;
    let high = pair(a, b)?;
    let mid = pair(c, d)?;
    let low = pair(e, f)?;
    Ok(u32::from_be_bytes([0, high, mid, low]))
}

// The pair of a line that is a letter, a blank and two digits.
fn lone_pair(line: &[u8]) -> Result<u8, Refusal>
    ensures { result ≡ cond (length line.now == 4 && blank_at line.now 1) (pair_at line.now 2) no_command }
{
    let &[_, b' ', a, b] = line else {
        return Err(Refusal::NoCommand);
    };
    pair(a, b)
}

// `W oo vv`
fn write_line<'a>(line: &'a [u8]) -> Result<Command<'a>, Refusal>
    ensures { said result ≡ write_line line.now }
{
    let &[_, b' ', a, b, b' ', c, d] = line else {
        return Err(Refusal::NoCommand);
    };
    let offset = pair(a, b)?;
    let value = pair(c, d)?;
    Ok(Command::Write { offset, value })
}

// `R oo`
fn read_line<'a>(line: &'a [u8]) -> Result<Command<'a>, Refusal>
    ensures { said result ≡ read_line line.now }
{
    let offset = lone_pair(line)?;
    Ok(Command::Read { offset })
}

// `F aaaaaa dd..dd`
fn fill_line<'a>(line: &'a [u8]) -> Result<Command<'a>, Refusal>
    ensures { said result ≡ fill_line line.now }
{
    let [_, b' ', a, b, c, d, e, f, b' ', digits @ ..] = line else {
        return Err(Refusal::NoCommand);
    };
    let len = digits.len();
    if len < 2 || len > 32 || len % 2 != 0 || !all_digits(digits) {
        return Err(Refusal::NoCommand);
    }
    let address = address([*a, *b, *c, *d, *e, *f])?;
    Ok(Command::Fill { address, digits })
}

// `M aaaaaa nn`
fn show_line<'a>(line: &'a [u8]) -> Result<Command<'a>, Refusal>
    ensures { said result ≡ show_line line.now }
{
    let &[_, b' ', a, b, c, d, e, f, b' ', g, h] = line else {
        return Err(Refusal::NoCommand);
    };
    let address = address([a, b, c, d, e, f])?;
    let count = pair(g, h)?;
    Ok(Command::Show { address, count })
}

// `S nn`
fn run_line<'a>(line: &'a [u8]) -> Result<Command<'a>, Refusal>
    ensures { said result ≡ run_line line.now }
{
    let steps = lone_pair(line)?;
    Ok(Command::Run { steps })
}

// The command of `line`, whose first byte is `letter`: a character, so that it stands here as it does in a script.
fn by_letter<'a>(letter: char, line: &'a [u8]) -> Result<Command<'a>, Refusal>
    ensures { said result ≡ by_letter letter line.now }
{
    match letter {
        'W' => write_line(line),
        'R' => read_line(line),
        'F' => fill_line(line),
        'M' => show_line(line),
        'S' => run_line(line),
        _ => Err(Refusal::NoCommand),
    }
}

// The command that a line says, its newline left out.
pub fn parse<'a>(line: &'a [u8]) -> Result<Command<'a>, Refusal>
    ensures { said result ≡ parsed line.now }
{
    match line {
        [letter, ..] => by_letter(char::from(*letter), line),
        [] => Err(Refusal::NoCommand),
    }
}
