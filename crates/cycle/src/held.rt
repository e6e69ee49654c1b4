// The bytes that a channel holds between the cycles of an operand.
ghost use Rattle.std.specs.Prelude.{◌≡◌};
ghost use Rattle.cycle.specs.Held.{held_first, held_rest, held_more};

use crate::record::Data;
use channel::state::Held;

// The first byte held, or the first two.
pub(crate) fn first_of(held: Held, word: bool) -> Data
    ensures { result ≡ held_first word held }
{
    let (first, second) = match held {
        Held::NoByte => (0, 0),
        Held::OneByte(a) => (a, 0),
        Held::TwoBytes(a, b) => (a, b),
    };
    if word {
        Data::Word(first, second)
    } else {
        Data::Byte(first)
    }
}

// What is held without them.
pub(crate) fn rest_of(held: Held, word: bool) -> Held
    ensures { result ≡ held_rest word held }
{
    match (word, held) {
        (false, Held::TwoBytes(_, b)) => Held::OneByte(b),
        _ => Held::NoByte,
    }
}

// What is held with more.
pub(crate) fn with_more(held: Held, bytes: Data) -> Held
    ensures { result ≡ held_more bytes held }
{
    match (held, bytes) {
        (Held::NoByte, Data::Byte(a)) => Held::OneByte(a),
        (Held::NoByte, Data::Word(a, b)) => Held::TwoBytes(a, b),
        (Held::OneByte(x), Data::Byte(a) | Data::Word(a, _)) => Held::TwoBytes(x, a),
        (Held::TwoBytes(..), _) => held,
    }
}
