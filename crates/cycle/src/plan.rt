// The cycles of an operand.
ghost use Rattle.std.specs.Prelude.{◌≡◌, ◌≤◌, length};
ghost use Rattle.cycle.specs.Plan.{slot, plan_wide, plan_narrow, plan_single, plan};

use registers::groups::{Config, Size};

// What a cycle does with the operand's bytes: it reads them from their source, writes them to their destination, or
// passes them through from one to the other.
#[derive(Clone, Copy, PartialEq, Eq, Debug)]
pub enum Way {
    Source,
    Destination,
    Through,
}

// The side of the operand that a cycle addresses.
#[derive(Clone, Copy, PartialEq, Eq, Debug)]
pub enum Side {
    Memory,
    Device,
}

// One cycle of an operand: what it does, on which side, how far behind the side's address register, and whether it
// moves a word or a byte. (`word` is a flag, as specs/Plan.antt has it.)
#[derive(Clone, Copy, PartialEq, Eq, Debug)]
pub struct Slot {
    pub way: Way,
    pub side: Side,
    pub offset: u32,
    pub word: bool,
}

// A cycle, written as specs/Plan.antt writes it.
macro_rules! slot {
    ($way:ident, $side:ident, $offset:literal, $word:literal) => {
        Slot {
            way: Way::$way,
            side: Side::$side,
            offset: $offset,
            word: $word,
        }
    };
}

// A 16-bit port: one cycle on each side for each portion. (Each row stands as in specs/Plan.antt, in both
// directions: it is lent from constants, since a list that is built needs a heap or a length beside it.)
fn plan_wide(inward: bool, size: Size) -> &'static [Slot]
    ensures slots { result.now ≡ plan_wide inward size }
{
    match (inward, size) {
        (false, Size::Byte) => &[
            slot!(Source, Memory, 0, false),
            slot!(Destination, Device, 0, false),
        ],
        (false, Size::Word) => &[
            slot!(Source, Memory, 0, true),
            slot!(Destination, Device, 0, true),
        ],
        (false, Size::Long) => &[
            slot!(Source, Memory, 0, true),
            slot!(Destination, Device, 0, true),
            slot!(Source, Memory, 2, true),
            slot!(Destination, Device, 2, true),
        ],
        (true, Size::Byte) => &[
            slot!(Source, Device, 0, false),
            slot!(Destination, Memory, 0, false),
        ],
        (true, Size::Word) => &[
            slot!(Source, Device, 0, true),
            slot!(Destination, Memory, 0, true),
        ],
        (true, Size::Long) => &[
            slot!(Source, Device, 0, true),
            slot!(Destination, Memory, 0, true),
            slot!(Source, Device, 2, true),
            slot!(Destination, Memory, 2, true),
        ],
    }
}

// An 8-bit port: a byte a cycle on the device side.
fn plan_narrow(inward: bool, size: Size) -> &'static [Slot]
    ensures slots { result.now ≡ plan_narrow inward size }
{
    match (inward, size) {
        (false, Size::Byte) => &[
            slot!(Source, Memory, 0, false),
            slot!(Destination, Device, 0, false),
        ],
        (false, Size::Word) => &[
            slot!(Source, Memory, 0, true),
            slot!(Destination, Device, 0, false),
            slot!(Destination, Device, 2, false),
        ],
        (false, Size::Long) => &[
            slot!(Source, Memory, 0, true),
            slot!(Destination, Device, 0, false),
            slot!(Destination, Device, 2, false),
            slot!(Source, Memory, 2, true),
            slot!(Destination, Device, 4, false),
            slot!(Destination, Device, 6, false),
        ],
        (true, Size::Byte) => &[
            slot!(Source, Device, 0, false),
            slot!(Destination, Memory, 0, false),
        ],
        (true, Size::Word) => &[
            slot!(Source, Device, 0, false),
            slot!(Source, Device, 2, false),
            slot!(Destination, Memory, 0, true),
        ],
        (true, Size::Long) => &[
            slot!(Source, Device, 0, false),
            slot!(Source, Device, 2, false),
            slot!(Destination, Memory, 0, true),
            slot!(Source, Device, 4, false),
            slot!(Source, Device, 6, false),
            slot!(Destination, Memory, 2, true),
        ],
    }
}

// Single addressing: memory and device together.
fn plan_single(size: Size) -> &'static [Slot]
    ensures slots { result.now ≡ plan_single size }
{
    match size {
        Size::Byte => &[slot!(Through, Memory, 0, false)],
        Size::Word => &[slot!(Through, Memory, 0, true)],
        Size::Long => &[
            slot!(Through, Memory, 0, true),
            slot!(Through, Memory, 2, true),
        ],
    }
}

// The cycles of an operand under these settings, in their order.
pub fn plan(config: Config) -> &'static [Slot]
    ensures slots { result.now ≡ plan config }
    ensures few { length result.now ≤ 6 }
{
    if config.is_single() {
        plan_single(config.size())
    } else if config.is_port16() {
        plan_wide(config.is_inward(), config.size())
    } else {
        plan_narrow(config.is_inward(), config.size())
    }
}
