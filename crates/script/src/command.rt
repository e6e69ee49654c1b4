// What a line of a script asks for.
#[derive(Clone, Copy, PartialEq, Eq, Debug)]
pub enum Command<'a> {
    Write { offset: u8, value: u8 },
    Read { offset: u8 },
    // The data are pairs of digits, and stay where they stand in the line.
    Fill { address: u32, digits: &'a [u8] },
    Show { address: u32, count: u8 },
    Run { steps: u8 },
}
