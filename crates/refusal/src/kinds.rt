// The cases, each with its number; specs/Number.antt has the condition of each.
#[derive(Clone, Copy, PartialEq, Eq, Debug)]
pub enum Refusal {
    NoRegister = 1,
    OddWord = 2,
    NoChannel = 3,
    StartByWord = 4,
    NoException = 5,
    NoCommand = 6,
    PastTheEnd = 7,
    NoPlace = 8,
    NoInterrupt = 9,
    TraceFull = 10,
}
