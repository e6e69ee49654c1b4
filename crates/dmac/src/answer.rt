// What a bus step answers.
use cycle::record::Record;

// The controller was reset; no channel wants the bus; the cycle is halted; the cycle is to be retried; a device is
// waited for; or a cycle was carried out, or an error came in its place.
#[derive(Clone, Copy, PartialEq, Eq, Debug)]
pub enum Answer {
    Reset,
    Idle,
    Halted,
    Retry,
    Waiting,
    Recorded(Record),
}
