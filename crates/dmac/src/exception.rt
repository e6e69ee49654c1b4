// The exceptions that come with a bus step.
ghost use Rattle.dmac.specs.Exception.{Decodes};

use refusal::kinds::Refusal;

// The controller is reset; the bus is given up and the cycle is to be retried; it is to be retried; a bus error; the
// cycle is halted; or there is no exception. (Absent is a case and no None: it is one of the codes, 7.)
#[derive(Clone, Copy, PartialEq, Eq, Debug)]
pub(crate) enum Exception {
    Reset,
    Relinquish,
    Retry,
    BusError,
    Halt,
    Absent,
}

impl TryFrom<u8> for Exception {
    type Error = Refusal;

    ghost try_from_gives = { Decodes };

    fn try_from(code: u8) -> Result<Exception, Refusal> {
        match code {
            0 => Ok(Exception::Reset),
            3 => Ok(Exception::Relinquish),
            4 => Ok(Exception::Retry),
            5 => Ok(Exception::BusError),
            6 => Ok(Exception::Halt),
            7 => Ok(Exception::Absent),
            _ => Err(Refusal::NoException),
        }
    }
}
