// The bus step and the request lines.
ghost use Rattle.std.specs.Prelude.{◌≡◌, ◌<◌, IfSome};
ghost use Rattle.cycle.specs.Surroundings.{loans_of};
ghost use Rattle.dmac.specs.Choice.{inside_of, counting_of, priorities_of, chosen};
ghost use Rattle.dmac.specs.Exception.{code_of};
ghost use Rattle.dmac.specs.Step.{machine_at, gate_of, failed, step_passed, step_on, step_chosen, step_taken};
ghost use Rattle.dmac.specs.Line.{line_changed};

use crate::answer::Answer;
use crate::controller::Dmac;
use crate::exception::Exception;
use bus::memory::Memory;
use channel::state::Channel;
use choice::choose;
use cycle::record::Record;
use cycle::serve::{Hindrance, bus_fault, is_entry_misplaced, serve};
use cycle::surroundings::Surroundings;
use devices::bank::DeviceBank;
use refusal::kinds::Refusal;
use registers::fault::Fault;
use std::array;

// What an exception makes of the next cycle: it passes, and the controller then holds the bus or not; it is
// halted; it is to be retried, and the bus is held or not; or it is a bus error.
#[derive(Clone, Copy, PartialEq, Eq, Debug)]
pub enum Gate {
    Passes(bool),
    Halts,
    Retries(bool),
    Fails,
}

// What the exception makes of a cycle, if the controller holds the bus or not. (A reset leaves no cycle to hinder.)
fn gate_of(exception: Exception, bus: bool) -> Gate
    ensures { result ≡ gate_of (code_of exception) bus }
{
    match exception {
        Exception::Halt if bus => Gate::Passes(false),
        Exception::Halt => Gate::Halts,
        Exception::BusError => Gate::Fails,
        Exception::Retry => Gate::Retries(bus),
        Exception::Relinquish => Gate::Retries(false),
        Exception::Absent | Exception::Reset => Gate::Passes(true),
    }
}

impl Dmac {
    // The channel inside an operand or entry.
    fn inside(&self) -> Option<u8>
        ensures value { result ≡ inside_of self.now }
        ensures within { IfSome result (λ c. c < 4) }
    {
        let channel = self.channels.iter().position(Channel::is_inside)?;
        Some(channel as u8)
    }

    fn counting(&self) -> [bool; 4]
        ensures { result ≡ counting_of self.now }
    {
        array::from_fn(|n| self.channels[n].is_counting())
    }

    fn priorities(&self) -> [u8; 4]
        ensures { result ≡ priorities_of self.now }
    {
        array::from_fn(|n| self.channels[n].registers.vectors.cpr)
    }

    // The channel that the next cycle is for.
    fn chosen(&self) -> Option<u8>
        ensures value { result ≡ chosen self.now }
        ensures within { IfSome result (λ c. c < 4) }
    {
        self.inside()
            .or_else(|| choose(self.counting(), self.priorities(), self.last))
    }

    // An error of a channel.
    fn fail(&mut self, channel: u8, fault: Fault) -> Answer
        requires { channel < 4 }
        ensures { record { dmac = self.new; answer = result } ≡ failed channel fault self.old }
    {
        self.channels[channel as usize].fail(fault);
        self.bus = false;
        Answer::Recorded(Record::Error { channel, fault })
    }

    // A cycle of the chosen channel that no exception hinders; the bus is then held or not.
    fn pass<M: Memory, D: DeviceBank>(
        &mut self,
        around: &mut Surroundings<M, D>,
        channel: u8,
        held: bool,
        done: bool,
    ) -> Answer
        requires { channel < 4 }
        ensures step { record { machine = machine_at M.Memory.means D.DeviceBank.bank self.new around.new; answer = result } ≡ step_passed channel held done (machine_at M.Memory.means D.DeviceBank.bank self.old around.old) }
        ensures lent { loans_of M.Memory.loans D.DeviceBank.loans around.new ≡ loans_of M.Memory.loans D.DeviceBank.loans around.old }
    {
        match serve(&mut self.channels[channel as usize], channel, around, done) {
            Ok(record) => {
                self.last = channel;
                self.bus = held;
                Answer::Recorded(record)
            }
            Err(Hindrance::Waiting) => Answer::Waiting,
            Err(Hindrance::Failed(fault)) => self.fail(channel, fault),
        }
    }

    // The step of the chosen channel.
    fn step_on<M: Memory, D: DeviceBank>(
        &mut self,
        around: &mut Surroundings<M, D>,
        channel: u8,
        exception: Exception,
        done: bool,
    ) -> Answer
        requires { channel < 4 }
        ensures step { record { machine = machine_at M.Memory.means D.DeviceBank.bank self.new around.new; answer = result } ≡ step_on channel (code_of exception) done (machine_at M.Memory.means D.DeviceBank.bank self.old around.old) }
        ensures lent { loans_of M.Memory.loans D.DeviceBank.loans around.new ≡ loans_of M.Memory.loans D.DeviceBank.loans around.old }
    {
        if is_entry_misplaced(&self.channels[channel as usize]) {
            return self.fail(channel, Fault::BaseAddress);
        }
        match gate_of(exception, self.bus) {
            Gate::Passes(held) => self.pass(around, channel, held, done),
            Gate::Halts => Answer::Halted,
            Gate::Retries(held) => {
                self.bus = held;
                Answer::Retry
            }
            Gate::Fails => {
                let fault = bus_fault(&self.channels[channel as usize]);
                self.fail(channel, fault)
            }
        }
    }

    // The step of whatever channel is chosen.
    pub(crate) fn turn<M: Memory, D: DeviceBank>(
        &mut self,
        around: &mut Surroundings<M, D>,
        exception: Exception,
        done: bool,
    ) -> Answer
        ensures step { record { machine = machine_at M.Memory.means D.DeviceBank.bank self.new around.new; answer = result } ≡ step_chosen (chosen self.old) (code_of exception) done (machine_at M.Memory.means D.DeviceBank.bank self.old around.old) }
        ensures lent { loans_of M.Memory.loans D.DeviceBank.loans around.new ≡ loans_of M.Memory.loans D.DeviceBank.loans around.old }
    {
        match self.chosen() {
            None => {
                self.bus = false;
                Answer::Idle
            }
            Some(channel) => self.step_on(around, channel, exception, done),
        }
    }

    // One bus step: at most one cycle, of the channel whose turn it is. `done` is the DONE line. (The exception comes as a
    // number from outside, and one that is no code is refused.)
    pub fn step<M: Memory, D: DeviceBank>(
        &mut self,
        around: &mut Surroundings<M, D>,
        exception: u8,
        done: bool,
    ) -> Result<Answer, Refusal>
        ensures step { record { machine = machine_at M.Memory.means D.DeviceBank.bank self.new around.new; answer = result } ≡ step_taken exception done (machine_at M.Memory.means D.DeviceBank.bank self.old around.old) }
        ensures lent { loans_of M.Memory.loans D.DeviceBank.loans around.new ≡ loans_of M.Memory.loans D.DeviceBank.loans around.old }
    {
        match Exception::try_from(exception)? {
            Exception::Reset => {
                self.reset();
                Ok(Answer::Reset)
            }
            other => Ok(self.turn(around, other, done)),
        }
    }

    // Sets a channel's request line on or off. (The number is compared first: with `get_mut` in place of the comparison the
    // proof of what the whole controller then is did not close.)
    pub fn set_line(&mut self, channel: u8, on: bool) -> Result<(), Refusal>
        ensures { record { state = self.new; answer = result } ≡ line_changed channel on self.old }
    {
        if channel > 3 {
            return Err(Refusal::NoChannel);
        }
        self.channels[channel as usize].set_line(on);
        Ok(())
    }
}
