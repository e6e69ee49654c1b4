// Runs: many bus steps in a row, into a trace.
ghost use Rattle.std.specs.Prelude.{◌≡◌, ◌<◌, Some, length};
ghost use Rattle.queue.specs.Queue.{held, capacity_of};
ghost use Rattle.cycle.specs.Surroundings.{loans_of};
ghost use Rattle.dmac.specs.Step.{Machine, machine_at};
ghost use Rattle.dmac.specs.Run.{turned_by, turned, run_on, run_taken, ending_word};

use crate::answer::Answer;
use crate::controller::Dmac;
use crate::exception::Exception;
use bus::memory::Memory;
use cycle::record::Record;
use cycle::surroundings::Surroundings;
use devices::bank::DeviceBank;
use queue::Queue;
use refusal::kinds::Refusal;
use std::fmt;

// Why a run ended: all steps are made, no channel wants the bus, a device is waited for, or the trace is full.
#[derive(Clone, Copy, PartialEq, Eq, Debug)]
pub enum Ending {
    Done,
    Idle,
    Waiting,
    Full,
}

impl fmt::Display for Ending {
    ghost output = { λ e. Some (ending_word e) };

    fn fmt<W: fmt::Write>(&self, f: &mut fmt::Formatter<W>) -> fmt::Result {
        f.write_str(match self {
            Ending::Done => "done",
            Ending::Idle => "idle",
            Ending::Waiting => "waiting",
            Ending::Full => "full",
        })
    }
}

// What a run tells: why it ended, and how many records it added to the trace.
#[derive(Clone, Copy, PartialEq, Eq, Debug)]
pub struct Ran {
    pub ending: Ending,
    pub records: u16,
}

// Adds what a step answers to a trace that has a place; why the run ends, if it does.
fn note(trace: &mut Queue<'_, Record>, answer: Answer) -> Option<Ending>
    requires { length (held trace.old) < capacity_of trace.old }
    ensures turn { (s : Machine) → record { machine = s; trace = held trace.new; stop = result } ≡ turned_by answer s (held trace.old) }
    ensures room { capacity_of trace.new ≡ capacity_of trace.old }
{
    match answer {
        Answer::Recorded(record) => {
            trace.push(record);
            None
        }
        Answer::Waiting => Some(Ending::Waiting),
        Answer::Idle | Answer::Reset | Answer::Halted | Answer::Retry => Some(Ending::Idle),
    }
}

impl Dmac {
    // One step into a trace that has a place; why the run ends, if it does.
    fn turn_into<M: Memory, D: DeviceBank>(
        &mut self,
        around: &mut Surroundings<M, D>,
        trace: &mut Queue<'_, Record>,
    ) -> Option<Ending>
        requires { length (held trace.old) < capacity_of trace.old }
        ensures turn { record { machine = machine_at M.Memory.means D.DeviceBank.bank self.new around.new; trace = held trace.new; stop = result } ≡ turned (machine_at M.Memory.means D.DeviceBank.bank self.old around.old) (held trace.old) }
        ensures room { capacity_of trace.new ≡ capacity_of trace.old }
        ensures lent { loans_of M.Memory.loans D.DeviceBank.loans around.new ≡ loans_of M.Memory.loans D.DeviceBank.loans around.old }
    {
        let answer = self.turn(around, Exception::Absent, false);
        note(trace, answer)
    }

    fn run_on<M: Memory, D: DeviceBank>(
        &mut self,
        around: &mut Surroundings<M, D>,
        trace: &mut Queue<'_, Record>,
        steps: u16,
    ) -> Ran
        ensures run { record { machine = machine_at M.Memory.means D.DeviceBank.bank self.new around.new; trace = held trace.new; told = result } ≡ run_on steps (capacity_of trace.old) 0 (machine_at M.Memory.means D.DeviceBank.bank self.old around.old) (held trace.old) }
        ensures room { capacity_of trace.new ≡ capacity_of trace.old }
        ensures lent { loans_of M.Memory.loans D.DeviceBank.loans around.new ≡ loans_of M.Memory.loans D.DeviceBank.loans around.old }
    {
        // The steps are counted, since the answer tells how many were made.
        for made in 0..steps {
            if trace.is_full() {
                return Ran {
                    ending: Ending::Full,
                    records: made,
                };
            }
            if let Some(ending) = self.turn_into(around, trace) {
                return Ran {
                    ending,
                    records: made,
                };
            }
        }
        Ran {
            ending: Ending::Done,
            records: steps,
        }
    }

    // Makes up to so many bus steps without an exception and without DONE, and adds a record of each to the trace.
    pub fn run<M: Memory, D: DeviceBank>(
        &mut self,
        around: &mut Surroundings<M, D>,
        trace: &mut Queue<'_, Record>,
        steps: u16,
    ) -> Result<Ran, Refusal>
        ensures run { record { machine = machine_at M.Memory.means D.DeviceBank.bank self.new around.new; trace = held trace.new; answer = result } ≡ run_taken steps (capacity_of trace.old) (machine_at M.Memory.means D.DeviceBank.bank self.old around.old) (held trace.old) }
        ensures room { capacity_of trace.new ≡ capacity_of trace.old }
        ensures lent { loans_of M.Memory.loans D.DeviceBank.loans around.new ≡ loans_of M.Memory.loans D.DeviceBank.loans around.old }
    {
        if steps > 0 && trace.is_full() {
            return Err(Refusal::TraceFull);
        }
        Ok(self.run_on(around, trace, steps))
    }
}
