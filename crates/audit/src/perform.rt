// Making a call that is given as a value.
ghost use Rattle.std.specs.Prelude.{◌≡◌};
ghost use Rattle.queue.specs.Queue.{held, capacity_of};
ghost use Rattle.cycle.specs.Surroundings.{loans_of};
ghost use Rattle.dmac.specs.Step.{machine_at};
ghost use Rattle.audit.specs.Calls.{performed};
ghost use Rattle.audit.specs.Law.{Law};
ghost use Rattle.audit.specs.Tie.{event_of, GoesOn};

use crate::call::{Call, Reply};
use bus::memory::{Memory, Place};
use bus::store::store;
use cycle::record::Record;
use cycle::surroundings::Surroundings;
use devices::bank::DeviceBank;
use dmac::controller::Dmac;
use queue::Queue;
use refusal::kinds::Refusal;

// Makes the call. (It stands apart from `perform`, since its proof is of the call alone; `perform` adds the law.)
fn carry_out<M: Memory, D: DeviceBank>(
    dmac: &mut Dmac,
    around: &mut Surroundings<M, D>,
    trace: &mut Queue<'_, Record>,
    call: Call,
) -> Result<Reply, Refusal>
    ensures done { record { machine = machine_at M.Memory.means D.DeviceBank.bank dmac.new around.new; trace = held trace.new; reply = result } ≡ performed call (capacity_of trace.old) (machine_at M.Memory.means D.DeviceBank.bank dmac.old around.old) (held trace.old) }
    ensures room { capacity_of trace.new ≡ capacity_of trace.old }
    ensures lent { loans_of M.Memory.loans D.DeviceBank.loans around.new ≡ loans_of M.Memory.loans D.DeviceBank.loans around.old }
{
    // Each arm is another function, with data of its own.
    match call {
        Call::ReadByte(offset) => dmac.read_byte(offset).map(Reply::Byte),
        Call::ReadWord(offset) => dmac.read_word(offset).map(Reply::Word),
        Call::WriteByte(offset, value) => dmac.write_byte(offset, value).map(|()| Reply::Done),
        Call::WriteWord(offset, value) => dmac.write_word(offset, value).map(|()| Reply::Done),
        Call::SetLine(channel, on) => dmac.set_line(channel, on).map(|()| Reply::Done),
        Call::Step(exception, done) => dmac.step(around, exception, done).map(Reply::Stepped),
        Call::Store(code, address, value) => {
            store(&mut around.memory, Place { code, address }, value).map(|()| Reply::Done)
        }
        Call::Run(steps) => dmac.run(around, trace, steps).map(Reply::Ended),
    }
}

// Makes a call. It does what the call does (`done`), and whatever history of calls led from a new controller to this
// one and its surroundings, goes on with this call, and lawfully (`history`); the law holds over every history
// (`law`).
pub fn perform<M: Memory, D: DeviceBank>(
    dmac: &mut Dmac,
    around: &mut Surroundings<M, D>,
    trace: &mut Queue<'_, Record>,
    call: Call,
) -> Result<Reply, Refusal>
    ensures done { record { machine = machine_at M.Memory.means D.DeviceBank.bank dmac.new around.new; trace = held trace.new; reply = result } ≡ performed call (capacity_of trace.old) (machine_at M.Memory.means D.DeviceBank.bank dmac.old around.old) (held trace.old) }
    ensures room { capacity_of trace.new ≡ capacity_of trace.old }
    ensures lent { loans_of M.Memory.loans D.DeviceBank.loans around.new ≡ loans_of M.Memory.loans D.DeviceBank.loans around.old }
    ensures history { GoesOn (machine_at M.Memory.means D.DeviceBank.bank dmac.old around.old) (event_of call (capacity_of trace.old) (held trace.old)) (machine_at M.Memory.means D.DeviceBank.bank dmac.new around.new) }
    ensures law { Law }
{
    carry_out(dmac, around, trace, call)
}
