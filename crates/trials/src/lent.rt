// Callers that keep a memory and devices of their own, and lend both to a call. Each promises of what was lent all that
// the call promises of its surroundings: a call keeps the references that it was given.
ghost use Rattle.std.specs.Prelude.{◌≡◌};
ghost use Rattle.queue.specs.Queue.{held, capacity_of};
ghost use Rattle.cycle.specs.Serve.{Served, left, served, Kept};
ghost use Rattle.dmac.specs.Controller.{new_controller};
ghost use Rattle.dmac.specs.Step.{machine_of, step_taken};
ghost use Rattle.dmac.specs.Run.{run_taken};
ghost use Rattle.audit.specs.Calls.{performed};
ghost use Rattle.audit.specs.Law.{Law};
ghost use Rattle.audit.specs.Played.{calls_of, events_of, played, Lawfully};
ghost use Rattle.audit.specs.Tie.{event_of, GoesOn};

use audit::call::{Call, Reply};
use audit::log::{Entry, play};
use audit::perform::perform;
use bus::memory::Memory;
use channel::state::Channel;
use cycle::record::Record;
use cycle::serve::{Hindrance, serve};
use cycle::surroundings::Surroundings;
use devices::bank::DeviceBank;
use dmac::answer::Answer;
use dmac::controller::Dmac;
use dmac::run::Ran;
use queue::Queue;
use refusal::kinds::Refusal;

// One cycle of a channel.
pub fn serve_lent<M: Memory, D: DeviceBank>(
    channel: &mut Channel,
    number: u8,
    memory: &mut M,
    devices: &mut D,
    line: bool,
) -> Result<Record, Hindrance>
    ensures all { left result channel.new (M.Memory.means memory.new) (D.DeviceBank.bank devices.new) ≡ served line number channel.old (M.Memory.means memory.old) (D.DeviceBank.bank devices.old) }
    ensures kept { Kept result channel.old (M.Memory.means memory.old) (D.DeviceBank.bank devices.old) channel.new (M.Memory.means memory.new) (D.DeviceBank.bank devices.new) }
{
    let mut around = Surroundings { memory, devices };
    serve(channel, number, &mut around, line)
}

// One bus step.
pub fn step_lent<M: Memory, D: DeviceBank>(
    dmac: &mut Dmac,
    memory: &mut M,
    devices: &mut D,
    exception: u8,
    done: bool,
) -> Result<Answer, Refusal>
    ensures { record { machine = machine_of dmac.new (M.Memory.means memory.new) (D.DeviceBank.bank devices.new); answer = result } ≡ step_taken exception done (machine_of dmac.old (M.Memory.means memory.old) (D.DeviceBank.bank devices.old)) }
{
    let mut around = Surroundings { memory, devices };
    dmac.step(&mut around, exception, done)
}

// Up to so many bus steps.
pub fn run_lent<M: Memory, D: DeviceBank>(
    dmac: &mut Dmac,
    memory: &mut M,
    devices: &mut D,
    trace: &mut Queue<'_, Record>,
    steps: u16,
) -> Result<Ran, Refusal>
    ensures run { record { machine = machine_of dmac.new (M.Memory.means memory.new) (D.DeviceBank.bank devices.new); trace = held trace.new; answer = result } ≡ run_taken steps (capacity_of trace.old) (machine_of dmac.old (M.Memory.means memory.old) (D.DeviceBank.bank devices.old)) (held trace.old) }
    ensures room { capacity_of trace.new ≡ capacity_of trace.old }
{
    let mut around = Surroundings { memory, devices };
    dmac.run(&mut around, trace, steps)
}

// A call that is given as a value.
pub fn perform_lent<M: Memory, D: DeviceBank>(
    dmac: &mut Dmac,
    memory: &mut M,
    devices: &mut D,
    trace: &mut Queue<'_, Record>,
    call: Call,
) -> Result<Reply, Refusal>
    ensures done { record { machine = machine_of dmac.new (M.Memory.means memory.new) (D.DeviceBank.bank devices.new); trace = held trace.new; reply = result } ≡ performed call (capacity_of trace.old) (machine_of dmac.old (M.Memory.means memory.old) (D.DeviceBank.bank devices.old)) (held trace.old) }
    ensures room { capacity_of trace.new ≡ capacity_of trace.old }
    ensures history { GoesOn (machine_of dmac.old (M.Memory.means memory.old) (D.DeviceBank.bank devices.old)) (event_of call (capacity_of trace.old) (held trace.old)) (machine_of dmac.new (M.Memory.means memory.new) (D.DeviceBank.bank devices.new)) }
    ensures law { Law }
{
    let mut around = Surroundings { memory, devices };
    perform(dmac, &mut around, trace, call)
}

// A log of calls, on a new controller.
pub fn play_lent<M: Memory, D: DeviceBank>(
    log: &mut [Entry],
    memory: &mut M,
    devices: &mut D,
    trace: &mut Queue<'_, Record>,
) -> Dmac
    ensures played { record { machine = machine_of result (M.Memory.means memory.new) (D.DeviceBank.bank devices.new); trace = held trace.new; entries = log.new } ≡ played (calls_of log.old) (capacity_of trace.old) (machine_of new_controller (M.Memory.means memory.old) (D.DeviceBank.bank devices.old)) (held trace.old) }
    ensures lawful { Lawfully (M.Memory.means memory.old) (D.DeviceBank.bank devices.old) (events_of log.new) (machine_of result (M.Memory.means memory.new) (D.DeviceBank.bank devices.new)) }
{
    let mut around = Surroundings { memory, devices };
    play(log, &mut around, trace)
}
