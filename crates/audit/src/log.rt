// Whole histories, played from a new controller.
ghost use Rattle.std.specs.Prelude.{◌≡◌};
ghost use Rattle.queue.specs.Queue.{held, capacity_of};
ghost use Rattle.cycle.specs.Surroundings.{loans_of};
ghost use Rattle.dmac.specs.Controller.{new_controller};
ghost use Rattle.dmac.specs.Step.{machine_at};
ghost use Rattle.audit.specs.Played.{calls_of, events_of, played, Lawfully};

use crate::call::{Call, Reply};
use crate::perform::perform;
use bus::memory::Memory;
use cycle::record::Record;
use cycle::surroundings::Surroundings;
use devices::bank::DeviceBank;
use dmac::controller::Dmac;
use queue::Queue;
use refusal::kinds::Refusal;

// A call, how many places were free in the trace that it was given, and what it replied.
#[derive(Clone, Copy, PartialEq, Eq, Debug)]
pub struct Entry {
    pub call: Call,
    pub room: usize,
    pub reply: Result<Reply, Refusal>,
}

// Makes the calls of a log on a new controller, one after the other, and writes the free places of the trace and the reply
// into each entry. The calls do what they do (`played`), and the history of them is lawful (`lawful`).
pub fn play<M: Memory, D: DeviceBank>(
    log: &mut [Entry],
    around: &mut Surroundings<M, D>,
    trace: &mut Queue<'_, Record>,
) -> Dmac
    ensures played { record { machine = machine_at M.Memory.means D.DeviceBank.bank result around.new; trace = held trace.new; entries = log.new } ≡ played (calls_of log.old) (capacity_of trace.old) (machine_at M.Memory.means D.DeviceBank.bank new_controller around.old) (held trace.old) }
    ensures lawful { Lawfully (M.Memory.means around.old.memory) (D.DeviceBank.bank around.old.devices) (events_of log.new) (machine_at M.Memory.means D.DeviceBank.bank result around.new) }
    ensures lent { loans_of M.Memory.loans D.DeviceBank.loans around.new ≡ loans_of M.Memory.loans D.DeviceBank.loans around.old }
{
    let mut dmac = Dmac::new();
    for entry in log.iter_mut() {
        entry.room = trace.room();
        entry.reply = perform(&mut dmac, around, trace, entry.call);
    }
    dmac
}
