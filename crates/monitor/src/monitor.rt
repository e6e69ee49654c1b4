// A controller and a memory, worked by a script.
ghost use Rattle.std.specs.Prelude.{◌≡◌, ◌++◌, take, OnOk};
ghost use Rattle.audit.specs.Calls.{performed};
ghost use Rattle.devices.specs.Bank.{nothing};
ghost use Rattle.dmac.specs.Controller.{new_controller};
ghost use Rattle.dmac.specs.Step.{machine_of};
ghost use Rattle.queue.specs.Queue.{held, capacity_of};
ghost use Rattle.script.specs.Digits.{data_bytes};
ghost use Rattle.script.specs.Lines.{lines};
ghost use Rattle.script.specs.Text.{refusal_text};
ghost use Rattle.monitor.specs.History.{ScriptGoesOn};
ghost use Rattle.monitor.specs.Monitor.{write_done, read_done, fill_done, show_done, run_done, line_done, lines_done, script_done};
ghost use Rattle.monitor.specs.Session.{session_at};
ghost use Rattle.monitor.specs.Replies.{reply_text, run_text, answered};

use crate::area::{fill, is_past_the_end, put_area, takes_all};
use crate::records::{put_ending, put_records};
use audit::call::{Call, Reply};
use audit::perform::perform;
use bus::memory::Memory;
use cycle::record::Record;
use cycle::surroundings::Surroundings;
use devices::none::NoDevices;
use dmac::controller::Dmac;
use queue::Queue;
use refusal::kinds::Refusal;
use script::command::Command;
use script::lines::Lines;
use script::parse::parse;
use script::text::{data_count, put_byte, put_newline, put_ok, put_refusal};
use std::alloc::AllocError;

// A controller and a memory on a board with no devices. Each method takes what is printed to as its parameter `out`: a
// struct of monitor and `out` would hold both by `&mut`, and each method would also promise that it keeps the references.
#[derive(Drop)]
pub struct Monitor<M: Memory> {
    dmac: Dmac,
    around: Surroundings<M, NoDevices>,
}

// The most bytes of a script that are read.
pub const SCRIPT: usize = 16384;

// The places of the trace of a run.
const TRACE: usize = 128;

impl<M: Memory> Monitor<M> {
    // A new controller, and this memory as it is.
    pub fn new(memory: M) -> Monitor<M>
        ensures controller { result.dmac ≡ new_controller }
        ensures memory { result.around.memory ≡ memory }
    {
        Monitor {
            dmac: Dmac::new(),
            around: Surroundings {
                memory,
                devices: NoDevices,
            },
        }
    }

    // Makes a call with devices that are never ready.
    fn call(&mut self, trace: &mut Queue<'_, Record>, call: Call) -> Result<Reply, Refusal>
        ensures { record { machine = machine_of self.new.dmac (M.Memory.means self.new.around.memory) nothing; trace = held trace.new; reply = result } ≡ performed call (capacity_of trace.old) (machine_of self.old.dmac (M.Memory.means self.old.around.memory) nothing) (held trace.old) }
    {
        perform(&mut self.dmac, &mut self.around, trace, call)
    }

    // Makes a call that is no run, and prints its reply.
    fn answer(&mut self, call: Call, out: &mut Vec<u8>) -> Result<(), AllocError>
        ensures { OnOk result (session_at M.Memory.means self.new out.new.items ≡ answered call (session_at M.Memory.means self.old out.old.items)) }
    {
        let mut slots: [Record; 0] = [];
        let mut trace = Queue::new(&mut slots);
        let reply = self.call(&mut trace, call);
        put_reply(reply, out)
    }

    // `W oo vv`
    fn write(&mut self, offset: u8, value: u8, out: &mut Vec<u8>) -> Result<(), AllocError>
        ensures { OnOk result (session_at M.Memory.means self.new out.new.items ≡ write_done offset value (session_at M.Memory.means self.old out.old.items)) }
    {
        self.answer(Call::WriteByte(offset, value), out)
    }

    // `R oo`
    fn read(&mut self, offset: u8, out: &mut Vec<u8>) -> Result<(), AllocError>
        ensures { OnOk result (session_at M.Memory.means self.new out.new.items ≡ read_done offset (session_at M.Memory.means self.old out.old.items)) }
    {
        self.answer(Call::ReadByte(offset), out)
    }

    // `F aaaaaa dd..dd`
    fn fill(&mut self, address: u32, digits: &[u8], out: &mut Vec<u8>) -> Result<(), AllocError>
        ensures { OnOk result (session_at M.Memory.means self.new out.new.items ≡ fill_done address (data_bytes digits.now) (session_at M.Memory.means self.old out.old.items)) }
    {
        if is_past_the_end(address, data_count(digits)) {
            return put_refusal(out, Refusal::PastTheEnd);
        }
        if !takes_all(&self.around.memory, address, digits) {
            return put_refusal(out, Refusal::NoPlace);
        }
        fill(&mut self.around.memory, address, digits);
        put_ok(out)
    }

    // `M aaaaaa nn`
    fn show(&mut self, address: u32, count: u8, out: &mut Vec<u8>) -> Result<(), AllocError>
        ensures { OnOk result (session_at M.Memory.means self.new out.new.items ≡ show_done address count (session_at M.Memory.means self.old out.old.items)) }
    {
        if is_past_the_end(address, count as usize) {
            return put_refusal(out, Refusal::PastTheEnd);
        }
        put_area(&self.around.memory, address, count, out)?;
        put_newline(out)
    }

    // `S nn`
    fn run_steps(&mut self, steps: u8, out: &mut Vec<u8>) -> Result<(), AllocError>
        ensures { OnOk result (session_at M.Memory.means self.new out.new.items ≡ run_done steps (session_at M.Memory.means self.old out.old.items)) }
    {
        let mut slots = [Record::BLANK; TRACE];
        let mut trace = Queue::new(&mut slots);
        let reply = self.call(&mut trace, Call::Run(u16::from(steps)));
        put_run(reply, &trace, out)
    }

    // One line of a script.
    fn line(&mut self, line: &[u8], out: &mut Vec<u8>) -> Result<(), AllocError>
        ensures { OnOk result (session_at M.Memory.means self.new out.new.items ≡ line_done line.now (session_at M.Memory.means self.old out.old.items)) }
    {
        // Each arm is another function, with data of its own.
        match parse(line) {
            Ok(Command::Write { offset, value }) => self.write(offset, value, out),
            Ok(Command::Read { offset }) => self.read(offset, out),
            Ok(Command::Fill { address, digits }) => self.fill(address, digits, out),
            Ok(Command::Show { address, count }) => self.show(address, count, out),
            Ok(Command::Run { steps }) => self.run_steps(steps, out),
            Err(refusal) => put_refusal(out, refusal),
        }
    }

    // Carries out the lines of a script one after the other. It stands apart from `run`, whose proof adds the history.
    fn carry_out(&mut self, script: &[u8], out: &mut Vec<u8>) -> Result<(), AllocError>
        ensures { OnOk result (session_at M.Memory.means self.new out.new.items ≡ script_done script.now (session_at M.Memory.means self.old out.old.items)) }
    {
        for line in Lines::of(beginning(script)) {
            self.line(line, out)?;
        }
        Ok(())
    }

    // Carries out the lines of a script one after the other, and adds what each prints to `out` (`printed`). Whatever
    // history of calls led from a new controller to this one and its memory goes on with the calls of the script, and
    // lawfully (`history`). It fails only for want of memory for `out`.
    pub fn run(&mut self, script: &[u8], out: &mut Vec<u8>) -> Result<(), AllocError>
        ensures printed { OnOk result (session_at M.Memory.means self.new out.new.items ≡ script_done script.now (session_at M.Memory.means self.old out.old.items)) }
        ensures history { OnOk result (ScriptGoesOn script.now (session_at M.Memory.means self.old out.old.items) (session_at M.Memory.means self.new out.new.items)) }
    {
        self.carry_out(script, out)
    }
}

// As much of a script as is read.
fn beginning<'a>(script: &'a [u8]) -> &'a [u8]
    ensures { result.now ≡ take 16384 script.now }
{
    &script[..SCRIPT.min(script.len())]
}

// What a call replies that is no run.
fn put_reply(reply: Result<Reply, Refusal>, out: &mut Vec<u8>) -> Result<(), AllocError>
    ensures { OnOk result (out.new.items ≡ out.old.items ++ reply_text reply) }
{
    match reply {
        Ok(Reply::Done) => put_ok(out),
        Ok(Reply::Byte(byte)) => put_byte(out, byte),
        Ok(Reply::Word(_) | Reply::Stepped(_) | Reply::Ended(_)) => Ok(()),
        Err(refusal) => put_refusal(out, refusal),
    }
}

// The records of a run and why it ended, or its refusal.
fn put_run(
    reply: Result<Reply, Refusal>,
    trace: &Queue<'_, Record>,
    out: &mut Vec<u8>,
) -> Result<(), AllocError>
    ensures { OnOk result (out.new.items ≡ out.old.items ++ run_text reply (held trace.now)) }
{
    match reply {
        Ok(Reply::Ended(ran)) => {
            put_records(out, trace)?;
            put_ending(out, ran.ending)
        }
        Ok(Reply::Byte(_) | Reply::Word(_) | Reply::Done | Reply::Stepped(_)) => Ok(()),
        Err(refusal) => put_refusal(out, refusal),
    }
}
