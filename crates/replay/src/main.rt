// Replay: plays a recorded sequence of calls of the controller, and prints what each answers.
//
//     replay < sequence
//     replay a.in - b.in        each with a controller of its own, one after the other; - is standard input
//
// A sequence is lines, one call to a line. Each line is printed, then ` = ` and the answer:
//
//     rw 24 = 000F
//     step 7 0 = cycle 0 R 0 000040 0000
//     wb 02 00 = refused 1
//
// The first lines set up the memory, the devices and the trace. A line that is no call is answered `bad line`.
#![tactic(auto)]

mod device;
mod fields;
mod line;
mod player;
mod print;
mod setup;

use crate::device::Device;
use crate::fields::{BadLine, LineError};
use crate::line::parse;
use crate::player::{Four, Player, Single, UPPER};
use crate::setup::{Contents, Medium, bank, memory, trace};
use anyhow::anyhow;
use bus::flat::Flat;
use bus::memory::Memory;
use bus::split::Split;
use cycle::record::Record;
use cycle::surroundings::Surroundings;
use devices::pair::Pair;
use devices::printer::Printer;
use devices::tape::Tape;
use dmac::controller::Dmac;
use inputs::for_each_input;
use queue::Queue;
use script::lines::Lines;
use script::text::put_text;
use std::alloc::{AllocError, Global};
use std::io::Write;

// So many bytes of answers are written at once, and whole lines of them.
const PAGE: usize = 65536;

const TOO_LARGE: &str = "the memory is too large";

// Prints a line, which may be any bytes, and what separates it from its answer.
fn begin_line(out: &mut Vec<u8>, line: &[u8]) -> Result<(), AllocError> {
    put_text(out, line)?;
    put_text(out, b" = ")
}

// Ends the line that `out` ends with, and writes what it holds if that is enough.
fn end_line(rt: &HostRuntime, out: &mut Vec<u8>) -> anyhow::Result<()> {
    put_text(out, b"\n")?;
    if out.len() >= PAGE {
        rt.stdout().write_all(out)?;
        out.clear();
    }
    Ok(())
}

// Makes the call that a line is, and prints what it answers.
fn play_line<M: Memory>(
    player: &mut Player<'_, M>,
    line: &[u8],
    out: &mut Vec<u8>,
) -> Result<(), AllocError> {
    begin_line(out, line)?;
    match parse(line) {
        Ok(call) => player.play(call, out),
        Err(BadLine) => put_text(out, b"bad line"),
    }
}

// The device of a channel over what it reads or keeps.
fn lent<'a>(channel: u8, medium: &'a mut Medium) -> Single<'a> {
    match medium {
        Medium::Tape(bytes) => Device::Tape(Tape::new(channel, bytes)),
        Medium::Printer(places) => Device::Printer(Printer::new(channel, places)),
    }
}

// The devices of the four channels. (Four parameters: an array behind a `&mut` can't be taken apart into four of them.)
fn four_lent<'a>(
    first: &'a mut Medium,
    second: &'a mut Medium,
    third: &'a mut Medium,
    fourth: &'a mut Medium,
) -> Four<'a> {
    let lower = Pair::new(1, lent(0, first), lent(1, second));
    let upper = Pair::new(3, lent(2, third), lent(3, fourth));
    Pair::new(2, lower, upper)
}

// The places of a trace.
fn blanks(heap: Global, places: usize) -> Result<Vec<Record>, AllocError> {
    vec![in heap; Record::BLANK; places]
}

// A memory over these bytes, or an error of this program's own. A `map_err` gets no proof here, since the memory and the
// refused bytes are one borrow.
fn flat<'a>(bytes: &'a mut [u8]) -> anyhow::Result<Flat<'a>> {
    match Flat::new(bytes) {
        Ok(memory) => Ok(memory),
        Err(_) => Err(anyhow!(TOO_LARGE)),
    }
}

// A sequence that is played: where the answers are written to, the lines that are left, and the answers that wait to be
// written.
#[derive(Drop)]
struct Sequence<'a> {
    rt: &'a HostRuntime,
    lines: Lines<'a>,
    out: Vec<u8>,
}

impl<'a> Sequence<'a> {
    // Takes lines up to the first that `read` takes, and prints of each whether it is; what that line sets up.
    fn set_up<T: Drop, F: Fn(&[u8]) -> Result<T, LineError>>(
        &mut self,
        read: F,
    ) -> anyhow::Result<Option<T>>
        requires { F.IsAlwaysCallable read }
    {
        for line in &mut self.lines {
            begin_line(&mut self.out, line)?;
            match read(line) {
                Ok(taken) => {
                    put_text(&mut self.out, b"ok")?;
                    end_line(self.rt, &mut self.out)?;
                    return Ok(Some(taken));
                }
                Err(LineError::BadLine) => put_text(&mut self.out, b"bad line")?,
                Err(LineError::NoMemory(error)) => return Err(error.into()),
            }
            end_line(self.rt, &mut self.out)?;
        }
        Ok(None)
    }

    // Plays the calls with this memory; `upper` is a function code of its upper part, if it has two.
    fn play_with<M: Memory + Drop>(
        &mut self,
        memory: M,
        upper: Option<u8>,
        media: [Medium; 4],
        places: usize,
    ) -> anyhow::Result<()> {
        let mut slots = blanks(self.rt.alloc(), places)?;
        let trace = Queue::new(&mut slots);
        let [mut first, mut second, mut third, mut fourth] = media;
        let devices = four_lent(&mut first, &mut second, &mut third, &mut fourth);
        let around = Surroundings { memory, devices };
        let mut player = Player {
            dmac: Dmac::new(),
            around,
            upper,
            trace,
            moved: blanks(self.rt.alloc(), places)?,
        };
        for line in &mut self.lines {
            play_line(&mut player, line, &mut self.out)?;
            end_line(self.rt, &mut self.out)?;
        }
        Ok(())
    }

    // Plays the sequence: first the lines that set up, then the calls. A sequence that ends before it is set up plays
    // nothing, and that is no error.
    fn play(&mut self) -> anyhow::Result<()> {
        let heap = self.rt.alloc();
        let Some(contents) = self.set_up(|line| memory(heap, line))? else {
            return Ok(());
        };
        let Some(media) = self.set_up(|line| bank(heap, line))? else {
            return Ok(());
        };
        let Some(places) = self.set_up(trace)? else {
            return Ok(());
        };
        match contents {
            Contents::Flat(mut bytes) => self.play_with(flat(&mut bytes)?, None, media, places),
            Contents::Split {
                mut upper,
                mut lower,
            } => {
                let split = Split {
                    upper: flat(&mut upper)?,
                    lower: flat(&mut lower)?,
                };
                self.play_with(split, Some(UPPER), media, places)
            }
        }
    }
}

// Plays a sequence, and writes what is left of its answers. (What waits when there is an error is not written.)
fn replay(rt: &HostRuntime, input: &[u8]) -> anyhow::Result<()> {
    let mut sequence = Sequence {
        rt,
        lines: Lines::of(input),
        out: Vec::new(rt.alloc()),
    };
    sequence.play()?;
    rt.stdout().write_all(&sequence.out)?;
    Ok(())
}

fn main(rt: HostRuntime) -> anyhow::Result<()> {
    for_each_input(&rt, u64::MAX, |input| replay(&rt, input))
}
