// Starting, continuing and aborting a channel: what a write to its control register does.
ghost use Rattle.std.specs.Prelude.{◌≡◌, false, take, drop};
ghost use Rattle.std.specs.Result.{result_err};
ghost use Rattle.registers.specs.Checks.{first_failing};
ghost use Rattle.channel.specs.Start.{start_checks, start_fault, started, start_tried, continue_tried, abort_tried, commanded, control_written};

use crate::state::{Channel, Phase, Words};
use registers::config::is_odd;
use registers::control::{CNT, SAB, STR};
use registers::fault::Fault;

impl Channel {
    // The checks of a start, in their order: of the status and the settings, then of the addresses, then of the counts.
    fn check_start(&self, cnt: bool) -> Result<(), Fault>
        ensures { result_err result ≡ start_fault cnt self.now.registers }
    {
        if self.registers.status.is_busy() {
            return Err(Fault::Timing);
        }
        if self.registers.config.is_unusable(cnt) {
            return Err(Fault::Configuration);
        }
        self.check_addresses()?;
        self.check_counts()
    }

    // Of the addresses: the same with CNT and without.
    fn check_addresses(&self) -> Result<(), Fault>
        ensures { result_err result ≡ first_failing (take 3 (drop 2 (start_checks false self.now.registers))) }
    {
        let config = self.registers.config;
        if !config.is_chained() && config.is_misplaced(self.registers.counters.mar) {
            return Err(Fault::MemoryAddress);
        }
        if !config.is_single()
            && config.is_port16()
            && config.is_misplaced(self.registers.counters.dar)
        {
            return Err(Fault::DeviceAddress);
        }
        if config.is_chained() && is_odd(self.registers.table.bar) {
            return Err(Fault::BaseAddress);
        }
        Ok(())
    }

    // Of the counts: the same with CNT and without.
    fn check_counts(&self) -> Result<(), Fault>
        ensures { result_err result ≡ first_failing (drop 5 (start_checks false self.now.registers)) }
    {
        let config = self.registers.config;
        if !config.is_chained() && self.registers.counters.mtc == 0 {
            return Err(Fault::MemoryCount);
        }
        if config.is_array() && self.registers.table.btc == 0 {
            return Err(Fault::BaseCount);
        }
        Ok(())
    }

    fn start(&mut self, cnt: bool)
        ensures { self.new ≡ started cnt self.old }
    {
        self.registers.status.activate();
        if cnt {
            self.registers.control.set_continue();
        }
        self.latch = false;
        self.first = true;
        if self.registers.config.is_chained() {
            self.registers.counters.mtc = 0;
            self.phase = Phase::Fetching(Words::NoWord);
        } else {
            self.phase = Phase::Idle;
        }
    }

    fn try_start(&mut self, cnt: bool)
        ensures { self.new ≡ start_tried cnt self.old }
    {
        match self.check_start(cnt) {
            Ok(()) => self.start(cnt),
            Err(fault) => self.fail(fault),
        }
    }

    fn try_continue(&mut self)
        ensures { self.new ≡ continue_tried self.old }
    {
        if !self.registers.status.is_active() {
            self.fail(Fault::Timing);
        } else if self.registers.config.is_chained() {
            self.fail(Fault::Configuration);
        } else if self.registers.status.is_block_done() {
            self.fail(Fault::Timing);
        } else {
            self.registers.control.set_continue();
        }
    }

    fn try_abort(&mut self)
        ensures { self.new ≡ abort_tried self.old }
    {
        if self.registers.status.is_active() {
            self.fail(Fault::Abort);
        }
    }

    fn command(&mut self, value: u8)
        ensures { self.new ≡ commanded value self.old }
    {
        if value & SAB != 0 {
            self.try_abort();
        } else if value & STR != 0 {
            self.try_start(value & CNT != 0);
        } else if value & CNT != 0 {
            self.try_continue();
        }
    }

    // A write to the control register.
    pub fn write_control(&mut self, value: u8)
        ensures { self.new ≡ control_written value self.old }
    {
        self.registers.control.store(value);
        self.command(value);
    }
}
