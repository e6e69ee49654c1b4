// Requests: when a channel asks for the bus.
ghost use Rattle.std.specs.Prelude.{◌≡◌};
ghost use Rattle.channel.specs.Requests.{is_automatic, is_requested, operand_begun, line_set, is_inside, is_counting};

use crate::state::{Channel, Phase, Words};
use registers::groups::Requests;

impl Channel {
    fn is_automatic(&self) -> bool
        ensures { result ≡ is_automatic self.now }
    {
        match self.registers.config.reqg() {
            Requests::LimitedRate | Requests::MaximumRate => true,
            Requests::Line => false,
            Requests::FirstAutomatic => self.first,
        }
    }

    fn is_requested(&self) -> bool
        ensures { result ≡ is_requested self.now }
    {
        if self.is_automatic() {
            return true;
        }
        if self.registers.config.is_burst() {
            self.line
        } else {
            self.latch
        }
    }

    // An operand's first cycle is carried out.
    pub fn begin_operand(&mut self)
        ensures { self.new ≡ operand_begun self.old }
    {
        if !self.is_automatic() {
            self.latch = false;
        }
        self.first = false;
    }

    // The request line has this level now; in cycle steal mode an active channel latches a change from off to on.
    pub fn set_line(&mut self, on: bool)
        ensures { self.new ≡ line_set on self.old }
    {
        if on
            && !self.line
            && self.registers.status.is_active()
            && !self.registers.config.is_burst()
        {
            self.latch = true;
        }
        self.line = on;
    }

    // Whether a cycle of an operand or entry is done and another is to come.
    pub fn is_inside(&self) -> bool
        ensures { result ≡ is_inside self.now }
    {
        !matches!(self.phase, Phase::Idle | Phase::Fetching(Words::NoWord))
    }

    // Whether the channel counts in the choice.
    pub fn is_counting(&self) -> bool
        ensures { result ≡ is_counting self.now }
    {
        self.registers.status.is_active()
            && !self.registers.control.is_halted()
            && (matches!(self.phase, Phase::Fetching(_)) || self.is_requested())
    }
}
