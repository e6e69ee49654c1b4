// Delivery of an operand, and what follows at the end of a block.
ghost use Rattle.std.specs.Prelude.{◌≡◌};
ghost use Rattle.registers.specs.Config.{chain_of};
ghost use Rattle.channel.specs.Operation.{channel_completed, channel_ended, block_continued, chain_continued, block_ended, operand_settled, operand_delivered, entry_loaded, long_of, words_more, entry_word_taken};

use crate::state::{Channel, Phase, Words};
use registers::fault::Fault;
use registers::groups::Chain;

impl Channel {
    fn complete(&mut self)
        ensures { self.new ≡ channel_completed self.old }
    {
        self.registers.status.complete();
        self.phase = Phase::Idle;
    }

    // The device has ended the operation.
    fn end(&mut self)
        ensures { self.new ≡ channel_ended self.old }
    {
        self.registers.status.end();
        self.registers.control.drop_continue();
        self.phase = Phase::Idle;
    }

    // Continue mode: the next block is in the base registers.
    fn continue_block(&mut self)
        ensures { self.new ≡ block_continued self.old }
    {
        if self.registers.table.btc == 0 {
            self.fail(Fault::BaseCount);
            return;
        }
        self.registers.counters.mtc = self.registers.table.btc;
        self.registers.counters.mar = self.registers.table.bar;
        self.registers.counters.mfc = self.registers.table.bfc;
        self.registers.status.end_block();
        self.registers.control.drop_continue();
        if self.registers.config.is_misplaced(self.registers.table.bar) {
            self.fail(Fault::MemoryAddress);
        }
    }

    fn continue_chain(&mut self, left: u32, done: bool)
        ensures { self.new ≡ chain_continued left done self.old }
    {
        if left == 0 {
            self.complete();
        } else if done {
            self.end();
        } else {
            self.phase = Phase::Fetching(Words::NoWord);
        }
    }

    fn end_block(&mut self, done: bool)
        ensures { self.new ≡ block_ended (chain_of self.old.registers.config) done self.old }
    {
        match self.registers.config.chain() {
            Chain::Plain if self.registers.control.is_continuing() => self.continue_block(),
            Chain::Plain => self.complete(),
            Chain::Array => self.continue_chain(u32::from(self.registers.table.btc), done),
            Chain::Linked => self.continue_chain(self.registers.table.bar, done),
        }
    }

    fn settle(&mut self, done: bool)
        ensures { self.new ≡ operand_settled done self.old }
    {
        if self.registers.counters.mtc == 0 {
            self.end_block(done);
        } else if done {
            self.end();
        }
    }

    // An operand's last destination cycle is carried out; `done` tells whether the device signalled DONE in it.
    pub fn deliver(&mut self, done: bool)
        ensures { self.new ≡ operand_delivered done self.old }
    {
        self.registers.counters.mtc = self.registers.counters.mtc.saturating_sub(1);
        self.registers.counters.mar = self.registers.config.next_mar(self.registers.counters.mar);
        self.registers.counters.dar = self.registers.config.next_dar(self.registers.counters.dar);
        self.phase = Phase::Idle;
        self.settle(done);
    }

    // The link is looked at in a linked chain only.
    fn load_entry(&mut self, mar: u32, mtc: u16, link: u32)
        ensures { self.new ≡ entry_loaded mar mtc link self.old }
    {
        match self.registers.config.chain() {
            Chain::Plain => {}
            Chain::Array => {
                self.registers.table.btc = self.registers.table.btc.saturating_sub(1);
                self.registers.table.bar = self.registers.table.bar.wrapping_add(6);
            }
            Chain::Linked => self.registers.table.bar = link,
        }
        self.registers.counters.mtc = mtc;
        self.registers.counters.mar = mar;
        self.phase = Phase::Idle;
        if self.registers.config.is_misplaced(mar) {
            self.fail(Fault::MemoryAddress);
        } else if mtc == 0 {
            self.fail(Fault::MemoryCount);
        }
    }

    // A word of an entry was read, after these words of it; the last one loads the entry.
    pub fn take_entry_word(&mut self, word: u16, words: Words)
        ensures { self.new ≡ entry_word_taken word words self.old }
    {
        match (self.registers.config.chain(), words) {
            (Chain::Array, Words::TwoWords(a, b)) => self.load_entry(long_of(a, b), word, 0),
            (Chain::Linked, Words::FourWords(a, b, count, high)) => {
                self.load_entry(long_of(a, b), count, long_of(high, word));
            }
            _ => self.phase = Phase::Fetching(more(word, words)),
        }
    }
}

fn long_of(high: u16, low: u16) -> u32
    ensures { result ≡ long_of high low }
{
    (u32::from(high) << 16) | u32::from(low)
}

fn more(word: u16, words: Words) -> Words
    ensures { result ≡ words_more word words }
{
    match words {
        Words::NoWord => Words::OneWord(word),
        Words::OneWord(a) => Words::TwoWords(a, word),
        Words::TwoWords(a, b) => Words::ThreeWords(a, b, word),
        Words::ThreeWords(a, b, c) => Words::FourWords(a, b, c, word),
        Words::FourWords(..) => words,
    }
}
