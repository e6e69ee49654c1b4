// A bank of devices, by what it means.
ghost use Rattle.std.specs.Prelude.{◌≡◌, [], ◌∷◌};
ghost use Rattle.devices.specs.Bank.{BankMeaning, can_give, can_take, give_tried, take_tried, byte_handed, word_handed, is_served};
ghost use Rattle.devices.specs.Loans.{Loans, Owned};

// Whether a device on the channel `served` serves a channel; there are only the channels 0 to 3.
pub(crate) fn serves(served: u8, channel: u8) -> bool
    ensures { result ≡ is_served served channel }
{
    channel == served && channel < 4
}

pub trait DeviceBank {
    ghost bank: { Self → BankMeaning };

    // What of the bank is lent; no call changes that. (A bank that owns its devices need not say so.)
    ghost loans: { Self → Loans } = { λ _. Owned };

    // Whether at least `count` bytes wait on a channel.
    fn can_give(&self, channel: u8, count: usize) -> bool
        ensures { result ≡ can_give channel count (bank self.now) };

    // Whether at least `count` places are free on a channel.
    fn can_take(&self, channel: u8, count: usize) -> bool
        ensures { result ≡ can_take channel count (bank self.now) };

    // Hands over the byte that waits first, if one does.
    fn give(&mut self, channel: u8) -> Option<u8>
        ensures byte { result ≡ byte_handed channel (bank self.old) }
        ensures after { bank self.new ≡ give_tried channel 1 (bank self.old) }
        ensures lent { loans self.new ≡ loans self.old };

    // Keeps a byte, if a place is free.
    fn take(&mut self, channel: u8, byte: u8)
        ensures after { bank self.new ≡ take_tried channel (byte ∷ []) (bank self.old) }
        ensures lent { loans self.new ≡ loans self.old };

    // Hands over two bytes, the high one first, if two wait. (Both or none: so a word has methods of its own.)
    fn give_word(&mut self, channel: u8) -> Option<(u8, u8)>
        ensures word { result ≡ word_handed channel (bank self.old) }
        ensures after { bank self.new ≡ give_tried channel 2 (bank self.old) }
        ensures lent { loans self.new ≡ loans self.old }
    {
        if !self.can_give(channel, 2) {
            return None;
        }
        let high = self.give(channel)?;
        let low = self.give(channel)?;
        Some((high, low))
    }

    // Keeps two bytes, the high one first, if two places are free.
    fn take_word(&mut self, channel: u8, high: u8, low: u8)
        ensures after { bank self.new ≡ take_tried channel (high ∷ low ∷ []) (bank self.old) }
        ensures lent { loans self.new ≡ loans self.old }
    {
        if self.can_take(channel, 2) {
            self.take(channel, high);
            self.take(channel, low);
        }
    }
}
