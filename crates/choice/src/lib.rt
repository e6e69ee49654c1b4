// Which of four channels is served next. Of the channels that count, the one with the lowest priority
// number wins; among equals, the first one going round from the channel after the last served:
//
//     choose([true, true, false, true], [2, 1, 0, 1], 0)     Some(1): channels 1 and 3 are equal, 1 comes first
//     choose([true, true, false, true], [2, 1, 0, 1], 1)     Some(3): now 1 was served last
//     choose([false; 4], [0; 4], 0)                          None: no channel counts
//
// A priority has two bits and a channel's number too: of larger numbers the other bits mean nothing.
#![tactic(auto)]

#[cfg(test)]
mod tests;

ghost use Rattle.std.specs.Prelude.{◌≡◌, ◌<◌, IfSome};
ghost use Rattle.choice.specs.Choice.{Chosen, asks, channel_at, choice};

// The channel to serve, if any counts. Nothing else than the arguments decides it.
// Two arrays side by side, as in specs/Choice: a channel has its priority whether it counts or not.
pub fn choose(counts: [bool; 4], priorities: [u8; 4], last: u8) -> Option<u8>
    ensures function { result ≡ choice counts priorities last }
    ensures relation { Chosen counts priorities last result }
    ensures within { IfSome result (λ c. c < 4) }
{
    // Two labelled loops, over priorities and turns: a rule of this repository gives the choice this form.
    'search: {
        for priority in 0..4u8 {
            for turn in 0..4u8 {
                let channel = channel_at(last, turn);
                if asks(counts, priorities, channel, priority) {
                    break 'search Some(channel);
                }
            }
        }
        None
    }
}

// The channel whose turn it is: at turn 0 the one after the last served, at turn 3 the last served itself.
fn channel_at(last: u8, turn: u8) -> u8
    requires { turn < 4 }
    ensures { result ≡ channel_at last turn }
{
    (last % 4 + 1 + turn) % 4
}

// Whether a channel counts and has this priority.
fn asks(counts: [bool; 4], priorities: [u8; 4], channel: u8, priority: u8) -> bool
    requires { channel < 4 }
    ensures { result ≡ asks counts priorities priority channel }
{
    let n = channel as usize;
    counts[n] && priorities[n] % 4 == priority
}
