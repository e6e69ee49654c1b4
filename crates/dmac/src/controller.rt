// The controller's state.
ghost use Rattle.std.specs.Prelude.{◌≡◌};
ghost use Rattle.dmac.specs.Controller.{new_controller, controller_reset};

use channel::state::Channel;

// `gcr` is the general control register, `last` is the channel that was served last, and `bus` stands while the
// controller holds the bus. (A channel's number stays a u8, as calls, records and the choice give it; a type of its own
// would be taken apart at each. Surroundings and trace are lent to each call: a struct of the three would hold all by
// `&mut`, and each call would promise to keep them.)
#[derive(PartialEq, Eq, Debug, Drop)]
pub struct Dmac {
    pub(crate) channels: [Channel; 4],
    pub(crate) gcr: u8,
    pub(crate) last: u8,
    pub(crate) bus: bool,
}

impl Dmac {
    // A new controller: four new channels, a general control register of 0, and the bus not held. (`last` begins at 3, as
    // if channel 3 had been served, so that channel 0 is asked first.)
    pub fn new() -> Dmac
        ensures { result ≡ new_controller }
    {
        Dmac {
            channels: [Channel::new(); 4],
            gcr: 0,
            last: 3,
            bus: false,
        }
    }

    // What the reset line does.
    pub(crate) fn reset(&mut self)
        ensures { self.new ≡ controller_reset self.old }
    {
        for channel in &mut self.channels {
            channel.reset();
        }
        self.gcr = 0;
        self.last = 3;
        self.bus = false;
    }
}
