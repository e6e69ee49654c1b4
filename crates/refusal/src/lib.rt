// Why a call is refused. Every call of this repository that does not accept its input answers with one
// of these and changes nothing:
//
//     match controller.read_byte(0x02) {
//         Ok(byte) => ..,
//         Err(refusal) => println!(rt; "E {:02}", refusal.number())?,
//     }
//
// The number of each case is what a script prints after its E. If several cases fit a call, the one with
// the smallest number is answered.
#![tactic(auto)]

pub mod kinds;

ghost use Rattle.std.specs.Prelude.{◌≡◌};
ghost use Rattle.refusal.specs.Number.{number_of};

use crate::kinds::Refusal;

impl Refusal {
    // The number by which this refusal is known. A method and no From: its name says which number it is.
    pub fn number(self) -> u8
        ensures { result ≡ number_of self }
    {
        self as u8
    }
}
