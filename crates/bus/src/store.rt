// The processor's store.
ghost use Rattle.std.specs.Prelude.{◌≡◌};
ghost use Rattle.bus.specs.Store.{is_storable, stored};

use crate::flat::PLACES;
use crate::memory::{Memory, Place};
use refusal::kinds::Refusal;

// Whether a store at this place is accepted.
pub fn is_storable<M: Memory>(memory: &M, place: Place) -> bool
    ensures { result ≡ is_storable place.code place.address (M.Memory.means memory.now) }
{
    place.code < 8 && (place.address as usize) < PLACES && memory.is_writable(place)
}

// Stores one byte for the processor, or is refused and changes nothing.
pub fn store<M: Memory>(memory: &mut M, place: Place, byte: u8) -> Result<(), Refusal>
    ensures stored { record { memory = M.Memory.means memory.new; answer = result } ≡ stored place.code place.address byte (M.Memory.means memory.old) }
    ensures lent { M.Memory.loans memory.new ≡ M.Memory.loans memory.old }
{
    if !is_storable(memory, place) {
        return Err(Refusal::NoPlace);
    }
    memory.write(place, byte);
    Ok(())
}
