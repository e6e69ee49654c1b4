// What a controller works on.
use bus::memory::Memory;
use devices::bank::DeviceBank;

// The memory that it reads and writes, and the devices at its channels.
#[derive(Drop)]
pub struct Surroundings<M: Memory, D: DeviceBank> {
    pub memory: M,
    pub devices: D,
}
