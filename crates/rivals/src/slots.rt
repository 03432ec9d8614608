// Where a table of branches has a branch: by its places, and by how many blocks are decided. Assumes nothing.
ghost use Rattle.std.specs.Prelude.{◌^◌, ◌<◌};

use places::layout::HOURS;

// A key keeps 40 bits, so that it can be multiplied within 64.
const KEY_ROOM: u64 = 1099511627776;

// What is above the lowest 24 bits of a product is folded in, for the lowest bits of a product depend on the lowest bits of the places alone.
const LOW_ROOM: u64 = 16777216;

// An odd number below 2 to the power of 24, without a pattern in its bits.
const MIXER: u64 = 10368889;

// A key of 64 bits in 40, its high bits folded in.
fn folded(key: u64) -> u64
    ensures { result < 2 ^ 40 }
{
    (key % KEY_ROOM + key / LOW_ROOM) % KEY_ROOM
}

// The key with the place of one more hour.
fn mixed(key: u64, place: u32) -> u64 {
    folded(key) * MIXER + u64::from(place)
}

// The slot of a branch in a table of so many.
pub fn slot_of(places: [u32; HOURS], at: u32, size: usize) -> usize
    requires { 0 < size }
    ensures { result < size }
{
    let mut key = u64::from(at);
    for place in places {
        key = mixed(key, place);
    }
    (folded(key) % (size as u64)) as usize
}
