// The rate, where the last r bits stand, how often a digest takes them, and where the next bit goes (document 01, "Taps and feedback" and
// "Pieces and finish"). The instance is a number, and any: all lines of a call are worked out before line 1 refuses a forged state.
// A `match` for each fact, so that each has its own equation with the definition.
#![tactic(auto, unfolding(words::specs::Instances::named, quark::specs::Instance::U, quark::specs::Instance::D, quark::specs::Instance::S))]

ghost use Rattle.std.specs.Prelude.{◌≡◌, ◌-◌, ◌/◌};
ghost use Rattle.quark.specs.Instance.{instance_of};
ghost use Rattle.sponge.specs.Taking.{bit_index};

use words::instances::Instance;

// r: the bits of a block.
pub fn rate(instance: u32) -> usize
    ensures { result ≡ (instance_of instance).r }
{
    match Instance::from(instance) {
        Instance::U => 8,
        Instance::D => 16,
        Instance::S => 32,
    }
}

// r/8: the bytes of a block.
pub fn block_bytes(instance: u32) -> usize
    ensures { result ≡ (instance_of instance).r / 8 }
{
    rate(instance) / 8
}

// (b - r)/8: the byte at which the last r bits of a state start.
pub fn last_block(instance: u32) -> usize
    ensures { result ≡ ((instance_of instance).b - (instance_of instance).r) / 8 }
{
    match Instance::from(instance) {
        Instance::U => 16,
        Instance::D => 20,
        Instance::S => 28,
    }
}

// n/r: how often the last r bits are given out for a digest.
pub fn outputs(instance: u32) -> usize
    ensures { result ≡ (instance_of instance).n / (instance_of instance).r }
{
    match Instance::from(instance) {
        Instance::U => 17,
        Instance::D => 11,
        Instance::S => 8,
    }
}

// Where the next bit goes: b - r + (total mod r). Every bit's index in the state is found here.
pub fn bit_index(instance: u32, total: u32) -> usize
    ensures { result ≡ bit_index (instance_of instance) total }
{
    // r is a power of two, so a number under the mask r - 1 is its remainder by r. No `usize::from`: there is none of a u32.
    8 * last_block(instance) + (total as usize & (rate(instance) - 1))
}
