// Which calls fit: the number is an instance's, the width is one of its own and not 1, the steps are whole groups of that width, and the
// words hold no more than the registers' bits. Instance, width and count are numbers here, since it is these that are judged.
ghost use Rattle.std.specs.Prelude.{◌≡◌, ◌%◌, ◌^◌, ◌&&◌, not, eqb, ltb};
ghost use Rattle.quark.specs.Instance.{instance_of, is_instance, is_width};
ghost use Rattle.words.specs.Words.{value, fits};

use crate::instances::{Instance, is_instance, is_width};
use crate::{Register, RegisterWords};

// Whether a register has no bits past the half: U has 4 bits in the high word, D 24, and S all 64.
fn is_half(r: Register, instance: u32) -> bool
    ensures { result ≡ ltb (value r) (2 ^ (instance_of instance).taps.half) }
{
    match Instance::from(instance) {
        Instance::U => r.hi < 0x10,
        Instance::D => r.hi < 0x100_0000,
        Instance::S => true,
    }
}

// Whether the number is an instance's, the width one of its own and not 1, and the steps whole groups of it.
#[tactic(auto, using(crate::proofs::Fits::some_steps))]
fn are_groups(instance: u32, width: u32, count: u32) -> bool
    ensures { result ≡ (is_instance instance && is_width instance width && not (eqb width 1) && eqb (count % width) 0) }
{
    is_instance(instance) && is_width(instance, width) && width != 1 && count % width == 0
}

// Whether a call fits.
#[tactic(auto, unfolding(crate::specs::Words::fits))]
pub fn fits(instance: u32, width: u32, count: u32, state: RegisterWords) -> bool
    ensures { result ≡ fits instance width count state }
{
    are_groups(instance, width, count)
        && is_half(state.x, instance)
        && is_half(state.y, instance)
        && state.l < 1024
}
