// The lines by which a call on a state's buffer is refused (docs/RULES.md).
// The numbers are any: it is these that are tested. Each chain has all its rows, also those that both begin with, as its definition has.
ghost use Rattle.std.specs.Prelude.{◌≡◌};
ghost use Rattle.refusals.specs.Lines.{refused_by};
ghost use Rattle.quark.specs.Instance.{state_bytes};
ghost use Rattle.permutation.specs.Lines.{line20};
ghost use Rattle.permutation.specs.Permute.{permute_number};
ghost use Rattle.permutation.specs.Steps.{steps_number};

use crate::buffer::rounds;
use refusals::lines::{Line, first};
use words::instances::Instance;
pub use words::instances::{is_instance, is_width};

// The bytes of an instance's state, and of its digest. (For a number that is no instance's it is S's; line 1 is tested first.)
// One `match` for its definition, as `rounds` and `Taps::of` have one for theirs.
pub fn state_bytes(instance: u32) -> usize
    ensures { result ≡ state_bytes instance }
{
    match Instance::from(instance) {
        Instance::U => 17,
        Instance::D => 22,
        Instance::S => 32,
    }
}

// Refuses a call on a buffer of `length` bytes by the first of lines 1, 4 and 5 that holds.
pub fn buffer_line(instance: u32, width: u32, length: usize) -> Result<(), Line>
    ensures { refused_by result ≡ permute_number instance width length }
{
    first(&[
        (!is_instance(instance), Line::UnknownInstance),
        (!is_width(instance, width), Line::UnknownWidth),
        (length != state_bytes(instance), Line::WrongLength),
    ])
}

// Whether line 20 holds. Line 4 refuses a width of 0; here only 0 counts as its multiple.
fn steps_off(instance: u32, width: u32, l: u32, count: u32) -> bool
    ensures { result ≡ line20 instance width l count }
{
    l > 1023 || count > rounds(Instance::from(instance)) || !count.is_multiple_of(width)
}

// Refuses `count` steps, on a buffer of `length` bytes, from L's start value l by the first of lines 1, 4, 20 and 5 that holds.
pub fn steps_line(instance: u32, width: u32, l: u32, count: u32, length: usize) -> Result<(), Line>
    ensures { refused_by result ≡ steps_number instance width l count length }
{
    first(&[
        (!is_instance(instance), Line::UnknownInstance),
        (!is_width(instance, width), Line::UnknownWidth),
        (steps_off(instance, width, l, count), Line::StepsOutOfRange),
        (length != state_bytes(instance), Line::WrongLength),
    ])
}
