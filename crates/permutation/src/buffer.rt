// A buffer through the stepping cores, by step width, and back. The cores take L before the steps, a number with bit i at weight 2 to the i,
// and a step count; P and its inverse pass all ones and 4b. The direction of the steps is a type.
ghost use Rattle.std.specs.Prelude.{◌≡◌, length};
ghost use Rattle.refusals.specs.Outcome.{outcome_of};
ghost use Rattle.quark.specs.Step.{rounds};
ghost use Rattle.quark.specs.Instance.{instance_of, state_bytes};
ghost use Rattle.words.specs.Instances.{named};
ghost use Rattle.permutation.specs.leaf.Core.{CellsReached, BufferReached, permuted};
ghost use Rattle.permutation.specs.Permute.{permute_outcome, overwritten};

use crate::cells::{RegisterCells, Steps};
use crate::direction::Direction;
use crate::register_l::RegisterL;
use crate::{bytes, lines, several};
use refusals::Refusal;
use words::instances::Instance;

// L at the start of P.
const ALL_ONES: u32 = 1023;

// The steps of P: 4b.
pub fn rounds(instance: Instance) -> u32
    ensures { result ≡ rounds (named instance).taps }
{
    match instance {
        Instance::U => 544,
        Instance::D => 704,
        Instance::S => 1024,
    }
}

// The steps on the registers in a direction. L begins at its value before the first of them.
// A width is a number of the call, so the form is chosen here, once.
fn run<D: Direction>(state: &mut RegisterCells, steps: Steps)
    ensures { CellsReached D.inverse (instance_of steps.instance) steps.count state.old state.new }
{
    if steps.width == 1 {
        D::one_by_one(state, Instance::from(steps.instance), steps.count);
    } else {
        several::run::<D>(state, steps);
    }
}

// Overwrites the bits of an instance's state with those after the steps, or from before them. L begins at steps.l before the first of them.
// Returns L after the steps, or before them.
pub fn overwrite<D: Direction>(steps: Steps, buffer: &mut [u8]) -> u32
    requires { length buffer.old ≡ state_bytes steps.instance }
    ensures { BufferReached D.inverse steps.instance steps.l steps.count buffer.old buffer.new result }
{
    let mut state = RegisterCells {
        bits: [0; 256],
        l: RegisterL { value: steps.l },
    };
    // The cells are lent where they stay: handed back by `load` they would be copied twice, and the stack be half a kilobyte more.
    bytes::load(buffer, &mut state.bits);
    run::<D>(&mut state, steps);
    bytes::store(&state.bits, buffer);
    state.l.value
}

// Overwrites the bits of an instance's state with P of them, or with P's inverse.
pub fn permute<D: Direction>(instance: u32, width: u32, buffer: &mut [u8]) -> Result<(), Refusal>
    ensures answer { outcome_of result ≡ permute_outcome instance width buffer.old }
    ensures bytes { buffer.new ≡ overwritten (permuted D.inverse) instance width buffer.old }
{
    lines::buffer_line(instance, width, buffer.len())?;
    let count = rounds(Instance::from(instance));
    let steps = Steps {
        instance,
        width,
        l: ALL_ONES,
        count,
    };
    overwrite::<D>(steps, buffer);
    Ok(())
}
