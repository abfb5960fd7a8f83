// The permutation P and its inverse on a lent buffer, at every step width (document 01, "Steps, permutation and inverse"; QUARK 3.2), and
// steps of P up to a named clock, and back (document 02, 2.6). Widths 1 and 8 are every instance's, 16 is S's; all give the same bits.
// Instance, width, l and count are numbers, since a wrong one is an input that lines 1, 4 and 20 answer.
#![tactic(auto)]

ghost use Rattle.std.specs.Prelude.{◌≡◌};
ghost use Rattle.refusals.specs.Outcome.{outcome_of};
ghost use Rattle.quark.specs.Step.{P};
ghost use Rattle.quark.specs.Inverse.{undo_P};
ghost use Rattle.permutation.specs.Permute.{permute_outcome, overwritten};
ghost use Rattle.permutation.specs.Steps.{registers_after, registers_before, steps_outcome, steps_back_outcome, steps_bytes};

use cells::Steps;
use direction::{Back, Forward};
use refusals::Refusal;

mod buffer;
mod bytes;
mod cells;
mod direction;
pub mod lines;
mod register_l;
mod serial;
mod several;
mod taps;

// Overwrites the bits of an instance's state with P of them, `width` steps together.
// Refuses by lines 1, 4 and 5, in this order; the buffer is then untouched.
pub fn permute(instance: u32, width: u32, buffer: &mut [u8]) -> Result<(), Refusal>
    ensures answer { outcome_of result ≡ permute_outcome instance width buffer.old }
    ensures bytes { buffer.new ≡ overwritten P instance width buffer.old }
{
    buffer::permute::<Forward>(instance, width, buffer)
}

// Overwrites the bits of an instance's state with P's inverse of them, `width` steps undone together.
// Refuses by lines 1, 4 and 5, in this order; the buffer is then untouched.
pub fn invert(instance: u32, width: u32, buffer: &mut [u8]) -> Result<(), Refusal>
    ensures answer { outcome_of result ≡ permute_outcome instance width buffer.old }
    ensures bytes { buffer.new ≡ overwritten undo_P instance width buffer.old }
{
    buffer::permute::<Back>(instance, width, buffer)
}

// Overwrites the bits of an instance's state with those after `count` steps of P, X and then Y, `width` steps together, and answers L after
// them. L begins at the value l; here and in the answer its bit 0 has weight 512.
// Refuses by lines 1, 4, 20 and 5, in this order; the buffer is then untouched.
pub fn steps(
    instance: u32,
    width: u32,
    l: u32,
    count: u32,
    buffer: &mut [u8],
) -> Result<u32, Refusal>
    ensures answer { outcome_of result ≡ steps_outcome instance width l count buffer.old }
    ensures bytes { buffer.new ≡ steps_bytes registers_after instance width l count buffer.old }
{
    lines::steps_line(instance, width, l, count, buffer.len())?;
    let start = register_l::mirrored(l);
    let steps = Steps {
        instance,
        width,
        l: start,
        count,
    };
    let after = buffer::overwrite::<Forward>(steps, buffer);
    Ok(register_l::mirrored(after))
}

// Overwrites the bits of an instance's state with those from before `count` steps of P, X and then Y, `width` steps undone together. L began
// at the value l before these steps, with weight 512 for its bit 0.
// Refuses by lines 1, 4, 20 and 5, in this order; the buffer is then untouched.
pub fn steps_back(
    instance: u32,
    width: u32,
    l: u32,
    count: u32,
    buffer: &mut [u8],
) -> Result<(), Refusal>
    ensures answer { outcome_of result ≡ steps_back_outcome instance width l count buffer.old }
    ensures bytes { buffer.new ≡ steps_bytes registers_before instance width l count buffer.old }
{
    lines::steps_line(instance, width, l, count, buffer.len())?;
    let start = register_l::mirrored(l);
    let steps = Steps {
        instance,
        width,
        l: start,
        count,
    };
    buffer::overwrite::<Back>(steps, buffer);
    Ok(())
}
