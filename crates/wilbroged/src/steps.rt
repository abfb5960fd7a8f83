// Steps of the permutation up to a named clock, and back, for a C host.
ghost use Rattle.std.specs.Prelude.{◌≡◌};
ghost use Rattle.refusals.specs.Outcome.{number_of, value_or};
ghost use Rattle.permutation.specs.Steps.{registers_after, registers_before, steps_outcome, steps_back_outcome, steps_bytes};

use refusals::number_of;

// Overwrites the bits of an instance's state with those after `count` steps of P from L's start value l, and writes L after them to
// `l_after`; in both numbers L's bit 0 has weight 512. 0; or the number of the first of lines 1, 4, 20 and 5 that holds, and both are
// untouched.
#[unsafe(no_mangle)]
pub extern "C" fn quark_steps(
    instance: u32,
    width: u32,
    l: u32,
    count: u32,
    state: &mut [u8],
    l_after: &mut u32,
) -> u32
    ensures number { result ≡ number_of (steps_outcome instance width l count state.old) }
    ensures bytes { state.new ≡ steps_bytes registers_after instance width l count state.old }
    ensures after { l_after.new ≡ value_or (steps_outcome instance width l count state.old) l_after.old }
{
    match permutation::steps(instance, width, l, count, state) {
        Ok(after) => {
            *l_after = after;
            0
        }
        Err(refusal) => refusal.line.number(),
    }
}

// Overwrites the bits of an instance's state with those from before `count` steps of P, where L began at the value l. 0; or the number of the
// first of lines 1, 4, 20 and 5 that holds, and the state is untouched.
#[unsafe(no_mangle)]
pub extern "C" fn quark_steps_back(
    instance: u32,
    width: u32,
    l: u32,
    count: u32,
    state: &mut [u8],
) -> u32
    ensures number { result ≡ number_of (steps_back_outcome instance width l count state.old) }
    ensures bytes { state.new ≡ steps_bytes registers_before instance width l count state.old }
{
    number_of(permutation::steps_back(instance, width, l, count, state))
}
