// The functions of this project for a C host: numbers and byte slices in, a number out, and for `quark_steps` a second number through a
// pointer. A slice is two arguments in C, the pointer and the length. No function keeps a state of its own. include/wilbroged.h declares
// them; the lines' numbers are those of docs/RULES.md. Between usize and u64 there is no `From`.
#![tactic(auto)]

ghost use Rattle.std.specs.Prelude.{◌≡◌};
ghost use Rattle.refusals.specs.Outcome.{number_of};
ghost use Rattle.quark.specs.Step.{P};
ghost use Rattle.quark.specs.Inverse.{undo_P};
ghost use Rattle.permutation.specs.Permute.{permute_outcome, overwritten};

use refusals::number_of;

mod digest;
mod journals;
mod steps;

// Overwrites the bits of an instance's state with P of them. 0; or the number of the first of lines 1, 4 and 5 that holds, and the state is
// untouched.
#[unsafe(no_mangle)]
pub extern "C" fn quark_permute(instance: u32, width: u32, state: &mut [u8]) -> u32
    ensures number { result ≡ number_of (permute_outcome instance width state.old) }
    ensures bytes { state.new ≡ overwritten P instance width state.old }
{
    number_of(permutation::permute(instance, width, state))
}

// Overwrites the bits of an instance's state with P's inverse of them, with the same answers.
#[unsafe(no_mangle)]
pub extern "C" fn quark_invert(instance: u32, width: u32, state: &mut [u8]) -> u32
    ensures number { result ≡ number_of (permute_outcome instance width state.old) }
    ensures bytes { state.new ≡ overwritten undo_P instance width state.old }
{
    number_of(permutation::invert(instance, width, state))
}
