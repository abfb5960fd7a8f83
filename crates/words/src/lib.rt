// Several steps together on registers that are words (document 01, "Steps, permutation and inverse"): groups of 8 steps for every instance,
// and of 16 for S. The operations are total: a call that does not fit hands its state back.
// They take instance, width and count as numbers and answer no `Option`, since their contracts speak of every number (`fits`).
#![tactic(auto)]

ghost use Rattle.std.specs.Prelude.{cond, ◌≡◌};
ghost use Rattle.quark.specs.Instance.{instance_of};
ghost use Rattle.words.specs.Words.{words_after, words_before, fits};

mod back;
mod feedback;
mod fitting;
mod forward;
pub mod instances;
mod registers;
mod strides;
mod taps;

use crate::instances::Instance;

// X or Y as the number hi * 2 ^ 64 + lo, with bit i at weight 2 ^ i; or a mask over it.
#[derive(Clone, Copy)]
pub struct Register {
    pub hi: u64,
    pub lo: u64,
}

// X, Y and L; L is a number below 1024 with bit i at weight 2 ^ i.
#[derive(Clone, Copy)]
pub struct RegisterWords {
    pub x: Register,
    pub y: Register,
    pub l: u64,
}

// The state `count` steps on, `width` taken together. A call fits where the number is an instance's, the width is 8, or 16 for S, the count
// is a multiple of it, X and Y have no bits past the half, and L is below 1024.
// A call that does not fit gives the state as it was.
pub fn run(instance: u32, width: u32, count: u32, state: RegisterWords) -> RegisterWords
    ensures { result ≡ cond (fits instance width count state) (words_after (instance_of instance).taps count state) state }
{
    if !fitting::fits(instance, width, count, state) {
        return state;
    }
    forward::steps(Instance::from(instance), width, count, state)
}

// The state `count` steps before, `width` undone together; state.l is what L was before them, and comes back. The same calls fit.
// A call that does not fit gives the state as it was.
// `undo` is not `run` in another direction alone: L goes ahead first.
pub fn undo(instance: u32, width: u32, count: u32, state: RegisterWords) -> RegisterWords
    ensures { result ≡ cond (fits instance width count state) (words_before (instance_of instance).taps count state) state }
{
    if !fitting::fits(instance, width, count, state) {
        return state;
    }
    let after = RegisterWords {
        l: strides::ahead(state.l, count / 8),
        ..state
    };
    back::steps_back(Instance::from(instance), width, count, after)
}
