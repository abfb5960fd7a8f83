// Groups of steps undone (document 01, "Steps, permutation and inverse"). The registers are moved up by the width, with 0 for the bits that
// are to be found, and f, g and h of these registers are worked out for all steps at once. In a step X gained Y0 + f + h and Y gained
// g + h, so h cancels out in the sum of both: X0 is the sum of both gains and of f and g without their own tap a0, and Y0 is the sum of Y's
// gain, of g without a0, and of h. Few taps read the bits that are to be found: of g one besides a0, and only in the first steps of the
// group; of h two in X and two in Y, whose bits stand alone or in products with known bits. So the bits solve equations with few unknown
// terms, and are found from the last step to the first, in words.
ghost use Rattle.std.specs.Prelude.{◌≡◌, ℕ, ◌+◌, ◌*◌, ◌%◌, ◌^◌, ◌<◌, ◌≤◌};
ghost use Rattle.quark.specs.Word.{word_bit};
ghost use Rattle.words.specs.leaf.FeedbackWords.{in_step, InRegister, MixedInRegister};
ghost use Rattle.words.specs.Instances.{named};
ghost use Rattle.words.specs.leaf.Groups.{WidthIn, Fitting, Preceding};
ghost use Rattle.words.specs.leaf.Solving.{products_derivative_at, mixes_derivative_at, DerivativeBits, KnownTerms, Solved, Solvable};

use crate::feedback::{Feedback, StepBits, feedback_of};
use crate::instances::Instance;
use crate::registers::{Split, low_bits, pull, window};
use crate::strides::group_of_l_back;
use crate::taps::{D, MixedTaps, Quark, S, U};
use crate::{Register, RegisterWords};

// By how much the products of g, and h, change with the bit at their low tap in Y: bit k of a word is the bit of step k.
// A type beside `StepBits`: its words are of g and h, and not of X and Y.
#[derive(Clone, Copy)]
pub struct Derivatives {
    pub g: u64,
    pub h: u64,
}

// The low taps: those that can read bits which are to be found. h adds the bits at X1, at the tap x in X and at the tap y in Y by
// themselves, and has the bit at the tap h in Y in products; g has the tap g in Y.
#[derive(Clone, Copy)]
pub struct LowTaps {
    pub x: u32,
    pub y: u32,
    pub h: u32,
    pub g: u32,
}

// By how much the products of f's sum, at the taps a0 to a12 of a register, change with the bit at a1.
#[inline(always)]
fn products_derivative(r: Register, a: &[u32; 13]) -> u64
    requires { InRegister a.now }
    ensures { (k : ℕ) → k < 64 → word_bit result k ≡ products_derivative_at a.now (in_step k r) % 2 }
{
    let a3 = window(r, a[3]);
    let a5 = window(r, a[5]);
    a3 ^ (a5 & window(r, a[8]) & window(r, a[12])) ^ (a3 & window(r, a[4]) & a5 & window(r, a[6]))
}

// By how much h changes with the bit at its low tap in Y.
#[inline(always)]
fn mixed_derivative(x: Register, y: Register, taps: MixedTaps) -> u64
    requires { MixedInRegister taps }
    ensures { (k : ℕ) → k < 64 → word_bit result k ≡ mixes_derivative_at taps (in_step k x) (in_step k y) % 2 }
{
    let high = window(x, taps.x_high);
    let mid = window(x, taps.x_mid);
    high ^ (window(x, taps.x_low) & mid) ^ (mid & high) ^ (mid & window(y, taps.y_high))
}

// The derivatives of an instance.
#[inline(always)]
fn derivatives_of<T: Quark>(x: Register, y: Register) -> Derivatives
    ensures { (k : ℕ) → k < 64 → DerivativeBits T.taps x y result k }
{
    Derivatives {
        g: products_derivative(y, &T::G),
        h: mixed_derivative(x, y, T::H),
    }
}

// The known terms of each bit that is to be found, added: for X what X and Y gained, f and g; for Y what Y gained, g and h.
fn known_terms(s: RegisterWords, words: Feedback, by: Split) -> StepBits
    ensures { KnownTerms s words by.kept by.width result }
{
    let g = window(s.y, by.kept) ^ words.g;
    StepBits {
        x: low_bits(window(s.x, by.kept) ^ words.f ^ g, by),
        y: low_bits(g ^ words.h, by),
    }
}

// The word that is the sum of `known`, of itself moved down by `low`, and of itself moved down by `high` where `factor` has ones. A bit
// depends only on bits at least `low` places above it, so each pass makes `low` more bits right, from the top.
fn solve_word(known: u64, factor: u64, low: u32, high: u32, width: u32) -> u64
    requires { (known < 2 ^ width) × (0 < low) × (low ≤ high) × (high < 64) × (width < 64) }
    ensures { (result < 2 ^ width) × ((k : ℕ) → word_bit result k ≡ (word_bit known k + word_bit result (k + low) + word_bit result (k + high) * word_bit factor k) % 2) }
{
    let mut word = known;
    // there is no `From<u32>` for usize
    for _ in (low..width).step_by(low as usize) {
        word = known ^ (word >> low) ^ ((word >> high) & factor);
    }
    word
}

// The bits that are to be found, from their known terms. g reads such bits in the first steps alone, those below width - taps.g. What it
// adds there (`by_g`), nothing but h's tap X1 reads again.
fn solve(known: StepBits, derivatives: Derivatives, taps: LowTaps, width: u32) -> StepBits
    requires { (known.x < 2 ^ width) × (known.y < 2 ^ width) × Solvable taps width }
    ensures { Solved known derivatives taps width result }
{
    let without_g = known.y ^ (known.x >> 1) ^ (known.x >> taps.x);
    let y = solve_word(without_g, derivatives.h, taps.y, taps.h, width);
    let read = y >> taps.g;
    let by_g = read ^ (read & derivatives.g);
    StepBits {
        x: known.x ^ by_g,
        y: y ^ by_g ^ (by_g >> 1),
    }
}

// `WIDTH` steps of an instance undone.
fn group_back<T: Quark, const WIDTH: u32>(s: RegisterWords) -> RegisterWords
    requires { WidthIn T.taps WIDTH × Fitting T.taps s }
    ensures { Preceding T.taps WIDTH s result }
{
    let before = group_of_l_back(s.l, WIDTH);
    let by = Split {
        kept: T::HALF - WIDTH,
        width: WIDTH,
    };
    let x = pull(s.x, 0, by);
    let y = pull(s.y, 0, by);
    let derivatives = derivatives_of::<T>(x, y);
    let sums = T::sums_past(x, y, WIDTH);
    let words = feedback_of::<T, WIDTH>(x, y, before.firsts, sums);
    let known = known_terms(s, words, by);
    let new = solve(known, derivatives, T::LOW, WIDTH);
    RegisterWords {
        x: pull(s.x, new.x, by),
        y: pull(s.y, new.y, by),
        l: before.l,
    }
}

// count * WIDTH steps of an instance undone. One body for this and `forward::groups` would take the group as a closure, and be no plainer.
fn groups_back<T: Quark, const WIDTH: u32>(state: RegisterWords, count: u32) -> RegisterWords
    requires { WidthIn T.taps WIDTH × Fitting T.taps state }
    ensures { Preceding T.taps (count * WIDTH) state result }
{
    let mut s = state;
    for _ in 0..count {
        s = group_back::<T, WIDTH>(s);
    }
    s
}

// `count` steps of an instance undone, `width` together. One body for this and `forward::steps` would take a closure for each branch, whose
// types differ, and be no plainer.
pub fn steps_back(instance: Instance, width: u32, count: u32, state: RegisterWords) -> RegisterWords
    requires { WidthIn (named instance).taps width × (count % width ≡ 0) × Fitting (named instance).taps state }
    ensures { Preceding (named instance).taps count state result }
{
    match instance {
        Instance::U => groups_back::<U, 8>(state, count / 8),
        Instance::D => groups_back::<D, 8>(state, count / 8),
        Instance::S if width == 8 => groups_back::<S, 8>(state, count / 8),
        Instance::S => groups_back::<S, 16>(state, count / 16),
    }
}
