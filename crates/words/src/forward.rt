// Groups of steps taken together, eight of any instance or sixteen of S (document 01, "Steps, permutation and inverse"). A group takes the
// new bits of all its steps from the old registers, which the half allows: highest tap + width is at most the half. L alone is extended in
// strides.
ghost use Rattle.std.specs.Prelude.{◌≡◌, ◌+◌, ◌*◌, ◌%◌, ◌^◌, ◌<◌};
ghost use Rattle.words.specs.Words.{value};
ghost use Rattle.words.specs.Instances.{named};
ghost use Rattle.words.specs.leaf.Groups.{WidthIn, Fitting, Stepped, AfterGroup};

use crate::RegisterWords;
use crate::feedback::{Feedback, feedback_of, linear};
use crate::instances::Instance;
use crate::registers::{Split, low_bits, push};
use crate::strides::group_of_l;
use crate::taps::{D, Quark, S, U};

// The registers after a group, with `l` for L: X gains Y0, f and h, and Y gains g and h.
fn after_group(s: RegisterWords, words: Feedback, by: Split, l: u64) -> RegisterWords
    requires { (value s.x < 2 ^ (by.width + by.kept)) × (value s.y < 2 ^ (by.width + by.kept)) }
    ensures { AfterGroup s words by.kept by.width result × (result.l ≡ l) }
{
    let x = low_bits(s.y.lo ^ words.f ^ words.h, by);
    let y = low_bits(words.g ^ words.h, by);
    RegisterWords {
        x: push(s.x, x, by),
        y: push(s.y, y, by),
        l,
    }
}

// `WIDTH` steps of an instance.
// What it needs of the width and of the words are two facts, which every group hands on: a type with both would be built anew after each.
fn group<T: Quark, const WIDTH: u32>(s: RegisterWords) -> RegisterWords
    requires { WidthIn T.taps WIDTH × Fitting T.taps s }
    ensures { Stepped T.taps WIDTH s result }
{
    let after = group_of_l(s.l, WIDTH);
    let sums = linear(s.x, s.y, T::MASKS, WIDTH);
    let words = feedback_of::<T, WIDTH>(s.x, s.y, after.firsts, sums);
    let by = Split {
        kept: T::HALF - WIDTH,
        width: WIDTH,
    };
    after_group(s, words, by, after.l)
}

// count * WIDTH steps of an instance.
fn groups<T: Quark, const WIDTH: u32>(state: RegisterWords, count: u32) -> RegisterWords
    requires { WidthIn T.taps WIDTH × Fitting T.taps state }
    ensures { Stepped T.taps (count * WIDTH) state result }
{
    let mut s = state;
    for _ in 0..count {
        s = group::<T, WIDTH>(s);
    }
    s
}

// `count` steps of an instance, `width` taken together.
pub fn steps(instance: Instance, width: u32, count: u32, state: RegisterWords) -> RegisterWords
    requires { WidthIn (named instance).taps width × (count % width ≡ 0) × Fitting (named instance).taps state }
    ensures { Stepped (named instance).taps count state result }
{
    match instance {
        Instance::U => groups::<U, 8>(state, count / 8),
        Instance::D => groups::<D, 8>(state, count / 8),
        Instance::S if width == 8 => groups::<S, 8>(state, count / 8),
        Instance::S => groups::<S, 16>(state, count / 16),
    }
}
