// The instances' taps as constants (document 01, "Taps and feedback"). Code that is generic over an instance is compiled for each by itself,
// so that the taps become shifts by constants.
ghost use Rattle.std.specs.Prelude.{◌≡◌, List, ℕ, ◌+◌, ◌%◌, ◌^◌, ◌<◌};
ghost use Rattle.quark.specs.Feedback.{Taps, sum_at};
ghost use Rattle.quark.specs.Instance as quark;
ghost use Rattle.quark.specs.Word.{word_bit};
ghost use Rattle.words.specs.declared.back.LowTaps.{LowTaps};
ghost use Rattle.words.specs.declared.taps.Masks.{Masks};
ghost use Rattle.words.specs.declared.taps.MixedTaps.{MixedTaps};
ghost use Rattle.words.specs.Words.{value};
ghost use Rattle.words.specs.leaf.FeedbackWords.{in_step, MaskSums};
ghost use Rattle.words.specs.leaf.Groups.{WidthIn};
ghost use Rattle.words.specs.leaf.TapsOf.{TapsOf, f_U, g_U, mixed_U, masks_U, low_U, taps_of_U, f_D, g_D, mixed_D, masks_D, low_D, taps_of_D, f_S, g_S, mixed_S, masks_S, low_S, taps_of_S};

use crate::Register;
use crate::back::LowTaps;
use crate::feedback::{StepBits, linear, linear_past, taps_at};

// A mask over X for f, and a mask over Y for g: the places of its ones are the linear taps.
#[derive(Clone, Copy)]
pub struct Masks {
    pub f: Register,
    pub g: Register,
}

// The five taps of h's products.
#[derive(Clone, Copy)]
pub struct MixedTaps {
    pub y_low: u32,
    pub x_low: u32,
    pub x_mid: u32,
    pub x_high: u32,
    pub y_high: u32,
}

// An instance in constants: `taps` is that of the definition.
pub trait Quark {
    // The bits of X, and of Y.
    const HALF: u32;

    // a0 to a12 of f, in X.
    const F: [u32; 13];

    // a0 to a12 of g, in Y, once a2 and a3 have changed places.
    const G: [u32; 13];

    // The taps of h's products.
    const H: MixedTaps;

    // The linear taps of f and of g.
    const MASKS: Masks;

    // The low taps.
    const LOW: LowTaps;

    ghost taps: { Taps };

    ghost HALF: { ℕ };

    ghost F: { List ℕ };

    ghost G: { List ℕ };

    ghost H: { MixedTaps };

    ghost MASKS: { Masks };

    ghost LOW: { LowTaps };

    // The bits that h adds by themselves, at 9 to 13 taps: each instance lists its own, since a constant of a trait that is a slice has no
    // ghost member.
    fn h_alone(x: Register, y: Register) -> u64
        ensures { (k : ℕ) → k < 64 → word_bit result k ≡ (sum_at (in_step k x) taps.h_X + sum_at (in_step k y) taps.h_Y) % 2 };

    // The sums of the linear taps of f and of g where the first `width` bits of X and Y are 0.
    fn sums_past(x: Register, y: Register, width: u32) -> StepBits
        requires { WidthIn taps width × (value x % 2 ^ width ≡ 0) × (value y % 2 ^ width ≡ 0) }
        ensures { MaskSums x y MASKS width result }
    {
        linear(x, y, Self::MASKS, width)
    }

    ghost of: { TapsOf taps HALF F G H MASKS LOW };
}

// U, D and S as types, for code that is generic over an instance.
pub struct U;

pub struct D;

pub struct S;

impl Quark for U {
    const HALF: u32 = 68;

    const F: [u32; 13] = [0, 9, 14, 15, 21, 28, 33, 37, 45, 50, 52, 55, 59];

    const G: [u32; 13] = [0, 7, 16, 15, 20, 30, 35, 37, 42, 49, 51, 54, 58];

    const H: MixedTaps = MixedTaps {
        y_low: 3,
        x_low: 25,
        x_mid: 46,
        x_high: 55,
        y_high: 59,
    };

    const MASKS: Masks = Masks {
        f: Register {
            hi: 0,
            lo: 0x94_2022_1020_4201,
        },
        g: Register {
            hi: 0,
            lo: 0x4a_0428_4011_0081,
        },
    };

    const LOW: LowTaps = LowTaps {
        x: 4,
        y: 2,
        h: 3,
        g: 7,
    };

    ghost taps = { quark.U.taps };

    ghost HALF = { 68 };

    ghost F = { f_U };

    ghost G = { g_U };

    ghost H = { mixed_U };

    ghost MASKS = { masks_U };

    ghost LOW = { low_U };

    fn h_alone(x: Register, y: Register) -> u64 {
        taps_at(x, &[1, 4, 25, 31, 56]) ^ taps_at(y, &[2, 10, 43, 59])
    }

    ghost of = { taps_of_U };
}

impl Quark for D {
    const HALF: u32 = 88;

    const F: [u32; 13] = [0, 11, 18, 19, 27, 36, 42, 47, 58, 64, 67, 71, 79];

    const G: [u32; 13] = [0, 9, 20, 19, 25, 38, 44, 47, 54, 63, 67, 69, 78];

    const H: MixedTaps = MixedTaps {
        y_low: 4,
        x_low: 35,
        x_mid: 57,
        x_high: 68,
        y_high: 79,
    };

    const MASKS: Masks = Masks {
        f: Register {
            hi: 0x89,
            lo: 0x400_8410_0804_0801,
        },
        g: Register {
            hi: 0x28,
            lo: 0x8040_9040_0210_0201,
        },
    };

    const LOW: LowTaps = LowTaps {
        x: 5,
        y: 2,
        h: 4,
        g: 9,
    };

    ghost taps = { quark.D.taps };

    ghost HALF = { 88 };

    ghost F = { f_D };

    ghost G = { g_D };

    ghost H = { mixed_D };

    ghost MASKS = { masks_D };

    ghost LOW = { low_D };

    fn h_alone(x: Register, y: Register) -> u64 {
        taps_at(x, &[1, 5, 35, 40, 48, 72]) ^ taps_at(y, &[2, 12, 24, 55, 61, 79])
    }

    // Four steps read all taps past a0 in one word. For U that was no faster, and S's do not fit into one.
    fn sums_past(x: Register, y: Register, width: u32) -> StepBits {
        linear_past(x, y, D::MASKS, 11, 9)
    }

    ghost of = { taps_of_D };
}

impl Quark for S {
    const HALF: u32 = 128;

    const F: [u32; 13] = [0, 16, 26, 28, 39, 52, 61, 69, 84, 94, 97, 103, 111];

    const G: [u32; 13] = [0, 13, 30, 28, 37, 56, 65, 69, 79, 92, 96, 101, 109];

    const H: MixedTaps = MixedTaps {
        y_low: 8,
        x_low: 47,
        x_mid: 72,
        x_high: 100,
        y_high: 111,
    };

    const MASKS: Masks = Masks {
        f: Register {
            hi: 0x82_4010_0020,
            lo: 0x2010_0080_0401_0001,
        },
        g: Register {
            hi: 0x21_1000_8022,
            lo: 0x100_0020_4000_2001,
        },
    };

    const LOW: LowTaps = LowTaps {
        x: 7,
        y: 3,
        h: 8,
        g: 13,
    };

    ghost taps = { quark.S.taps };

    ghost HALF = { 128 };

    ghost F = { f_S };

    ghost G = { g_S };

    ghost H = { mixed_S };

    ghost MASKS = { masks_S };

    ghost LOW = { low_S };

    fn h_alone(x: Register, y: Register) -> u64 {
        taps_at(x, &[1, 7, 47, 58, 90, 105]) ^ taps_at(y, &[3, 18, 34, 71, 80, 91, 111])
    }

    ghost of = { taps_of_S };
}
