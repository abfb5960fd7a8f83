// The taps of the three instances, as the serial form reads them (document 01, "Taps and feedback"; QUARK 3.3).
// `words` has the same places as constants of types, which the compiler makes into shifts; here one of three tables is read by index.
ghost use Rattle.std.specs.Prelude.{◌≤◌};
ghost use Rattle.words.specs.Instances.{named};
ghost use Rattle.permutation.specs.leaf.Taps.{AreTaps};

use words::instances::Instance;

// The taps of an instance.
#[derive(Clone, Copy)]
pub struct Taps {
    // Document 01's half: the cells of X, and of Y.
    pub half: usize,
    // a0 to a12 of f, in X.
    pub f: [usize; 13],
    // a0 to a12 of g, in Y, with a2 and a3 exchanged, so that f's sum over them is g.
    pub g: [usize; 13],
    // The taps that h adds by themselves, in X and in Y.
    pub h_x: &'static [usize],
    pub h_y: &'static [usize],
    // The five taps of h's products: Y3, X25, X46, X55 and Y59 in U.
    pub y_low: usize,
    pub x_low: usize,
    pub x_mid: usize,
    pub x_high: usize,
    pub y_high: usize,
}

const U: Taps = Taps {
    half: 68,
    f: [0, 9, 14, 15, 21, 28, 33, 37, 45, 50, 52, 55, 59],
    g: [0, 7, 16, 15, 20, 30, 35, 37, 42, 49, 51, 54, 58],
    h_x: &[1, 4, 25, 31, 56],
    h_y: &[2, 10, 43, 59],
    y_low: 3,
    x_low: 25,
    x_mid: 46,
    x_high: 55,
    y_high: 59,
};

const D: Taps = Taps {
    half: 88,
    f: [0, 11, 18, 19, 27, 36, 42, 47, 58, 64, 67, 71, 79],
    g: [0, 9, 20, 19, 25, 38, 44, 47, 54, 63, 67, 69, 78],
    h_x: &[1, 5, 35, 40, 48, 72],
    h_y: &[2, 12, 24, 55, 61, 79],
    y_low: 4,
    x_low: 35,
    x_mid: 57,
    x_high: 68,
    y_high: 79,
};

const S: Taps = Taps {
    half: 128,
    f: [0, 16, 26, 28, 39, 52, 61, 69, 84, 94, 97, 103, 111],
    g: [0, 13, 30, 28, 37, 56, 65, 69, 79, 92, 96, 101, 109],
    h_x: &[1, 7, 47, 58, 90, 105],
    h_y: &[3, 18, 34, 71, 80, 91, 111],
    y_low: 8,
    x_low: 47,
    x_mid: 72,
    x_high: 100,
    y_high: 111,
};

impl Taps {
    // The table of an instance.
    pub fn of(instance: Instance) -> &'static Taps
        ensures taps { AreTaps (named instance).taps result.now }
        ensures half_size { (64 ≤ result.now.half) × (result.now.half ≤ 128) }
    {
        match instance {
            Instance::U => &U,
            Instance::D => &D,
            Instance::S => &S,
        }
    }
}
