// f, g and h for all steps of a group at once (document 01, "Taps and feedback"): bit k of a word is the bit of step k. The linear taps of
// f and g are counted under a mask, step by step. The products, and the bits that h adds by themselves, are `&` and `^` of the register's
// words from each tap on. X and Y go in by themselves, and not as `RegisterWords`: of L only its first bit in each step is read. What
// reads taps is marked `inline(always)`, so that they become shifts by constants in each instance: without it the instances take 1.4 to
// 2.1 times as long.
ghost use Rattle.std.specs.Prelude.{◌≡◌, ℕ, ◌+◌, ◌*◌, ◌%◌, ◌^◌, ◌≤◌, ◌<◌};
ghost use Rattle.quark.specs.Feedback.{sum_at};
ghost use Rattle.quark.specs.Word.{word_bit};
ghost use Rattle.quark.specs.leaf.Places.{places_from};
ghost use Rattle.words.specs.Words.{value};
ghost use Rattle.words.specs.leaf.FeedbackWords.{in_step, InRegister, MixedInRegister, products_at, mask_sum, pack, MaskSums, OneWord, mixes_at, FeedbackBits};

use crate::Register;
use crate::registers::{down, up, window};
use crate::taps::{Masks, MixedTaps, Quark};

// Bits of X and of Y for the steps of a group: bit k of a word is the bit of step k.
#[derive(Clone, Copy)]
pub struct StepBits {
    pub x: u64,
    pub y: u64,
}

// f, g and h of the registers: bit k of a word is the bit of step k.
#[derive(Clone, Copy)]
pub struct Feedback {
    pub f: u64,
    pub g: u64,
    pub h: u64,
}

// The products of f's sum at the taps a0 to a12 of a register.
#[inline(always)]
fn products(r: Register, a: &[u32; 13]) -> u64
    requires { InRegister a.now }
    ensures { (k : ℕ) → k < 64 → word_bit result k ≡ products_at a.now (in_step k r) % 2 }
{
    let a1 = window(r, a[1]);
    let a3 = window(r, a[3]);
    let a4 = window(r, a[4]);
    let a5 = window(r, a[5]);
    let a6 = window(r, a[6]);
    let a7 = window(r, a[7]);
    let a8 = window(r, a[8]);
    let a10 = window(r, a[10]);
    let a11 = window(r, a[11]);
    let a12 = window(r, a[12]);
    (a11 & a12)
        ^ (a6 & a7)
        ^ (a1 & a3)
        ^ (a8 & a10 & a11)
        ^ (a4 & a5 & a6)
        ^ (a1 & a5 & a8 & a12)
        ^ (a6 & a7 & a10 & a11)
        ^ (a3 & a4 & a11 & a12)
        ^ (a7 & a8 & a10 & a11 & a12)
        ^ (a1 & a3 & a4 & a5 & a6)
        ^ (a4 & a5 & a6 & a7 & a8 & a10)
}

// h without the bits of X and Y that it adds by themselves; bit k of l is L0 in step k. The names are U's taps.
#[inline(always)]
fn mixed(x: Register, y: Register, l: u64, taps: MixedTaps) -> u64
    requires { MixedInRegister taps }
    ensures { (k : ℕ) → k < 64 → word_bit result k ≡ mixes_at taps (in_step k x) (in_step k y) (word_bit l k) % 2 }
{
    let y3 = window(y, taps.y_low);
    let x25 = window(x, taps.x_low);
    let x46 = window(x, taps.x_mid);
    let x55 = window(x, taps.x_high);
    let y59 = window(y, taps.y_high);
    l ^ (y3 & x55)
        ^ (x46 & x55)
        ^ (x55 & y59)
        ^ (y3 & x25 & x46)
        ^ (y3 & x46 & x55)
        ^ (y3 & x46 & y59)
        ^ (l & x25 & x46 & y59)
        ^ (l & x25)
}

// The sum of the bits at taps.
#[inline(always)]
pub fn taps_at(r: Register, taps: &[u32]) -> u64
    requires { InRegister taps.now }
    ensures { (k : ℕ) → k < 64 → word_bit result k ≡ sum_at (in_step k r) taps.now % 2 }
{
    let mut sum = 0u64;
    for t in taps {
        sum ^= window(r, *t);
    }
    sum
}

// f, g and h of an instance for `WIDTH` steps; bit k of l is L0 in step k. `sums` has the linear taps of f and g.
#[inline(always)]
pub fn feedback_of<T: Quark, const WIDTH: u32>(
    x: Register,
    y: Register,
    l: u64,
    sums: StepBits,
) -> Feedback
    requires { (WIDTH ≤ 16) × MaskSums x y T.MASKS WIDTH sums }
    ensures { FeedbackBits T.taps WIDTH x y l result }
{
    Feedback {
        f: products(x, &T::F) ^ sums.x,
        g: products(y, &T::G) ^ sums.y,
        h: mixed(x, y, l, T::H) ^ T::h_alone(x, y),
    }
}

// The sum of the bits of a register at the places of a mask: how many ones are under it, modulo 2. The two words are added before the ones
// are counted, since the parity of a sum is the sum of the parities.
fn parity(r: Register, mask: Register) -> u64
    ensures { result ≡ sum_at (word_bit (value r)) (places_from 128 0 (value mask)) % 2 }
{
    u64::from(u64::count_ones((r.hi & mask.hi) ^ (r.lo & mask.lo)) % 2)
}

// The sums of the linear taps, as a mask over a register, for `width` steps. The register stays and the mask moves down, last step first:
// the masks are constants, so that the compiler knows them at each step.
fn sums(r: Register, mask: Register, width: u32) -> u64
    requires { (0 < width) × (width ≤ 16) × (value mask < 2 ^ 112) }
    ensures { result ≡ pack (mask_sum (value r) (value mask)) width }
{
    let mut m = up(mask, width - 1);
    let mut bits = 0u64;
    for _ in 0..width {
        bits = bits * 2 + parity(r, m);
        m = down(m);
    }
    bits
}

// The sums of four steps at the taps of a mask over one word, in bits 0 to 3; `later`, the sums of later steps, goes to the bits from 4 on.
// The mask stays and the word moves down, last step first.
fn four_sums(word: u64, mask: u64, later: u64) -> u64
    requires { later < 16 }
    ensures { result ≡ later * 16 + pack (mask_sum word mask) 4 }
{
    let mut bits = later;
    for j in (0..4u32).rev() {
        bits = bits * 2
            + parity(
                Register {
                    hi: 0,
                    lo: word >> j,
                },
                Register { hi: 0, lo: mask },
            );
    }
    bits
}

// The sums of the linear taps, as a mask over a register, for eight steps, where the register's first eight bits are 0: so the tap a0 adds
// nothing. `first` is the first tap past it, and four steps read the taps from there on in one word.
fn sums_past(r: Register, mask: Register, first: u32) -> u64
    requires { (value r % 2 ^ 8 ≡ 0) × OneWord (value mask) first }
    ensures { result ≡ pack (mask_sum (value r) (value mask)) 8 }
{
    let taps = window(mask, first);
    let later = four_sums(window(r, first + 4), taps, 0);
    four_sums(window(r, first), taps, later)
}

// The sums of the linear taps of f and of g, as masks over X and Y, for `width` steps.
pub fn linear(x: Register, y: Register, masks: Masks, width: u32) -> StepBits
    requires { (0 < width) × (width ≤ 16) × (value masks.f < 2 ^ 112) × (value masks.g < 2 ^ 112) }
    ensures { MaskSums x y masks width result }
{
    StepBits {
        x: sums(x, masks.f, width),
        y: sums(y, masks.g, width),
    }
}

// The sums of the linear taps of f and of g, as masks over X and Y, for eight steps, where the first eight bits of X and Y are 0. `f` and
// `g` are the first taps of f and g past a0.
pub fn linear_past(x: Register, y: Register, masks: Masks, f: u32, g: u32) -> StepBits
    requires { (value x % 2 ^ 8 ≡ 0) × (value y % 2 ^ 8 ≡ 0) × OneWord (value masks.f) f × OneWord (value masks.g) g }
    ensures { MaskSums x y masks 8 result }
{
    StepBits {
        x: sums_past(x, masks.f, f),
        y: sums_past(y, masks.g, g),
    }
}
