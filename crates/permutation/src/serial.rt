// The serial form: steps one at a time, on single bits (document 01, "Steps, permutation and inverse"; QUARK 3.2 and 3.3). A step moves the
// cells of X and Y down by one and puts the two new bits at their ends, and undoing it moves them up. The word form has f's sum and h over
// words of many steps: one form for both would need the laws of `&` and `^` as a trait, for two callers.
ghost use Rattle.std.specs.Prelude.{◌≡◌, ℕ, ◌%◌, ◌<◌, true, false, length, slice_index};
ghost use Rattle.quark.specs.Bytes.{bit, tabulate};
ghost use Rattle.quark.specs.Feedback.{feedback, sum_at, f, g, h};
ghost use Rattle.quark.specs.Step.{step};
ghost use Rattle.quark.specs.Inverse.{undo_step};
ghost use Rattle.quark.specs.Word.{word_bits};
ghost use Rattle.words.specs.Instances.{named};
ghost use Rattle.permutation.specs.leaf.Cells.{Cells};
ghost use Rattle.permutation.specs.leaf.Core.{held, CellsHold, CellsReached};
ghost use Rattle.permutation.specs.leaf.Serial.{indices, Fed};

use crate::cells::RegisterCells;
use crate::register_l::RegisterL;
use crate::taps::Taps;
use words::instances::Instance;

// The bits of a register at thirteen taps.
fn bits_at(register: &[u8], taps: &[usize; 13]) -> [u8; 13]
    requires { (k : ℕ) → k < 13 → slice_index taps.now k < length register.now }
    ensures { result ≡ tabulate 13 (λ k. bit register.now (slice_index taps.now k)) }
{
    let mut bits = [0; 13];
    for (k, tap) in taps.iter().enumerate() {
        bits[k] = register[*tap];
    }
    bits
}

// f's sum over thirteen bits.
fn feedback_sum(a: [u8; 13]) -> u8
    requires { Cells a }
    ensures { result ≡ feedback indices (bit a) }
{
    let [a0, a1, a2, a3, a4, a5, a6, a7, a8, a9, a10, a11, a12] = a;
    a0 ^ a1
        ^ a2
        ^ a4
        ^ a5
        ^ a6
        ^ a7
        ^ a8
        ^ a9
        ^ a10
        ^ a11
        ^ a11 & a12
        ^ a6 & a7
        ^ a1 & a3
        ^ a8 & a10 & a11
        ^ a4 & a5 & a6
        ^ a1 & a5 & a8 & a12
        ^ a6 & a7 & a10 & a11
        ^ a3 & a4 & a11 & a12
        ^ a7 & a8 & a10 & a11 & a12
        ^ a1 & a3 & a4 & a5 & a6
        ^ a4 & a5 & a6 & a7 & a8 & a10
}

// f's sum over the taps of a register: f in X, and g in Y over g's taps.
// A lent part of the cells is a plain slice: `Cells` is asked of it again, here, in `sum_at` and `h_at`, and in `several`.
fn feedback_at(register: &[u8], taps: &[usize; 13]) -> u8
    requires by_index { (k : ℕ) → k < 13 → slice_index taps.now k < length register.now }
    requires cells { Cells register.now }
    ensures { result ≡ feedback taps.now (bit register.now) }
{
    feedback_sum(bits_at(register, taps))
}

// The sum of a register's bits at some taps.
fn sum_at(register: &[u8], taps: &[usize]) -> u8
    requires by_index { (k : ℕ) → k < length taps.now → slice_index taps.now k < length register.now }
    requires cells { Cells register.now }
    ensures { result ≡ sum_at (bit register.now) taps.now % 2 }
{
    let mut sum = 0;
    for tap in taps {
        sum ^= register[*tap];
    }
    sum
}

// h on the registers X, Y and L.
fn h_at(x: &[u8], y: &[u8], l: RegisterL, instance: Instance) -> u8
    requires x_len { (length x.now ≡ (named instance).taps.half) × (length y.now ≡ (named instance).taps.half) }
    requires cells { Cells x.now }
    requires cells_2 { Cells y.now }
    ensures { result ≡ h (named instance).taps (bit x.now) (bit y.now) (bit (word_bits 10 l.value)) }
{
    let taps = Taps::of(instance);
    let l0 = (l.value % 2) as u8;
    let sum = l0 ^ sum_at(x, taps.h_x) ^ sum_at(y, taps.h_y);
    let y3 = y[taps.y_low];
    let x25 = x[taps.x_low];
    let x46 = x[taps.x_mid];
    let x55 = x[taps.x_high];
    let y59 = y[taps.y_high];
    sum ^ y3 & x55
        ^ x46 & x55
        ^ x55 & y59
        ^ y3 & x25 & x46
        ^ y3 & x46 & x55
        ^ y3 & x46 & y59
        ^ l0 & x25 & x46 & y59
        ^ l0 & x25
}

// The bits of f, g and h.
// A cell each; `Feedback` of `words`, which is private to it, has words.
#[derive(Clone, Copy)]
struct FeedbackBits {
    f: u8,
    g: u8,
    h: u8,
}

impl RegisterCells {
    // f, g and h on the registers.
    fn feedbacks(&self, instance: Instance) -> FeedbackBits
        ensures { Fed (named instance).taps (held (named instance) self.now) result.f result.g result.h }
    {
        let taps = Taps::of(instance);
        let (x, y) = self.bits[..2 * taps.half].split_at(taps.half);
        // h first: its loops before the sums of f and g make the step a tenth faster.
        let h = h_at(x, y, self.l, instance);
        FeedbackBits {
            f: feedback_at(x, &taps.f),
            g: feedback_at(y, &taps.g),
            h,
        }
    }

    // One step, from the old bits alone.
    fn step(&mut self, instance: Instance)
        ensures { CellsHold (named instance) (step (named instance).taps (held (named instance) self.old)) self.old self.new }
    {
        let half = Taps::of(instance).half;
        let b = 2 * half;
        let old = self.feedbacks(instance);
        let x_gains = self.bits[half] ^ old.f ^ old.h;
        let y_gains = old.g ^ old.h;
        self.bits.copy_within(1..b, 0);
        self.bits[half - 1] = x_gains;
        self.bits[b - 1] = y_gains;
        self.l = self.l.next();
    }

    // One step undone. With 0 for the dropped bits f, g and h give all but X0 and Y0.
    fn undo_step(&mut self, instance: Instance)
        ensures { CellsHold (named instance) (undo_step (named instance).taps (held (named instance) self.old)) self.old self.new }
    {
        let half = Taps::of(instance).half;
        let b = 2 * half;
        let x_gained = self.bits[half - 1];
        let y_gained = self.bits[b - 1];
        self.bits.copy_within(0..b - 1, 1);
        self.bits[0] = 0;
        self.bits[half] = 0;
        self.l = self.l.previous();
        let old = self.feedbacks(instance);
        let y0 = y_gained ^ old.g ^ old.h;
        self.bits[half] = y0;
        self.bits[0] = x_gained ^ y0 ^ old.f ^ old.h;
    }

    // `count` steps. One loop for this and `undo`, over a direction, would be no plainer: this one's invariant counts the steps taken, and
    // the other's those that are left, from another L.
    pub fn run(&mut self, instance: Instance, count: u32)
        ensures { CellsReached false (named instance) count self.old self.new }
    {
        for _ in 0..count {
            self.step(instance);
        }
    }

    // `count` steps undone, the last of them first. L began at its value before the first of them.
    pub fn undo(&mut self, instance: Instance, count: u32)
        ensures { CellsReached true (named instance) count self.old self.new }
    {
        self.l = self.l.after(count);
        for _ in 0..count {
            self.undo_step(instance);
        }
    }
}
