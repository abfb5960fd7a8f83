// L in strides. Its new bit is L0 + L3 of ten bits, so at most seven steps can be taken from the old bits: eight are two strides of four.
// L is a number below 1024 with bit i at weight 2 ^ i. Its sequence is its first bit after each number of steps: L is ten bits of it in a
// row. In it bit k + 10 is the sum of the bits k and k + 3, and so bit k + 40 is the sum of the bits k and k + 12.
// L is a plain number whose bound each function asks for, since `RegisterWords.l` is public and takes any (`fits`).
ghost use Rattle.std.specs.Prelude.{◌≡◌, ℕ, ◌*◌, ◌^◌, ◌<◌};
ghost use Rattle.quark.specs.Bytes.{bit};
ghost use Rattle.quark.specs.Step.{steps_L};
ghost use Rattle.quark.specs.Word.{word_bit, word_bits};
ghost use Rattle.words.specs.leaf.Groups.{Width, Firsts, SteppedL, PrecedingL};

// L after four steps, from its old bits.
fn four_steps_of_l(l: u64) -> u64
    requires { l < 1024 }
    ensures { SteppedL 4 l result }
{
    ((l ^ (l / 8)) % 16) * 64 + l / 16
}

// L after eight steps.
fn eight_steps_of_l(l: u64) -> u64
    requires { l < 1024 }
    ensures { SteppedL 8 l result }
{
    four_steps_of_l(four_steps_of_l(l))
}

// L before eight steps. Bit i of the new low byte n is the sum of L's bit i + 2 and of the bit three places on, which is L's bit i - 5
// or, for i below 5, bit i + 3 of n. With m for what L gives, n is m ^ n / 8 and so m ^ m / 8 ^ m / 64.
fn eight_steps_of_l_back(l: u64) -> u64
    requires { l < 1024 }
    ensures { PrecedingL 8 l result }
{
    let m = ((l / 4) ^ (l * 32)) % 256;
    l % 4 * 256 + (m ^ m / 8 ^ m / 64)
}

// L after a group of steps, from L before it, or before, from L after it; and L's first bits in the group: bit k of `firsts` is L0 in step k.
#[derive(Clone, Copy)]
pub struct LGroup {
    pub l: u64,
    pub firsts: u64,
}

// L after a group.
pub fn group_of_l(l: u64, width: u32) -> LGroup
    requires { Width width × (l < 1024) }
    ensures { SteppedL width l result.l × Firsts width (word_bits 10 l) result.firsts }
{
    let next = eight_steps_of_l(l);
    if width == 8 {
        LGroup { l: next, firsts: l }
    } else {
        LGroup {
            l: eight_steps_of_l(next),
            firsts: next * 256 + l % 256,
        }
    }
}

// L before a group.
pub fn group_of_l_back(l: u64, width: u32) -> LGroup
    requires { Width width × (l < 1024) }
    ensures { PrecedingL width l result.l × Firsts width (word_bits 10 result.l) result.firsts }
{
    let later = eight_steps_of_l_back(l);
    if width == 8 {
        LGroup {
            l: later,
            firsts: later,
        }
    } else {
        let before = eight_steps_of_l_back(later);
        LGroup {
            l: before,
            firsts: later * 256 + before % 256,
        }
    }
}

// The first forty bits of L's sequence.
fn forty_bits_of_l(l: u64) -> u64
    requires { l < 1024 }
    ensures { (result < 2 ^ 40) × ((k : ℕ) → k < 40 → bit (steps_L k (word_bits 10 l)) 0 ≡ word_bit result k) }
{
    let l8 = eight_steps_of_l(l);
    let l16 = eight_steps_of_l(l8);
    let l24 = eight_steps_of_l(l16);
    let l32 = eight_steps_of_l(l24);
    l % 256
        + l8 % 256 * 0x100
        + l16 % 256 * 0x1_0000
        + l24 % 256 * 0x100_0000
        + l32 % 256 * 0x1_0000_0000
}

// L after count * 24 steps, on forty bits of its sequence.
// Beside `steps_of_l_by_8`: another stride, of other bits; what both share is the line with `for`.
fn steps_of_l_by_24(l: u64, count: u32) -> u64
    requires { l < 1024 }
    ensures { SteppedL (count * 24) l result }
{
    let mut bits = forty_bits_of_l(l);
    for _ in 0..count {
        bits = (bits ^ bits / 0x1000) % 0x100_0000 * 0x1_0000 + bits / 0x100_0000;
    }
    bits % 1024
}

// L after count * 8 steps, eight at a time.
fn steps_of_l_by_8(l: u64, count: u32) -> u64
    requires { l < 1024 }
    ensures { SteppedL (count * 8) l result }
{
    let mut now = l;
    for _ in 0..count {
        now = eight_steps_of_l(now);
    }
    now
}

// L after count * 8 steps.
pub fn ahead(l: u64, count: u32) -> u64
    requires { l < 1024 }
    ensures { SteppedL (count * 8) l result }
{
    steps_of_l_by_8(steps_of_l_by_24(l, count / 3), count % 3)
}
