// Registers in words, moved down and up (document 01, "Steps, permutation and inverse"). A half is 68, 88 or 128 bits, so that lo is always
// full.
ghost use Rattle.std.specs.Prelude.{◌≡◌, ◌+◌, ◌*◌, ◌/◌, ◌%◌, ◌^◌, ◌≤◌, ◌<◌};
ghost use Rattle.words.specs.Words.{value};

use crate::Register;

// The 64 bits of a register from bit t on, 0 past its end.
#[inline(always)]
pub fn window(r: Register, t: u32) -> u64
    requires { t < 128 }
    ensures { result ≡ value r / 2 ^ t % 2 ^ 64 }
{
    if t < 64 {
        if t == 0 {
            r.lo
        } else {
            (r.lo >> t) | (r.hi << (64 - t))
        }
    } else {
        r.hi >> (t - 64)
    }
}

// A register moved down by one.
pub fn down(r: Register) -> Register
    ensures { value result ≡ value r / 2 }
{
    Register {
        hi: r.hi / 2,
        lo: window(r, 1),
    }
}

// A register moved up by n, where nothing drops out.
pub fn up(r: Register, n: u32) -> Register
    requires { (n < 64) × (value r * 2 ^ n < 2 ^ 128) }
    ensures { value result ≡ value r * 2 ^ n }
{
    Register {
        hi: window(r, 64 - n),
        lo: r.lo << n,
    }
}

// How a group moves a register: `width` bits are new, and `kept` bits stay.
#[derive(Clone, Copy)]
pub struct Split {
    pub kept: u32,
    pub width: u32,
    ghost whole: { (0 < width) × (width < 64) × (0 < kept) × (64 < width + kept) × (width + kept ≤ 128) },
}

// A register moved down by the width, with the bits of `new` after those that are kept.
pub fn push(r: Register, new: u64, by: Split) -> Register
    requires { (value r < 2 ^ (by.width + by.kept)) × (new < 2 ^ by.width) }
    ensures { value result ≡ new * 2 ^ by.kept + value r / 2 ^ by.width }
{
    let lo = window(r, by.width);
    if by.kept < 64 {
        Register {
            hi: new >> (64 - by.kept),
            lo: lo | (new << by.kept),
        }
    } else {
        Register {
            hi: (r.hi >> by.width) | (new << (by.kept - 64)),
            lo,
        }
    }
}

// A register moved up by the width, with the bits of `new` before those that are kept; its last bits drop out.
pub fn pull(r: Register, new: u64, by: Split) -> Register
    requires { new < 2 ^ by.width }
    ensures { value result ≡ value r % 2 ^ by.kept * 2 ^ by.width + new }
{
    let above = 128 - by.width - by.kept;
    Register {
        hi: (window(r, 64 - by.width) << above) >> above,
        lo: new | (r.lo << by.width),
    }
}

// The lowest bits of a word, as many as are new.
pub fn low_bits(word: u64, by: Split) -> u64
    ensures { result ≡ word % 2 ^ by.width }
{
    word % (1 << by.width)
}
