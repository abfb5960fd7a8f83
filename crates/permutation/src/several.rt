// Several steps together (document 01, "Steps, permutation and inverse"): X and Y are taken from the cells as words, stepped by the crate
// `words`, and put back. A half is 68, 88 or 128 bits, so that lo is always full.
ghost use Rattle.std.specs.Prelude.{◌≡◌, ◌^◌, ◌<◌, ◌≤◌, length, ◌≢◌};
ghost use Rattle.quark.specs.Instance.{instance_of};
ghost use Rattle.quark.specs.Word.{word_bits};
ghost use Rattle.words.specs.Words.{value};
ghost use Rattle.permutation.specs.leaf.Cells.{Cells};
ghost use Rattle.permutation.specs.leaf.Core.{CellsReached};

use crate::cells::{RegisterCells, Steps};
use crate::direction::Direction;
use crate::register_l::RegisterL;
use crate::taps::Taps;
use words::instances::Instance;
use words::{Register, RegisterWords};

// Cells as a number, lowest bit first.
// No method of the library has bits as cells; `bytes::byte_at` has the first bit highest.
fn read_word(cells: &[u8]) -> u64
    requires { (length cells.now ≤ 64) × Cells cells.now }
    ensures { (result < 2 ^ length cells.now) × (word_bits (length cells.now) result ≡ cells.now) }
{
    cells
        .iter()
        .rev()
        .fold(0, |word, cell| word << 1 | u64::from(*cell))
}

// Writes the lowest bits of a number into cells, lowest first.
fn write_word(word: u64, cells: &mut [u8])
    requires { length cells.old ≤ 64 }
    ensures { cells.new ≡ word_bits (length cells.old) word }
{
    for (i, cell) in cells.iter_mut().enumerate() {
        *cell = ((word >> i) % 2) as u8;
    }
}

// The register in the cells.
fn load(cells: &[u8]) -> Register
    requires { (64 ≤ length cells.now) × (length cells.now ≤ 128) × Cells cells.now }
    ensures { (value result < 2 ^ length cells.now) × (word_bits (length cells.now) (value result) ≡ cells.now) }
{
    let (lo, hi) = cells.split_at(64);
    Register {
        hi: read_word(hi),
        lo: read_word(lo),
    }
}

// Writes the bits of a register into the cells.
fn save(r: Register, cells: &mut [u8])
    requires { (64 ≤ length cells.old) × (length cells.old ≤ 128) }
    ensures { cells.new ≡ word_bits (length cells.old) (value r) }
{
    let (lo, hi) = cells.split_at_mut(64);
    write_word(r.lo, lo);
    write_word(r.hi, hi);
}

// The steps on the registers in a direction, steps.width at a time. L begins at its value before the first of them.
pub fn run<D: Direction>(state: &mut RegisterCells, steps: Steps)
    requires { steps.width ≢ 1 }
    ensures { CellsReached D.inverse (instance_of steps.instance) steps.count state.old state.new }
{
    let half = Taps::of(Instance::from(steps.instance)).half;
    let (x, y) = state.bits[..2 * half].split_at(half);
    let words = RegisterWords {
        x: load(x),
        y: load(y),
        l: u64::from(state.l.value),
    };
    let after = D::together(steps, words);
    let bits = &mut state.bits;
    save(after.x, &mut bits[..half]);
    save(after.y, &mut bits[half..2 * half]);
    // L is below 1024: a `try_from` could not fail, and would need an `unwrap`
    state.l = RegisterL {
        value: after.l as u32,
    };
}
