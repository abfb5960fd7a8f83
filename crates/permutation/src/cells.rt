// What the stepping cores are given. The registers: 256 cells of a single bit each, of which the first half hold X and the next half Y, and
// L. The rest of the cells is not touched. A half is an instance's.
ghost use Rattle.permutation.specs.leaf.Cells.{Allowed, Cells};

use crate::register_l::RegisterL;

// X and Y in cells, and L.
#[derive(Drop)]
pub struct RegisterCells {
    pub bits: [u8; 256],
    pub l: RegisterL,
    ghost single: { Cells bits },
}

// `count` steps of an instance, from L's value l, in whole groups of one of its step widths. The instance stays a number, since `words::run`
// and `words::undo` take any.
#[derive(Clone, Copy)]
pub struct Steps {
    pub instance: u32,
    pub width: u32,
    pub l: u32,
    pub count: u32,
    ghost allowed: { Allowed instance width l count },
}
