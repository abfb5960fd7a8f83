// The lines (docs/RULES.md) that read a state, a count, a total, a number of blocks or a mark, and the order of the lines in each operation.
// Lines 1 and 4 are the permutation's. Instances and widths are numbers, and any: all lines of a call are worked out before one refuses it.
// Each chain has all its rows, also those that others begin with, as its definition has.
ghost use Rattle.std.specs.Prelude.{[], ◌∷◌, ◌≡◌, ◌+◌, ltb};
ghost use Rattle.refusals.specs.Lines.{refused_by, first_line, line5};
ghost use Rattle.permutation.specs.Lines.{line1};
ghost use Rattle.sponge.specs.Marks.{state_in};
ghost use Rattle.sponge.specs.Outcomes.{line2, line2_mark, line6, line8, line14, line17, blocks_bytes, absorb_number, finish_number, squeeze_number, mark_number, digest_number};

use crate::sound::{EXTRA_LIMIT, LIMIT, MOST_BLOCKS};
use crate::{State, marks, rate};
use permutation::lines::{is_instance, is_width, state_bytes};
use refusals::lines::{Line, first};

// Line 6. 8 times the bytes is worked out only where it does not pass the count, so it cannot wrap.
fn count_over(bytes: usize, count: usize) -> bool
    ensures { result ≡ line6 bytes count }
{
    count / 8 >= bytes && 8 * bytes < count
}

// Lines 7 and 15: whether a number and what is added to it are over a limit. What is added is tested by itself first, so the sum cannot wrap.
fn sum_over(number: u32, more: usize, limit: u32) -> bool
    ensures { result ≡ ltb limit (number + more) }
{
    // No `usize::from`: there is none of a u32, and `as` loses nothing.
    let most = limit as usize;
    more > most || number as usize + more > most
}

// Line 8, from the padded length total + 1 + (r - 1 - total mod r) modulo r. The total goes in by its remainder, so the sum cannot wrap.
fn padding_off(instance: u32, total: usize) -> bool
    ensures { result ≡ line8 instance total }
{
    let r = rate::rate(instance);
    let begun = total % r;
    (begun + 1 + (r - 1 - begun)) % r != 0
}

// Line 5 of a squeeze, whose buffer is k blocks of r/8 bytes. The length is divided, since the product could wrap.
fn blocks_off(instance: u32, k: usize, buffer: usize) -> bool
    ensures { result ≡ line5 buffer (blocks_bytes instance k) }
{
    let size = rate::block_bytes(instance);
    (buffer % size != 0) | (buffer / size != k)
}

// Line 14.
fn out_of_range(k: usize) -> bool
    ensures { result ≡ line14 k }
{
    (k < 1) | (k > MOST_BLOCKS)
}

// Line 17. The length is divided, since 64 times the count could wrap.
fn marks_off(bytes: usize, count: usize) -> bool
    ensures { result ≡ line17 bytes count }
{
    (bytes > marks::MOST_BYTES) | (bytes % marks::SIZE != 0) | (count > bytes / marks::SIZE)
}

// Refuses a piece by the first of lines 1, 2, 3, 4, 6 and 7 that holds.
pub fn absorb_line(state: State, width: u32, bytes: usize, count: usize) -> Result<(), Line>
    ensures { refused_by result ≡ absorb_number state width bytes count }
{
    first(&[
        (!is_instance(state.instance), Line::UnknownInstance),
        (!state.is_sound(), Line::UnsoundState),
        (state.is_closed(), Line::WrongPhase),
        (!is_width(state.instance, width), Line::UnknownWidth),
        (count_over(bytes, count), Line::CountOverBytes),
        (sum_over(state.total, count, LIMIT), Line::TotalOverLimit),
    ])
}

// Refuses a finish by the first of lines 1, 2, 3, 4, 5 and 8 that holds.
pub fn finish_line(state: State, width: u32, buffer: usize) -> Result<(), Line>
    ensures { refused_by result ≡ finish_number state width buffer }
{
    first(&[
        (!is_instance(state.instance), Line::UnknownInstance),
        (!state.is_sound(), Line::UnsoundState),
        (state.is_closed(), Line::WrongPhase),
        (!is_width(state.instance, width), Line::UnknownWidth),
        (buffer != state_bytes(state.instance), Line::WrongLength),
        (
            // as in `sum_over`
            padding_off(state.instance, state.total as usize),
            Line::PaddedLength,
        ),
    ])
}

// Refuses a squeeze by the first of lines 1, 2, 3, 4, 5, 14 and 15 that holds.
pub fn squeeze_line(state: State, width: u32, k: usize, buffer: usize) -> Result<(), Line>
    ensures { refused_by result ≡ squeeze_number state width k buffer }
{
    first(&[
        (!is_instance(state.instance), Line::UnknownInstance),
        (!state.is_sound(), Line::UnsoundState),
        (state.is_absorbing(), Line::WrongPhase),
        (!is_width(state.instance, width), Line::UnknownWidth),
        (blocks_off(state.instance, k, buffer), Line::WrongLength),
        (out_of_range(k), Line::BlocksOutOfRange),
        (sum_over(state.extra, k, EXTRA_LIMIT), Line::ExtraOverLimit),
    ])
}

// Refuses a marking by the first of lines 1, 2, 17 and 19 that holds.
pub fn mark_line(state: State, bytes: usize, count: usize) -> Result<(), Line>
    ensures { refused_by result ≡ mark_number state bytes count }
{
    first(&[
        (!is_instance(state.instance), Line::UnknownInstance),
        (!state.is_sound(), Line::UnsoundState),
        (marks_off(bytes, count), Line::WrongMarkBuffer),
        (bytes / marks::SIZE <= count, Line::NoFreeMark),
    ])
}

// Refuses a return by the first of lines 1, 2 and 17 that holds, before the buffer is read.
pub fn recall_line(state: State, bytes: usize, count: usize) -> Result<(), Line>
    ensures { refused_by result ≡ first_line ((line1 state.instance, 1) ∷ (line2 state, 2) ∷ (line17 bytes count, 17) ∷ []) }
{
    first(&[
        (!is_instance(state.instance), Line::UnknownInstance),
        (!state.is_sound(), Line::UnsoundState),
        (marks_off(bytes, count), Line::WrongMarkBuffer),
    ])
}

// Refuses a return to a mark by the first of lines 1 and 2 that holds for it.
pub fn found_line(mark: &[u8; marks::SIZE]) -> Result<(), Line>
    ensures { refused_by result ≡ first_line ((line1 (state_in mark.now).instance, 1) ∷ (line2_mark mark.now, 2) ∷ []) }
{
    let state = marks::state_in(mark);
    let sound = marks::ends_in_zeros(mark) & state.is_sound();
    first(&[
        (!is_instance(state.instance), Line::UnknownInstance),
        (!sound, Line::UnsoundState),
    ])
}

// Refuses a whole digest by the first of lines 1, 4, 5, 6, 7 and 8 that holds.
pub fn digest_line(
    instance: u32,
    width: u32,
    bytes: usize,
    count: usize,
    buffer: usize,
) -> Result<(), Line>
    ensures { refused_by result ≡ digest_number instance width bytes count buffer }
{
    first(&[
        (!is_instance(instance), Line::UnknownInstance),
        (!is_width(instance, width), Line::UnknownWidth),
        (buffer != state_bytes(instance), Line::WrongLength),
        (count_over(bytes, count), Line::CountOverBytes),
        (sum_over(0, count, LIMIT), Line::TotalOverLimit),
        (padding_off(instance, count), Line::PaddedLength),
    ])
}
