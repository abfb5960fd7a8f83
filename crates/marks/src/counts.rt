// Lengths of the buffer, counts, and forged states: a marking, and a return after it.
ghost use Rattle.std.specs.Prelude.{IsTrue, nat_le};
ghost use Rattle.std.specs.List.{list_all};

use crate::calls::{write_mark, write_recall};
use known_answers::forged;
use sponge::State;
use std::io;

// A marking in a buffer of bytes 165, the index of the first byte that it changed, or the length where it changed none, and a return.
fn write_calls(rt: &impl Print, state: State, buffer: &mut [u8], count: usize) -> io::Result<()> {
    let next = write_mark(rt, state, buffer, count)?;
    let changed = buffer.iter().position(|byte| *byte != 165);
    println!(rt; ", changed from {}", changed.unwrap_or(buffer.len()))?;
    write_recall(rt, state, buffer, next)?;
    Ok(())
}

// Rows of a state, a buffer's length and a count: the calls on each.
fn write_rows(rt: &impl Print, rows: &[(State, usize, usize)]) -> io::Result<()>
    requires { IsTrue (list_all (λ row. nat_le row.1 64064) rows.now) }
{
    for &(state, length, count) in rows {
        let mut space = [165u8; 64064];
        write_calls(rt, state, &mut space[..length], count)?;
    }
    Ok(())
}

// Line 17, and lines 18 and 19 where it does not hold: buffers of a length and counts, with a closed state of U that gave out one extra
// block. 64 times the last two counts wraps in 64 bits, to the bytes of 0 and of 999 marks.
pub fn write_lengths(rt: &impl Print) -> io::Result<()> {
    let sound = forged(1, 1, 20, 20, 1);
    let rows = [
        (sound, 0, 0),
        (sound, 0, 1),
        (sound, 63, 0),
        (sound, 64, 0),
        (sound, 64, 1),
        (sound, 64, 2),
        (sound, 65, 0),
        (sound, 96, 1),
        (sound, 128, 1),
        (sound, 64000, 0),
        (sound, 64000, 999),
        (sound, 64000, 1000),
        (sound, 64000, 1001),
        (sound, 64064, 0),
        (sound, 64064, 1000),
        (sound, 64064, 1001),
        (sound, 64000, 18446744073709551615),
        (sound, 64064, 18446744073709551615),
        (sound, 64000, 288230376151711744),
        (sound, 64000, 288230376151712743),
    ];
    write_rows(rt, &rows)
}

// Lines 1 and 2, and lines that come after them. The last state is sound.
pub fn write_states(rt: &impl Print) -> io::Result<()> {
    let rows = [
        (forged(0, 0, 20, 2, 0), 64, 0),
        (forged(4, 0, 20, 2, 0), 64, 1),
        (forged(257, 2, 20, 2, 0), 63, 0),
        (forged(1, 2, 20, 2, 0), 64, 0),
        (forged(1, 256, 20, 2, 0), 64, 1),
        (forged(1, 2, 20, 2, 0), 63, 0),
        (forged(1, 0, 16777216, 2097152, 0), 64, 2),
        (forged(2, 0, 100, 7, 0), 64064, 0),
        (forged(3, 0, 100, 4, 1), 0, 0),
        (forged(1, 1, 20, 1048596, 1048577), 64, 0),
        (forged(1, 1, 20, 1048595, 1048576), 64, 0),
    ];
    write_rows(rt, &rows)
}
