// Forged states: a piece, a finish and a squeeze on each, with the number that each gets.
ghost use Rattle.std.specs.Prelude.{◌<◌};

use crate::calls::Calls;
use crate::states::with_bits;
use crate::widths::widest;
use known_answers::{block_bytes, digest_bytes, forged};
use sponge::State;
use std::io;

// Whether a call left state and buffer as they were handed in.
fn kept(before: &Calls, after: &Calls) -> &'static str {
    if before.same_outcome(after) {
        "kept"
    } else {
        "changed"
    }
}

// One row of the table: a piece of some bits of nine bytes, a finish with a buffer of some bytes, and a squeeze of one block.
fn write_row(
    rt: &impl Print,
    name: &str,
    state: State,
    width: u32,
    count: usize,
    length: usize,
) -> io::Result<()> {
    let handed = Calls::on(state);
    let piece = handed.absorb(width, b"any bytes", count);
    print!(rt; "{name}: piece {} {}", piece.number, kept(&handed, &piece))?;
    let finish = handed.finish(width, length);
    print!(rt; ", finish {} {}", finish.number, kept(&handed, &finish))?;
    let squeeze = handed.squeeze(width, 1, 0, block_bytes(state.instance));
    println!(rt; ", squeeze {} {}", squeeze.number, kept(&handed, &squeeze))
}

// Rows of a name, an instance, and a phase, a total and runs of its state, at the instance's greatest width: one byte is taken, and the
// digest's bytes are lent to finish.
fn write_fields(rt: &impl Print, rows: &[(&str, u32, u32, u32, u32)]) -> io::Result<()> {
    for &(name, instance, phase, total, runs) in rows {
        let state = with_bits(instance, instance, phase, total, runs, 0);
        write_row(rt, name, state, widest(instance), 8, digest_bytes(instance))?;
    }
    Ok(())
}

// Sound states, absorbing and closed.
pub fn write_sound(rt: &impl Print) -> io::Result<()> {
    write_fields(
        rt,
        &[
            ("U, absorbing", 1, 0, 20, 2),
            ("D, absorbing", 2, 0, 100, 6),
            ("S, absorbing", 3, 0, 100, 3),
            ("U, closed", 1, 1, 20, 19),
            ("D, closed", 2, 1, 100, 17),
            ("S, closed", 3, 1, 100, 11),
        ],
    )
}

// Line 1: an instance that is none, with U's bits. The first state is what `init` hands back where it refuses.
pub fn write_instances(rt: &impl Print) -> io::Result<()> {
    write_row(rt, "all zeros", forged(0, 0, 0, 0, 0), 8, 8, 17)?;
    for (name, instance, phase, width) in [
        ("instance 0", 0, 0, 8),
        ("instance 4", 4, 0, 8),
        ("instance 257", 257, 0, 8),
        ("instance 257, phase 2, width 2", 257, 2, 2),
    ] {
        let state = with_bits(1, instance, phase, 20, 2, 0);
        write_row(rt, name, state, width, 8, 17)?;
    }
    Ok(())
}

// Line 2: phases that are neither 0 nor 1, and totals past the limit.
pub fn write_phases_and_totals(rt: &impl Print) -> io::Result<()> {
    write_fields(
        rt,
        &[
            ("U, phase 2", 1, 2, 20, 2),
            ("U, phase 2, runs of a closed state", 1, 2, 20, 19),
            ("U, phase 256", 1, 256, 20, 2),
            ("U, total 16777216", 1, 0, 16777216, 2097152),
            ("U, closed, total 16777216", 1, 1, 16777216, 2097169),
            ("U, total 4294967295", 1, 0, 4294967295, 536870911),
        ],
    )
}

// Line 2: runs that are not those of the total.
pub fn write_runs(rt: &impl Print) -> io::Result<()> {
    write_fields(
        rt,
        &[
            ("U, a run too few", 1, 0, 20, 1),
            ("U, a run too many", 1, 0, 20, 3),
            ("U, runs of a closed state", 1, 0, 20, 19),
            ("U, closed, a run too few", 1, 1, 20, 18),
            ("U, closed, a run too many", 1, 1, 20, 20),
            ("U, closed, runs of an absorbing state", 1, 1, 20, 2),
            ("D, runs of U", 2, 0, 100, 12),
            ("S, runs of D", 3, 0, 100, 6),
        ],
    )
}

// Line 2: a byte after the state's own that is not zero, where all others are.
pub fn write_bytes_after(rt: &impl Print) -> io::Result<()> {
    for (name, instance, at) in [
        ("U, byte 16 not zero", 1, 16),
        ("U, byte 17 not zero", 1, 17),
        ("U, byte 31 not zero", 1, 31),
        ("D, byte 21 not zero", 2, 21),
        ("D, byte 22 not zero", 2, 22),
        ("S, byte 31 not zero", 3, 31),
    ] {
        let state = State {
            bits: std::array::from_fn(|i| if i == at { 128 } else { 0 }),
            ..forged(instance, 0, 0, 0, 0)
        };
        write_row(rt, name, state, 8, 8, digest_bytes(instance))?;
    }
    Ok(())
}

// Lines 3 to 6, and which of several comes first: a sound state of U, absorbing or closed, and other arguments.
pub fn write_arguments(rt: &impl Print) -> io::Result<()> {
    for (name, phase, width, count, length) in [
        ("U, closed, width 2, 73 bits, 16 bytes", 1, 2, 73, 16),
        ("U, width 2", 0, 2, 8, 17),
        ("U, width 16, 73 bits, 16 bytes", 0, 16, 73, 16),
        ("U, 73 bits, 16 bytes", 0, 8, 73, 16),
        (
            "U, 18446744073709551615 bits, 18 bytes",
            0,
            8,
            18446744073709551615,
            18,
        ),
        ("U, no bits, no bytes", 0, 8, 0, 0),
    ] {
        let state = with_bits(1, 1, phase, 0, 17 * (phase % 2), 0);
        write_row(rt, name, state, width, count, length)?;
    }
    Ok(())
}

// Line 7, around the greatest total, and lines that come before it: a sound state of U with 7 bits to the limit.
pub fn write_totals(rt: &impl Print) -> io::Result<()> {
    for (name, width, count) in [
        ("U, 7 bits to the limit", 8, 7),
        ("U, one bit past the limit", 8, 8),
        ("U, past the limit, 73 bits", 8, 73),
        ("U, past the limit, width 2", 2, 8),
        ("U, no bits near the limit", 1, 0),
    ] {
        let state = with_bits(1, 1, 0, 16777208, 2097151, 0);
        write_row(rt, name, state, width, count, 17)?;
    }
    Ok(())
}

// Line 2: extra blocks of an absorbing state of U, without their runs, and past the limit; the last state's runs are those of its blocks
// when the sum is cut to 32 bits. Line 15 at the limit.
pub fn write_extras(rt: &impl Print) -> io::Result<()> {
    for (name, phase, runs, extra) in [
        ("U, extra 1", 0, 2, 1),
        ("U, extra 1 with its run", 0, 3, 1),
        ("U, closed, extra 1", 1, 19, 1),
        ("U, closed, extra 1 with its run", 1, 20, 1),
        (
            "U, closed, extra 1048576 with its runs",
            1,
            1048595,
            1048576,
        ),
        (
            "U, closed, extra 1048577 with its runs",
            1,
            1048596,
            1048577,
        ),
        ("U, closed, extra 4294967295", 1, 19, 4294967295),
        ("U, closed, extra 4294967295, runs 18", 1, 18, 4294967295),
    ] {
        let state = with_bits(1, 1, phase, 20, runs, extra);
        write_row(rt, name, state, 8, 8, 17)?;
    }
    Ok(())
}
