// The greatest total of bits, 16,777,215, and the greatest number of extra blocks, 1,048,576, each from a forged sound state that lacks a
// little of it.
ghost use Rattle.std.specs.Prelude.{◌≤◌};

use crate::calls::Calls;
use crate::states::with_bits;
use crate::text::{write_digest, write_state};
use known_answers::{block_bytes, digest_bytes};
use std::io;

// Writes the answer of the last call, and the state that it handed back, or that nothing changed.
fn write_answer(rt: &impl Print, before: &Calls, after: &Calls) -> io::Result<()> {
    print!(rt; "{}, ", after.number)?;
    if before.same_outcome(after) {
        println!(rt; "kept")
    } else {
        write_state(rt, after.state)
    }
}

// A piece of the first bits of nine bytes, and what is written of it.
fn absorb(rt: &impl Print, calls: Calls, count: usize) -> io::Result<Calls> {
    let after = calls.absorb(8, b"the limit", count);
    print!(rt; "piece of {count} bits: ")?;
    write_answer(rt, &calls, &after)?;
    Ok(after)
}

// Finish, and what is written of it.
fn finish(rt: &impl Print, calls: Calls, length: usize) -> io::Result<()> {
    let after = calls.finish(8, length);
    print!(rt; "finish: ")?;
    write_answer(rt, &calls, &after)?;
    write_digest(rt, &after)
}

// A squeeze into the first `length` bytes of the space, and what is written of it.
pub fn write_squeeze(
    rt: &impl Print,
    calls: Calls,
    width: u32,
    count: usize,
    length: usize,
) -> io::Result<Calls> {
    let after = calls.squeeze(width, count, 0, length);
    print!(rt; "squeeze of {count} blocks into {length} bytes at width {width}: ")?;
    write_answer(rt, &calls, &after)?;
    Ok(after)
}

// The state of an instance with its runs: 61 bits are one too many, 60 are taken, then one more is too many, none is taken, and the state
// finishes.
fn write_limit(rt: &impl Print, name: &str, instance: u32, runs: u32) -> io::Result<()> {
    let state = with_bits(instance, instance, 0, 16777155, runs, 0);
    println!(rt; "{name}, 60 bits to the limit")?;
    write_state(rt, state)?;
    let refused = absorb(rt, Calls::on(state), 61)?;
    let full = absorb(rt, refused, 60)?;
    let over = absorb(rt, full, 1)?;
    let none = absorb(rt, over, 0)?;
    finish(rt, none, digest_bytes(instance))
}

// Each instance at the limit of its bits. Three calls: a loop over three rows is no shorter.
pub fn write_limits(rt: &impl Print) -> io::Result<()> {
    write_limit(rt, "U-QUARK", 1, 2097144)?;
    write_limit(rt, "D-QUARK", 2, 1048572)?;
    write_limit(rt, "S-QUARK", 3, 524286)
}

// Squeezes that lines 4, 5 and 14 refuse. The last three counts come to one block where they, or their bytes, are cut to 32 or 64 bits.
fn write_refused(rt: &impl Print, calls: Calls, size: usize) -> io::Result<()>
    requires { (1 ≤ size) × (size ≤ 4) }
{
    for (width, count, length) in [
        (2, 0, 1),
        (8, 0, 1),
        (8, 0, 0),
        (8, 1024, 1024 * size - 1),
        (8, 1024, 1024 * size + 1),
        (8, 1025, 1025 * size),
        (8, 4294967297, size),
        (8, 4611686018427387905, size),
        (8, 9223372036854775809, size),
    ] {
        write_squeeze(rt, calls, width, count, length)?;
    }
    Ok(())
}

// The closed state of an instance with its runs, the greatest total and one block to the limit: two blocks are one too many, one is taken,
// and then one more is too many. The lines before line 15 come first at the limit too.
fn write_extra_limit(rt: &impl Print, name: &str, instance: u32, runs: u32) -> io::Result<()> {
    let size = block_bytes(instance);
    let state = with_bits(instance, instance, 1, 16777215, runs, 1048575);
    let short = Calls::on(state);
    println!(rt; "{name}, 1 block to the limit")?;
    write_state(rt, state)?;
    write_squeeze(rt, short, 8, 2, 2 * size)?;
    let full = write_squeeze(rt, short, 8, 1, size)?;
    write_squeeze(rt, full, 8, 1, size)?;
    write_refused(rt, full, size)
}

// Each instance at the limit of its extra blocks. Three calls: a loop over three rows is no shorter.
pub fn write_extra_limits(rt: &impl Print) -> io::Result<()> {
    write_extra_limit(rt, "U-QUARK", 1, 3145743)?;
    write_extra_limit(rt, "D-QUARK", 2, 2097161)?;
    write_extra_limit(rt, "S-QUARK", 3, 1572870)
}
