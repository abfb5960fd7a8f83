// A preamble with three endings, and marks of its states (document 02, 2.5).
ghost use Rattle.std.specs.Prelude.{◌≤◌};

use crate::calls::{write_blocks, write_finish, write_mark, write_recall};
use known_answers::{Hex, whole_digest};
use sponge::State;
use std::io;

// Back to the preamble's mark, an ending, and the digest; below it that of the whole message, whose first 44 bits are the preamble. The
// closed state comes back.
fn write_ending(
    rt: &impl Print,
    state: State,
    buffer: &[u8],
    ending: &[u8],
    message: &[u8],
    bits: usize,
) -> io::Result<State>
    requires { 44 ≤ bits }
{
    let back = write_recall(rt, state, buffer, 1)?;
    let next = sponge::absorb(back, 8, ending, bits - 44).state;
    let closed = write_finish(rt, next)?;
    let whole = whole_digest(next.instance, message, bits);
    println!(rt; "whole digest: {whole}")?;
    Ok(closed)
}

// The preamble ends inside a byte, which the last two endings complete: they are "lit!" and "log" with a byte after it, without their first
// four bits.
fn write_endings(rt: &impl Print, open: State, buffer: &[u8]) -> io::Result<State> {
    let first = write_ending(rt, open, buffer, b"....", b"lamp l", 44)?;
    let second = write_ending(rt, first, buffer, b"\xC6\x97\x42\x10", b"lamp lit!", 72)?;
    write_ending(rt, second, buffer, b"\xC6\xF6\x7A\x50", b"lamp log\xA5", 72)
}

// The preamble is marked.
fn write_open(rt: &impl Print, open: State, buffer: &mut [u8]) -> io::Result<State> {
    write_mark(rt, open, buffer, 0)?;
    print!(rt; "\n")?;
    write_endings(rt, open, buffer)
}

// The bytes of both marks. Five blocks of a closed state, and the same five after a return; among one mark the preamble is found.
fn write_found(rt: &impl Print, five: State, buffer: &[u8]) -> io::Result<()> {
    println!(rt; "\n{}", Hex(buffer))?;
    let ten = write_blocks(rt, five)?;
    let back = write_recall(rt, ten, buffer, 2)?;
    let again = write_blocks(rt, back)?;
    write_recall(rt, again, buffer, 1)?;
    Ok(())
}

// A closed state is marked after five blocks, under the preamble's name.
fn write_closed(rt: &impl Print, closed: State, buffer: &mut [u8]) -> io::Result<()> {
    let five = write_blocks(rt, closed)?;
    write_mark(rt, five, buffer, 1)?;
    write_found(rt, five, buffer)
}

// The state after the preamble.
fn after_preamble(instance: u32) -> State {
    let fresh = sponge::init(instance).state;
    sponge::absorb(fresh, 8, b"lamp l", 44).state
}

// An instance, with a buffer for three marks, whose bytes are 165, and of which one stays as it is.
pub fn write_instance(rt: &impl Print, instance: u32) -> io::Result<()> {
    let mut buffer = [165u8; 192];
    println!(rt; "instance {instance}")?;
    let closed = write_open(rt, after_preamble(instance), &mut buffer)?;
    write_closed(rt, closed, &mut buffer)
}
