// Calls on a state, with what is written of each.
use known_answers::{Fields, Hex, block_bytes, digest_bytes};
use refusals::number_of;
use sponge::{Reply, State};
use std::io;

// The name of every mark.
pub const NAME: [u8; 16] = *b"after a preamble";

// A marking after the first `count` marks: the new count, or the refusal's number. The count after it comes back, the old one where it is
// refused.
pub fn write_mark(
    rt: &impl Print,
    state: State,
    buffer: &mut [u8],
    count: usize,
) -> io::Result<usize> {
    print!(rt; "mark in {} bytes after {count}: ", buffer.len())?;
    match sponge::mark(state, NAME, buffer, count) {
        Ok(next) => {
            print!(rt; "count {next}")?;
            Ok(next)
        }
        Err(refusal) => {
            print!(rt; "refusal {}", refusal.line.number())?;
            Ok(count)
        }
    }
}

// A return to a mark among the first `count`: its number, and the state that comes back.
pub fn write_recall(
    rt: &impl Print,
    state: State,
    buffer: &[u8],
    count: usize,
) -> io::Result<State> {
    let Reply { answer, state } = sponge::recall(state, NAME, buffer, count);
    println!(rt;
        "recall among {count}: {}, {}, {}",
        number_of(answer),
        Hex(&state.bits),
        Fields(state)
    )?;
    Ok(state)
}

// A finish: its number and the digest. The closed state comes back. `write_blocks` makes another call, with another length: one function for
// both would take the call, the length and the word.
pub fn write_finish(rt: &impl Print, state: State) -> io::Result<State> {
    let mut space = [0u8; 32];
    let digest = &mut space[..digest_bytes(state.instance)];
    let reply = sponge::finish(state, 8, digest);
    println!(rt; "finish: {}, {}", number_of(reply.answer), Hex(digest))?;
    Ok(reply.state)
}

// Five more blocks of a closed state: the number and the blocks. The state after them comes back.
pub fn write_blocks(rt: &impl Print, state: State) -> io::Result<State> {
    let mut space = [0u8; 32];
    let blocks = &mut space[..5 * block_bytes(state.instance)];
    let reply = sponge::squeeze(state, 8, 5, blocks);
    println!(rt; "5 blocks: {}, {}", number_of(reply.answer), Hex(blocks))?;
    Ok(reply.state)
}
