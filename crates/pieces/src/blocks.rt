// Blocks of a closed state (document 02, 2.1): one, and the most that a call gives, at once and in two calls.
use crate::calls::Calls;
use crate::limit::write_squeeze;
use crate::text::write_agreement;
use crate::widths::widest;
use known_answers::{block_bytes, whole_digest};
use std::io;

// Of the state that calls came to: one block; 1,024 blocks, with the digest of their bytes; whether one block and then 1,023 come to the
// same state and bytes; and 1,025, which are too many.
pub fn write_blocks(rt: &impl Print, closed: Calls) -> io::Result<()> {
    let instance = closed.state.instance;
    let size = block_bytes(instance);
    let end = 1024 * size;
    let one = write_squeeze(rt, closed, 1, 1, size)?;
    let all = write_squeeze(rt, closed, 8, 1024, end)?;
    let whole = whole_digest(instance, &all.space, 8 * end);
    println!(rt; "digest of these blocks: {whole}")?;
    print!(rt; "1 block and then 1023: ")?;
    let rest = one.squeeze(widest(instance), 1023, size, end);
    write_agreement(rt, &rest, &all)?;
    write_squeeze(rt, closed, 8, 1025, 1025 * size)?;
    Ok(())
}
