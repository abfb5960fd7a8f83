// Reading an input into a lent buffer, for the programs that read a journal.
#![tactic(auto)]

ghost use Rattle.std.specs.Prelude.{◌<◌, ◌≤◌, length, take, IfOk, IfErr};
ghost use Rattle.std.specs.Io.KnownBytes.{Consumes, IsAtEnd};

use std::io::Read;

// A read failed, after some bytes had come.
#[derive(Debug, Clone, Copy, PartialEq, Eq)]
pub struct ReadFailed {
    pub after: usize,
}

// Reads until the buffer is full, the input ends or a read fails, and says how many bytes came.
// Where the reader's bytes are known, those that came are its first ones, and fewer than the buffer holds are all of them.
pub fn gather<R: Read>(input: &mut R, buffer: &mut [u8]) -> Result<usize, ReadFailed>
    ensures count { IfOk result (λ count. count ≤ length buffer.old) }
    ensures bytes { IfOk result (λ count. Consumes (R.remaining input.old) (R.remaining input.new) (take count buffer.new)) }
    ensures end { IfOk result (λ count. count < length buffer.old → IsAtEnd (R.remaining input.new)) }
    ensures after { IfErr result (λ failed. failed.after ≤ length buffer.old) }
    ensures lost { IfErr result (λ failed. Consumes (R.remaining input.old) (R.remaining input.new) (take failed.after buffer.new)) }
{
    let mut done: usize = 0;
    // how many reads it takes is not known, and no method of the library counts what came before a read that failed
    while done < buffer.len() {
        match input.read(&mut buffer[done..]) {
            Err(_) => return Err(ReadFailed { after: done }),
            Ok(0) => return Ok(done),
            Ok(count) => done += count,
        }
    }
    Ok(done)
}
