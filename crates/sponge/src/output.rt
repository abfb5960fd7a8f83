// Giving out blocks, closing a state (document 01, "Pieces and finish"), and more blocks from a closed one (document 02, 2.1).
ghost use Rattle.std.specs.Prelude.{◌≡◌, ◌+◌, ◌*◌, ◌≤◌, length};
ghost use Rattle.std.proofs.Math.Seq.{paste};
ghost use Rattle.quark.specs.Bytes.{bytes_of};
ghost use Rattle.quark.specs.Instance.{instance_of, state_bytes};
ghost use Rattle.sponge.specs.Taking.{finish_output, finished, squeeze_output, extra_squeezed};
ghost use Rattle.sponge.specs.Soundness.{extra_limit, closed_phase, content_of, state_with};
ghost use Rattle.sponge.specs.leaf.Steps.{block_bytes, last_block, after_blocks, blocks};

use crate::pieces::Running;
use crate::sound::CLOSED;
use crate::{State, rate};

// The digest writer: writes a part of a digest, or of a mark, into the buffer from `at` on.
pub fn put(buffer: &mut [u8], at: usize, part: &[u8])
    requires { at + length part.now ≤ length buffer.old }
    ensures { buffer.new ≡ paste buffer.old at part.now (length part.now) }
{
    buffer[at..at + part.len()].copy_from_slice(part);
}

impl Running {
    // Hands one block to the digest writer: r/8 of the state's bytes, the part from (b - r)/8 on.
    fn give(&self, buffer: &mut [u8], at: usize)
        requires { at + block_bytes self.now.state ≤ length buffer.old }
        ensures { buffer.new ≡ paste buffer.old at (last_block self.now.state) (block_bytes self.now.state) }
    {
        let from = rate::last_block(self.state.instance);
        let end = from + rate::block_bytes(self.state.instance);
        put(buffer, at, &self.state.bits[from..end]);
    }

    // Gives out `count` blocks, with a run of P before each. Answers the state after the last run.
    fn give_blocks(mut self, count: usize, buffer: &mut [u8]) -> Running
        requires { (length buffer.old ≡ count * block_bytes self.state) × (self.state.runs + count ≤ 4294967295) }
        ensures left { result.state ≡ after_blocks self.state count }
        ensures bytes { buffer.new ≡ blocks self.state count }
    {
        let step = rate::block_bytes(self.state.instance);
        // No `chunks_exact_mut`: after it a proof does not know what the buffer holds.
        for block in 0..count {
            self.run_p();
            self.give(buffer, block * step);
        }
        self
    }

    // Adds the 1 of the padding where the next bit goes, closes the state and gives out the digest, at most 17 blocks: the first block's P is
    // the padding's.
    pub fn close(mut self, buffer: &mut [u8]) -> State
        requires { (length buffer.old ≡ state_bytes self.state.instance) × (self.state.runs + 17 ≤ 4294967295) }
        ensures left { result ≡ state_with self.state.instance closed_phase (finished (instance_of self.state.instance) (content_of self.state)) }
        ensures bytes { buffer.new ≡ bytes_of (state_bytes self.state.instance) (finish_output (instance_of self.state.instance) (content_of self.state)) }
    {
        self.add_bit(1);
        self.state.phase = CLOSED;
        let count = rate::outputs(self.state.instance);
        self.give_blocks(count, buffer).state
    }

    // Gives out k extra blocks, and counts them.
    pub fn give_extra(self, k: usize, buffer: &mut [u8]) -> State
        requires { (length buffer.old ≡ k * block_bytes self.state) × (self.state.runs + k ≤ 4294967295) × (self.state.extra + k ≤ extra_limit) }
        ensures left { result ≡ state_with self.state.instance self.state.phase (extra_squeezed (instance_of self.state.instance) k (content_of self.state)) }
        ensures bytes { buffer.new ≡ bytes_of (k * block_bytes self.state) (squeeze_output (instance_of self.state.instance) k (content_of self.state)) }
    {
        let mut last = self.give_blocks(k, buffer).state;
        // k is at most the limit, as is required: a `try_from` could not fail, and would need an `unwrap`.
        last.extra += k as u32;
        last
    }
}
