// A state on which P runs, and taking the bits of a piece, one by one (document 01, "Pieces and finish").
ghost use Rattle.std.specs.Prelude.{true, ◌≡◌, ◌+◌, ◌*◌, ◌/◌, ◌<◌, ◌≤◌, length};
ghost use Rattle.quark.specs.Bytes.{bit_at, bits_of};
ghost use Rattle.quark.specs.Instance.{is_instance, is_width};
ghost use Rattle.sponge.specs.Soundness.{rest_zero};
ghost use Rattle.sponge.specs.leaf.Steps.{with_bit, after_P, after_bit, after_bits};

use crate::{State, rate};
use permutation::lines::state_bytes;

// Bit i of some bytes.
// `permutation::bytes::load` has this line in its loop.
fn bit_at(bytes: &[u8], i: usize) -> u8
    requires { i / 8 < length bytes.now }
    ensures { result ≡ bit_at bytes.now i }
{
    (bytes[i / 8] >> (7 - i % 8)) % 2
}

// A state of an instance, with zeros after its bits, and one of the instance's step widths: P can run on it.
#[derive(Drop)]
pub struct Running {
    pub state: State,
    pub width: u32,
    ghost has_instance: { is_instance state.instance ≡ true },
    ghost has_width: { is_width state.instance width ≡ true },
    ghost zero_past: { rest_zero state ≡ true },
}

impl Running {
    // A bit is added to the state where the next bit goes.
    pub fn add_bit(&mut self, bit: u8)
        requires { bit < 2 }
        ensures { self.new.state ≡ with_bit self.old.state bit }
    {
        let at = rate::bit_index(self.state.instance, self.state.total);
        self.state.bits[at >> 3] ^= bit << (7 - (at & 7));
    }

    // P runs on the first b/8 of the 32 bytes, and its run is counted.
    pub fn run_p(&mut self)
        requires { self.old.state.runs < 4294967295 }
        ensures { self.new.state ≡ after_P self.old.state }
    {
        let size = state_bytes(self.state.instance);
        // P is lent a copy: the check does not cover the loan of a field of a struct with ghost fields.
        let mut bits = self.state.bits;
        let _ = permutation::permute(self.state.instance, self.width, &mut bits[..size]);
        self.state.bits = bits;
        self.state.runs += 1;
    }

    // Takes one bit: adds it at its index and counts it. Where it is the last of its block, P runs.
    fn take_bit(&mut self, bit: u8)
        requires { (bit < 2) × (self.old.state.total < 4294967295) × (self.old.state.runs < 4294967295) }
        ensures { self.new.state ≡ after_bit self.old.state bit }
    {
        self.add_bit(bit);
        self.state.total += 1;
        // P runs where the next bit's index is the first of a block again.
        let next = rate::bit_index(self.state.instance, self.state.total);
        if next == rate::bit_index(self.state.instance, 0) {
            self.run_p();
        }
    }

    // Takes the first `count` bits of some bytes.
    pub fn take_bits(mut self, bytes: &[u8], count: usize) -> Running
        requires { (count ≤ 8 * length bytes.now) × (self.state.total + count ≤ 4294967295) × (self.state.runs + count ≤ 4294967295) }
        ensures { result.state ≡ after_bits self.state (bits_of count bytes.now) }
    {
        for i in 0..count {
            self.take_bit(bit_at(bytes, i));
        }
        self
    }
}
