// Document 01's fresh state, and the state that comes back where the instance is refused. Besides `zeros`, only reading a mark makes a state
// field by field. The instance is the number that the state holds, and no enum that would be made a number again.
ghost use Rattle.std.specs.Prelude.{◌≡◌};
ghost use Rattle.quark.specs.Bytes.{bytes_of};
ghost use Rattle.quark.specs.Instance.{instance_of};
ghost use Rattle.sponge.specs.Soundness.{fresh, all_zeros};

use crate::State;
use words::instances::Instance;

// The initial bits of an instance in byte form (QUARK, Appendix A), with zeros up to 32 bytes.
// One `match` for its definition; the first states of `known_answers` are Appendix B's, after the padding.
fn initial(instance: u32) -> [u8; 32]
    ensures { result ≡ bytes_of 32 (instance_of instance).initial }
{
    match Instance::from(instance) {
        Instance::U =>
            *b"\xD8\xDA\xCA\x44\x41\x4A\x09\x97\x19\xC8\x0A\xA3\xAF\x06\x56\x44\xDB\0\0\0\0\0\0\0\0\0\0\0\0\0\0\0",
        Instance::D =>
            *b"\xCC\x6C\x4A\xB7\xD1\x1F\xA9\xBD\xF6\xEE\xDE\x03\xD8\x7B\x68\xF9\x1B\xAA\x70\x6C\x20\xE9\0\0\0\0\0\0\0\0\0\0",
        Instance::S =>
            *b"\x39\x72\x51\xCE\xE1\xDE\x8A\xA7\x3E\xA2\x62\x50\xC6\xD7\xBE\x12\x8C\xD3\xE7\x9D\xD7\x18\xC2\x4B\x8A\x19\xD0\x9C\x24\x92\xDA\x5D",
    }
}

// No bit taken, no run made, no extra block given out, and the initial bits.
pub fn fresh(instance: u32) -> State
    ensures { result ≡ fresh instance }
{
    State {
        instance,
        bits: initial(instance),
        ..zeros()
    }
}

// All zeros.
pub fn zeros() -> State
    ensures { result ≡ all_zeros }
{
    State {
        instance: 0,
        phase: 0,
        total: 0,
        runs: 0,
        extra: 0,
        bits: [0; 32],
    }
}
