// States with any fields.
use known_answers::forged;
use sponge::State;

// Bytes with the bits of a state: 17, 22 or 32 of them by the instance, and zeros after those.
fn bytes_of(instance: u32) -> [u8; 32] {
    match instance {
        1 => *b"A U-QUARK state..\0\0\0\0\0\0\0\0\0\0\0\0\0\0\0",
        2 => *b"A state for D-QUARK...\0\0\0\0\0\0\0\0\0\0",
        _ => *b"A state of thirty-two bytes of S",
    }
}

// A state with these fields, and with bits of the instance `of`. The fields go in by themselves, as in `forged`.
pub fn with_bits(of: u32, instance: u32, phase: u32, total: u32, runs: u32, extra: u32) -> State {
    State {
        bits: bytes_of(of),
        ..forged(instance, phase, total, runs, extra)
    }
}
