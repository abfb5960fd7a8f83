// Text on standard output.
use crate::calls::Calls;
use known_answers::{Fields, Hex, digest_bytes};
use sponge::State;
use std::io;

// The fields of a state, and a newline.
pub fn write_state(rt: &impl Print, state: State) -> io::Result<()> {
    println!(rt; "{}, bits {}", Fields(state), Hex(&state.bits))
}

// The digest that calls came to, and a newline.
pub fn write_digest(rt: &impl Print, calls: &Calls) -> io::Result<()> {
    let digest = &calls.space[..digest_bytes(calls.state.instance)];
    println!(rt; "digest {}", Hex(digest))
}

// Whether two lists of calls came to the same state and bytes, and a newline.
pub fn write_agreement(rt: &impl Print, a: &Calls, b: &Calls) -> io::Result<()> {
    let word = if a.same_outcome(b) {
        "agrees"
    } else {
        "differs"
    };
    println!(rt; "{word}")
}
