// What the programs that print known answers share: the first states of the paper's Appendix B, forged states, sizes of the instances, and
// text. An instance is the number that the operations take: two of the programs pass wrong ones.
#![tactic(auto)]

ghost use Rattle.std.specs.Prelude.{◌≡◌, ◌/◌, ◌≤◌, replicate, Some};
ghost use Rattle.known_answers.specs.Digest.{digest_text, whole_digest};
ghost use Rattle.known_answers.specs.Fields.{fields_text};
ghost use Rattle.known_answers.specs.Hex.{hex};
ghost use Rattle.known_answers.specs.Refused.{refused_text};
ghost use Rattle.quark.specs.Instance.{instance_of, state_bytes};
ghost use Rattle.refusals.specs.Outcome.{outcome_of};

use refusals::{Refusal, number_of};
use sponge::State;
use std::fmt;
use words::instances::Instance;

// The first state that Appendix B lists of each instance.
pub const FIRST_OF_U: [u8; 17] =
    *b"\xD8\xDA\xCA\x44\x41\x4A\x09\x97\x19\xC8\x0A\xA3\xAF\x06\x56\x44\x5B";

pub const FIRST_OF_D: [u8; 22] =
    *b"\xCC\x6C\x4A\xB7\xD1\x1F\xA9\xBD\xF6\xEE\xDE\x03\xD8\x7B\x68\xF9\x1B\xAA\x70\x6C\xA0\xE9";

pub const FIRST_OF_S: [u8; 32] =
    *b"\x39\x72\x51\xCE\xE1\xDE\x8A\xA7\x3E\xA2\x62\x50\xC6\xD7\xBE\x12\x8C\xD3\xE7\x9D\xD7\x18\xC2\x4B\x8A\x19\xD0\x9C\xA4\x92\xDA\x5D";

// Bytes in hexadecimal, in upper case.
#[derive(Clone, Copy)]
pub struct Hex<'a>(pub &'a [u8]);

impl fmt::Display for Hex<'_> {
    ghost output = { λ bytes. Some (hex bytes.0.now) };

    fn fmt<W: fmt::Write>(&self, f: &mut fmt::Formatter<W>) -> fmt::Result {
        for &byte in self.0 {
            write!(f, "{byte:02X}")?;
        }
        Ok(())
    }
}

// An answer's refusal as a line with its number, which the expected text never has; no text where the call was accepted.
#[derive(Clone, Copy)]
pub struct Refused<T>(pub Result<T, Refusal>);

impl<T: Copy> fmt::Display for Refused<T> {
    ghost output = { λ answer. Some (refused_text (outcome_of answer.0)) };

    #[tactic(auto, unfolding(crate::specs::Refused::refused_text, refusals::specs::Outcome::outcome_of))]
    fn fmt<W: fmt::Write>(&self, f: &mut fmt::Formatter<W>) -> fmt::Result {
        match self.0 {
            Ok(_) => Ok(()),
            Err(refusal) => writeln!(f, "refused {}", refusal.line.number()),
        }
    }
}

// The fields of a state but its bits.
#[derive(Clone, Copy)]
pub struct Fields(pub State);

impl fmt::Display for Fields {
    ghost output = { λ fields. Some (fields_text fields.0) };

    fn fmt<W: fmt::Write>(&self, f: &mut fmt::Formatter<W>) -> fmt::Result {
        let State {
            instance,
            phase,
            total,
            runs,
            extra,
            ..
        } = self.0;
        write!(
            f,
            "instance {instance}, phase {phase}, total {total}, runs {runs}, extra {extra}"
        )
    }
}

// A state with these fields, whose bits are zeros. The fields go in by themselves, in `State`'s order, so that a row of a table is a line.
pub fn forged(instance: u32, phase: u32, total: u32, runs: u32, extra: u32) -> State
    ensures { result ≡ record { instance = instance; phase = phase; total = total; runs = runs; extra = extra; bits = replicate 32 0 } }
{
    State {
        instance,
        phase,
        total,
        runs,
        extra,
        bits: [0; 32],
    }
}

// The bytes of a block: r/8. The `block_bytes` of `sponge` is private to it, and says no bounds.
#[tactic(auto, unfolding(words::specs::Instances::named, quark::specs::Instance::U, quark::specs::Instance::D, quark::specs::Instance::S))]
pub fn block_bytes(instance: u32) -> usize
    ensures value { result ≡ (instance_of instance).r / 8 }
    ensures bounds { (1 ≤ result) × (result ≤ 4) }
{
    match Instance::from(instance) {
        Instance::U => 1,
        Instance::D => 2,
        Instance::S => 4,
    }
}

// The bytes of a digest, as many as a state's, with the bound that a buffer of 32 bytes needs.
pub fn digest_bytes(instance: u32) -> usize
    ensures value { result ≡ state_bytes instance }
    ensures bound { result ≤ 32 }
{
    permutation::lines::state_bytes(instance)
}

// A digest with the number of the answer; the space has zeros after it.
#[derive(Clone, Copy)]
pub struct Digest {
    pub instance: u32,
    pub number: u32,
    pub space: [u8; 32],
}

impl fmt::Display for Digest {
    ghost output = { λ digest. Some (digest_text digest) };

    fn fmt<W: fmt::Write>(&self, f: &mut fmt::Formatter<W>) -> fmt::Result {
        let bytes = &self.space[..digest_bytes(self.instance)];
        write!(f, "{}, {}", self.number, Hex(bytes))
    }
}

// The digest of the first bits of a message, as many as `bits`; zeros where it is refused.
pub fn whole_digest(instance: u32, message: &[u8], bits: usize) -> Digest
    ensures { result ≡ whole_digest instance message.now bits }
{
    let mut space = [0; 32];
    let digest = &mut space[..digest_bytes(instance)];
    let number = number_of(sponge::digest(instance, 8, message, bits, digest));
    Digest {
        instance,
        number,
        space,
    }
}
