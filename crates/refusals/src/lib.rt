// How a call is refused (docs/RULES.md): by a line, and at a place. The crates above use these.
#![tactic(auto)]

ghost use Rattle.std.specs.Prelude.{◌≡◌, cond, Some, MatchResult};
ghost use Rattle.refusals.specs.Lines.{number};
ghost use Rattle.refusals.specs.Outcome.{refusal_text};

pub mod lines;

use lines::Line;
use std::fmt;

// Why a call was refused: the first line that holds, and a place: the index of the record that breaks it, and 0 where no record of a journal
// does.
#[derive(Clone, Copy, Debug, PartialEq, Eq)]
pub struct Refusal {
    pub line: Line,
    pub place: usize,
}

// No record of a journal is at fault.
impl From<Line> for Refusal {
    ghost from_gives = { λ line refusal. refusal ≡ record { line = line; place = 0 } };

    fn from(line: Line) -> Refusal {
        Refusal { line, place: 0 }
    }
}

// The line's number and the place.
impl fmt::Display for Refusal {
    ghost output = { λ refusal. Some (refusal_text refusal) };

    fn fmt<W: fmt::Write>(&self, f: &mut fmt::Formatter<W>) -> fmt::Result {
        write!(f, "{} {}", self.line.number(), self.place)
    }
}

// The line's number, without the place.
impl From<Refusal> for u32 {
    ghost from_gives = { λ refusal result. result ≡ number refusal.line };

    fn from(refusal: Refusal) -> u32 {
        refusal.line.into()
    }
}

// The number that an answer stands for: 0 where the call was accepted, else the refusal's. A refusal is a `Refusal`, a `Line`, a number of the
// caller's own, or what else gives a `u32`. It refuses nothing. It is for C and for printed text, where an answer is one number.
pub fn number_of<T: Copy, R: Into<u32>>(answer: Result<T, R>) -> u32
    ensures { MatchResult answer (λ _. result ≡ 0) (λ refusal. R.converts refusal result) }
{
    match answer {
        Ok(_) => 0,
        Err(refusal) => refusal.into(),
    }
}

#[cfg(test)]
mod tests {
    use super::*;
    use lines::first;

    // A line may be a number of the caller's own, whichever it is.
    #[tactic(auto, using(crate::proofs::Rows::number_or_rest))]
    fn first_of_two(holds: bool, number: u32, rest: u32) -> u32
        ensures { result ≡ cond holds number rest }
    {
        number_of(first(&[(holds, number), (true, rest)]))
    }

    #[test]
    fn any_number_refuses() {
        prove_eq!(first_of_two(true, 99, u32::MAX), 99);
        prove_eq!(first_of_two(false, 99, u32::MAX), u32::MAX);
    }
}
