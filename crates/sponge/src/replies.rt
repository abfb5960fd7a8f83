// Replies: an answer, with the state that a call hands back.
ghost use Rattle.std.specs.Prelude.{◌≡◌};
ghost use Rattle.refusals.specs.Lines.{number};
ghost use Rattle.refusals.specs.Outcome.{accepted, refused};
ghost use Rattle.sponge.specs.Outcomes.{result_of};

use crate::{Reply, State};
use refusals::lines::Line;

impl Reply {
    // Accepted, with the state after the call.
    pub(crate) fn accepted(state: State) -> Reply
        ensures { result_of result ≡ record { outcome = accepted tt; state = state } }
    {
        Reply {
            answer: Ok(()),
            state,
        }
    }

    // Refused by a line, with the state that the call hands back. The place is 0.
    pub(crate) fn refused(line: Line, state: State) -> Reply
        ensures { result_of result ≡ record { outcome = refused (number line) 0; state = state } }
    {
        Reply {
            answer: Err(line.into()),
            state,
        }
    }
}
