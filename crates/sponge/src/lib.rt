// Hashing by pieces of bits (document 01, "Pieces and finish"; QUARK 3.1): a fresh state, pieces, finish, more blocks (document 02, 2.1), marks
// to come back to (document 02, 2.5), and the whole digest.
// A state is passed by value and, but for `mark`, one comes back beside the answer. All tests of a call precede all of its work.
// State and width, and a buffer with the count of its marks in use, go in as docs/RULES.md has them: the caller keeps both. `absorb`, `finish`
// and `squeeze` have a `match` each: one function over them would take a closure that uses the state up and writes to the buffer.
#![tactic(auto)]

ghost use Rattle.std.specs.Prelude.{◌≡◌, length, IfOk};
ghost use Rattle.refusals.specs.Lines.{refused_by};
ghost use Rattle.refusals.specs.Outcome.{outcome_of};
ghost use Rattle.sponge.specs.Marks.{state_in, found};
ghost use Rattle.sponge.specs.Outcomes.{result_of, init_result, absorb_result, finish_result, finish_bytes, squeeze_result, squeeze_bytes, mark_outcome, mark_bytes, recall_number, recall_result, digest_outcome, digest_bytes};

use permutation::lines::is_instance;
use pieces::Running;
use refusals::Refusal;
use refusals::lines::Line;

mod fresh;
mod lines;
mod marks;
mod output;
mod pieces;
mod rate;
mod replies;
mod sound;

// A state of the sponge (document 01, "Pieces and finish"). Its fields are public: a forged state is an input like any other. So instance and
// phase are numbers, of which each operation refuses all but these (lines 1 and 2), and no enums.
#[derive(Clone, Copy, PartialEq, Eq)]
pub struct State {
    // 1 is U, 2 is D, 3 is S
    pub instance: u32,
    // 0 absorbing, 1 closed
    pub phase: u32,
    // the bits taken
    pub total: u32,
    // how often P has run
    pub runs: u32,
    // the extra blocks given out since the finish
    pub extra: u32,
    // the state's bits in byte form: b/8 bytes, and zeros after them; an array, since line 2 reads the zeros too
    pub bits: [u8; 32],
}

// A call's answer, and the state that it hands back. A refusal hands the state back too, so this is no `Result` over a state.
#[derive(Clone, Copy)]
pub struct Reply {
    pub answer: Result<(), Refusal>,
    pub state: State,
}

// Document 01's fresh state: no bit taken, no run made, no extra block given out, and the instance's initial bits.
// Refuses by line 1; the state is then all zeros.
pub fn init(instance: u32) -> Reply
    ensures { result_of result ≡ init_result instance }
{
    if is_instance(instance) {
        Reply::accepted(fresh::fresh(instance))
    } else {
        Reply::refused(Line::UnknownInstance, fresh::zeros())
    }
}

// Document 01's piece: takes the first `count` bits of the bytes into an absorbing state. P takes `width` steps together.
// Refuses by lines 1, 2, 3, 4, 6 and 7, in this order; the state is then the one that was given.
pub fn absorb(state: State, width: u32, bytes: &[u8], count: usize) -> Reply
    ensures { result_of result ≡ absorb_result state width bytes.now count }
{
    match lines::absorb_line(state, width, bytes.len(), count) {
        Ok(()) => Reply::accepted(Running { state, width }.take_bits(bytes, count).state),
        Err(line) => Reply::refused(line, state),
    }
}

// Document 01's finish: pads, writes the digest into the buffer and closes the state.
// Refuses by lines 1, 2, 3, 4, 5 and 8, in this order; the state is then the one that was given, and the buffer is untouched.
pub fn finish(state: State, width: u32, buffer: &mut [u8]) -> Reply
    ensures reply { result_of result ≡ finish_result state width (length buffer.old) }
    ensures bytes { buffer.new ≡ finish_bytes state width buffer.old }
{
    match lines::finish_line(state, width, buffer.len()) {
        Ok(()) => Reply::accepted(Running { state, width }.close(buffer)),
        Err(line) => Reply::refused(line, state),
    }
}

// Document 02's k more blocks of a closed state: for each, P runs once and the last r bits go into the buffer, k times r/8 bytes in all. The
// runs and the extra blocks are then k more.
// Refuses by lines 1, 2, 3, 4, 5, 14 and 15, in this order; the state is then the one that was given, and the buffer is untouched.
pub fn squeeze(state: State, width: u32, k: usize, buffer: &mut [u8]) -> Reply
    ensures reply { result_of result ≡ squeeze_result state width k (length buffer.old) }
    ensures bytes { buffer.new ≡ squeeze_bytes state width k buffer.old }
{
    match lines::squeeze_line(state, width, k, buffer.len()) {
        Ok(()) => Reply::accepted(Running { state, width }.give_extra(k, buffer)),
        Err(line) => Reply::refused(line, state),
    }
}

// Document 02's marking: writes the state under a name into the 64 bytes of the buffer after the `count` marks in use, and answers count + 1.
// Refuses by lines 1, 2, 17 and 19, in this order; the buffer is then untouched.
pub fn mark(state: State, name: [u8; 16], buffer: &mut [u8], count: usize) -> Result<usize, Refusal>
    ensures answer { outcome_of result ≡ mark_outcome state (length buffer.old) count }
    ensures bytes { buffer.new ≡ mark_bytes state name buffer.old count }
{
    lines::mark_line(state, buffer.len(), count)?;
    marks::write(state, name, buffer, count);
    Ok(count + 1)
}

// Document 02's coming back: hands back the state of the latest mark with the name among the `count` in use. The state that is given may be of
// either phase, and of another instance.
// Refuses by lines 1, 2, 17 and 18, and then by lines 1 and 2 of the mark that is found, in this order; the state is then the one that was given.
pub fn recall(state: State, name: [u8; 16], buffer: &[u8], count: usize) -> Reply
    ensures { result_of result ≡ recall_result state name buffer.now count }
{
    match recalled(state, name, buffer, count) {
        Ok(found) => Reply::accepted(found),
        Err(line) => Reply::refused(line, state),
    }
}

// The state that a return hands back, or the first line that refuses it. Line 17 passes before a mark is read.
fn recalled(state: State, name: [u8; 16], buffer: &[u8], count: usize) -> Result<State, Line>
    ensures line { refused_by result ≡ recall_number state name buffer.now count }
    ensures found { IfOk result (λ s. s ≡ state_in (found name buffer.now count)) }
{
    lines::recall_line(state, buffer.len(), count)?;
    let mark = marks::latest(name, buffer, count).ok_or(Line::NoSuchMark)?;
    lines::found_line(mark)?;
    Ok(marks::state_in(mark))
}

// Document 01's whole digest: writes the digest of the first `count` bits of the message into the buffer. It is `init`, one `absorb` and
// `finish`, with an order of tests of its own.
// Refuses by lines 1, 4, 5, 6, 7 and 8, in this order; the buffer is then untouched.
pub fn digest(
    instance: u32,
    width: u32,
    message: &[u8],
    count: usize,
    buffer: &mut [u8],
) -> Result<(), Refusal>
    ensures answer { outcome_of result ≡ digest_outcome instance width message.now count buffer.old }
    ensures bytes { buffer.new ≡ digest_bytes instance width message.now count buffer.old }
{
    lines::digest_line(instance, width, message.len(), count, buffer.len())?;
    let state = fresh::fresh(instance);
    let running = Running { state, width };
    running.take_bits(message, count).close(buffer);
    Ok(())
}
