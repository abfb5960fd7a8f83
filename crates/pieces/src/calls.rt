// Calls on a state, one after the other, each with the state that the one before it handed back.
use known_answers::forged;
use refusals::number_of;
use sponge::{Reply, State};

// The calls so far.
#[derive(Clone, Copy)]
pub struct Calls {
    // the number of the latest answer: it is what a row prints
    pub number: u32,
    // the last digit of each answer, for the latest twelve, as many as `cuts` makes; the latest last; a line prints them as one number
    pub digits: u64,
    // the state that the latest call handed back
    pub state: State,
    // the bytes that every buffer is taken from, enough for 1,025 blocks of S
    pub space: [u8; 4100],
}

impl Calls {
    // No call yet, on a state.
    pub fn on(state: State) -> Calls {
        Calls {
            number: 0,
            digits: 0,
            state,
            space: [165; 4100],
        }
    }

    // `init`, and no call before it.
    pub fn init(instance: u32) -> Calls {
        Calls::on(forged(0, 0, 0, 0, 0)).init_again(instance)
    }

    // The calls with one more.
    fn with_reply(self, reply: Reply) -> Calls {
        let number = number_of(reply.answer);
        Calls {
            number,
            digits: self.digits % 100000000000 * 10 + u64::from(number % 10),
            state: reply.state,
            ..self
        }
    }

    // `init` once more.
    pub fn init_again(self, instance: u32) -> Calls {
        self.with_reply(sponge::init(instance))
    }

    // A piece of the first `count` bits of the bytes.
    pub fn absorb(self, width: u32, bytes: &[u8; 9], count: usize) -> Calls {
        self.with_reply(sponge::absorb(self.state, width, bytes, count))
    }

    // A finish with the first `length` bytes of the space as its buffer.
    pub fn finish(mut self, width: u32, length: usize) -> Calls {
        let end = length.min(self.space.len());
        let reply = sponge::finish(self.state, width, &mut self.space[..end]);
        self.with_reply(reply)
    }

    // A squeeze of `count` blocks, with the bytes of the space from `from` up to `to` as its buffer.
    pub fn squeeze(mut self, width: u32, count: usize, from: usize, to: usize) -> Calls {
        let end = to.min(self.space.len());
        let start = from.min(end);
        let reply = sponge::squeeze(self.state, width, count, &mut self.space[start..end]);
        self.with_reply(reply)
    }

    // Whether other calls came to the same state, and to the same bytes in the buffer. No derive: number and digits are not compared.
    pub fn same_outcome(&self, other: &Calls) -> bool {
        self.state == other.state && self.space == other.space
    }
}
