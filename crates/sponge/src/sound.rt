// Sound states (document 01, "Pieces and finish"; document 02, 2.1).
ghost use Rattle.std.specs.Prelude.{◌≡◌, ◌==◌, eqb};
ghost use Rattle.std.specs.List.{list_all};
ghost use Rattle.quark.specs.Instance.{instance_of};
ghost use Rattle.sponge.specs.Soundness.{absorbing_phase, closed_phase, sound_runs, most_extra, sound};

use crate::{State, rate};
use permutation::lines::state_bytes;

// The greatest total of bits.
pub const LIMIT: u32 = 16777215;

// The greatest number of extra blocks, and the greatest in one call.
pub const EXTRA_LIMIT: u32 = 1048576;

pub const MOST_BLOCKS: usize = 1024;

// The phases. They are numbers, and compared as such: a forged state's phase is any number.
const ABSORBING: u32 = 0;

pub const CLOSED: u32 = 1;

// Whether every byte is zero.
fn all_zero(bytes: &[u8]) -> bool
    ensures { result ≡ list_all (λ byte. byte == 0) bytes.now }
{
    bytes.iter().all(|&byte| byte == 0)
}

impl State {
    // Whether the state is absorbing. One function for each phase: line 3 has two tests.
    pub(crate) fn is_absorbing(&self) -> bool
        ensures { result ≡ eqb self.now.phase absorbing_phase }
    {
        self.phase == ABSORBING
    }

    // Whether the state is closed.
    pub(crate) fn is_closed(&self) -> bool
        ensures { result ≡ eqb self.now.phase closed_phase }
    {
        self.phase == CLOSED
    }

    // The runs of a sound state: total div r, and where it is closed n/r more for the digest and one for each extra block.
    fn sound_runs(&self) -> usize
        ensures { result ≡ sound_runs (instance_of self.now.instance) self.now.phase self.now.total self.now.extra }
    {
        // No `usize::from`: there is none of a u32, and `as` loses nothing.
        let blocks = self.total as usize / rate::rate(self.instance);
        match self.phase {
            ABSORBING => blocks,
            _ => blocks + rate::outputs(self.instance) + self.extra as usize,
        }
    }

    // The most extra blocks that a sound state has.
    fn most_extra(&self) -> u32
        ensures { result ≡ most_extra self.now.phase }
    {
        match self.phase {
            ABSORBING => 0,
            _ => EXTRA_LIMIT,
        }
    }

    // Whether the state is sound, its phase included.
    pub(crate) fn is_sound(&self) -> bool
        ensures { result ≡ sound self.now }
    {
        let zeros = all_zero(&self.bits[state_bytes(self.instance)..]);
        let runs = self.runs as usize == self.sound_runs();
        let extra = self.extra <= self.most_extra();
        let phase = self.is_absorbing() | self.is_closed();
        (self.total <= LIMIT) & extra & zeros & runs & phase
    }
}
