//! Numbers drawn one after the other.
ghost use Rattle.std.specs.Prelude.{◌≡◌, ◌<◌, ℕ};
ghost use Rattle.cs_model_trial.specs.Generator.{next_state, behind, drawn};
ghost use Rattle.cs_trial.specs.Jumps.{jumped};

use cs_model_trial::{INCREMENT, MULTIPLIER};

// the low bits of a state, which draws don't use
const LOW_BITS: u32 = 33;

/// The draws of a trial from some place on.
#[derive(Drop)]
pub(crate) struct Draws {
    /// The state before the next draw.
    pub(crate) state: u64,
}

impl Draws {
    /// The draws of trial `n` behind the first `count`. It takes as many steps as `count` has bits: F. B. Brown, "Random number
    /// generation with arbitrary strides" (1994).
    pub(crate) fn behind(n: u32, count: u32) -> Draws
        ensures { result.state ≡ behind count n }
    {
        let mut state = u64::from(n);
        let mut jump = Jump {
            times: MULTIPLIER,
            plus: INCREMENT,
        };
        let mut left = count;
        while left > 0 {
            if left % 2 == 1 {
                state = jump.from(state);
            }
            jump = jump.twice();
            left /= 2;
        }
        Draws { state }
    }

    /// The next number below `bound`.
    #[inline]
    pub(crate) fn below(&mut self, bound: u32) -> u32
        requires { 0 < bound }

        ensures value { result ≡ drawn bound self.old.state }
        ensures small { result < bound }
        ensures state { self.new.state ≡ next_state self.old.state }
    {
        self.state = next_state(self.state);
        ((self.state >> LOW_BITS) % u64::from(bound)) as u32
    }
}

/// Some draws at once: what they make of a state, modulo 2^64.
#[derive(Clone, Copy)]
pub(crate) struct Jump {
    /// What the state is multiplied by.
    pub(crate) times: u64,
    /// What is added then.
    pub(crate) plus: u64,
}

impl Jump {
    // The state behind the jump.
    fn from(self, state: u64) -> u64
        ensures { result ≡ jumped self state }
    {
        state.wrapping_mul(self.times).wrapping_add(self.plus)
    }

    // The jump over twice as many draws.
    fn twice(self) -> Jump
        ensures { (x : ℕ) → jumped result x ≡ jumped self (jumped self x) }
    {
        Jump {
            times: self.times.wrapping_mul(self.times),
            plus: self.from(self.plus),
        }
    }
}

#[inline]
fn next_state(state: u64) -> u64
    ensures { result ≡ next_state state }
{
    state.wrapping_mul(MULTIPLIER).wrapping_add(INCREMENT)
}
