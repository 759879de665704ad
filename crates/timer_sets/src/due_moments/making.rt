ghost use Rattle.std.specs.Prelude.{◌≡◌};
ghost use Rattle.timer_sets.specs.Sets.{clock_of, of_moments};
ghost use Rattle.timers.specs.Timed.{off};

use super::DueMoments;
use timers::by_timer::ByTimer;

impl DueMoments {
    /// Timers that are off, at a moment of the clock.
    pub fn new(clock: u32) -> DueMoments
        ensures timed { of_moments result ≡ off }
        ensures clock { clock_of result ≡ clock }
    {
        DueMoments {
            clock,
            due: ByTimer::all(None),
        }
    }

    /// The clock now.
    pub fn clock(&self) -> u32
        ensures { result ≡ clock_of self.now }
    {
        self.clock
    }
}
