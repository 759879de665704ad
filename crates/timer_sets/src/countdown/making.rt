ghost use Rattle.std.specs.Prelude.{◌≡◌};
ghost use Rattle.timer_sets.specs.Sets.{of_countdown};
ghost use Rattle.timers.specs.Timed.{off};

use super::Countdown;
use timers::by_timer::ByTimer;

impl Countdown {
    /// Timers that are off.
    pub fn new() -> Countdown
        ensures { of_countdown result ≡ off }
    {
        Countdown {
            left: ByTimer::all(0),
        }
    }
}
