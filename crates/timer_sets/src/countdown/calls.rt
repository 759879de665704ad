ghost use Rattle.std.specs.Prelude.{◌≡◌, ◌-◌, ◌==◌};
ghost use Rattle.timer_sets.specs.Sets.{of_countdown};

use super::Countdown;
use timers::by_timer::Expired;
use timers::limit::{TicksOutOfRange, check_ticks};
use timers::timer::Timer;
use timers::timer_set::TimerSet;

// Takes one tick from a timer, if it runs, and says whether it reached 0.
fn count_down(left: &mut u32) -> bool
    ensures answer { result ≡ (left.old == 1) }
    ensures leaves { left.new ≡ left.old - 1 }
{
    let reached = *left == 1;
    *left = left.saturating_sub(1);
    reached
}

impl TimerSet for Countdown {
    ghost timed = { of_countdown };

    fn start(&mut self, timer: Timer, ticks: u32) -> Result<(), TicksOutOfRange> {
        check_ticks(ticks)?;
        self.left.set(timer, ticks);
        Ok(())
    }

    fn stop(&mut self, timer: Timer) {
        self.left.set(timer, 0);
    }

    fn tick(&mut self) -> Expired {
        self.left.map_mut(count_down)
    }

    fn left(&self, timer: Timer) -> u32 {
        self.left.get(timer)
    }
}
