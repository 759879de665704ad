//! What a set of timers does.

ghost use Rattle.std.specs.Prelude.{◌≡◌, if◌then◌else◌};
ghost use Rattle.timers.specs.Limits.{checked, startable};
ghost use Rattle.timers.specs.Timed.{Timed, Kept, left_of, ran_out, set_to, ticked};

use crate::by_timer::Expired;
use crate::limit::TicksOutOfRange;
use crate::timer::Timer;

/// The four timers: each is off, or has 1 to `LONGEST` ticks left.
pub trait TimerSet {
    ghost timed: { Self → Timed };

    /// Starts a timer, running or not, if it can be started with so many ticks; otherwise changes nothing.
    fn start(&mut self, timer: Timer, ticks: u32) -> Result<(), TicksOutOfRange>
        ensures answer { result ≡ checked ticks }
        ensures leaves { timed self.new ≡ (if startable ticks then set_to (timed self.old) timer ticks else timed self.old) };

    /// Turns a timer off.
    fn stop(&mut self, timer: Timer)
        ensures { timed self.new ≡ set_to (timed self.old) timer 0 };

    /// Takes one tick from each running timer, and names those that reached 0 and are off now.
    fn tick(&mut self) -> Expired
        ensures answer { result ≡ ran_out (timed self.old) }
        ensures leaves { timed self.new ≡ ticked (timed self.old) };

    /// The ticks that a timer has left, 0 where it is off.
    // No `Option`: the meaning `Timed` has 0 for a timer that is off.
    fn left(&self, timer: Timer) -> u32
        ensures answer { result ≡ left_of (timed self.now) timer }
        ensures kept { Kept (timed self.now) };
}
