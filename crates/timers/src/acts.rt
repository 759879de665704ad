//! What is done with any set of timers.

ghost use Rattle.std.specs.Prelude.{◌≡◌, if◌then◌else◌};
ghost use Rattle.timers.specs.Limits.{checked, startable};
ghost use Rattle.timers.specs.Timed.{left_of, off, only, passed};

use crate::limit::{TicksOutOfRange, check_ticks};
use crate::timer::Timer;
use crate::timer_set::TimerSet;

/// Turns every timer off.
pub fn stop_all<T: TimerSet>(timers: &mut T)
    ensures { T.timed timers.new ≡ off }
{
    for timer in Timer::ALL {
        timers.stop(timer);
    }
}

/// Starts a timer and turns the others off, if it can be started with so many ticks; otherwise changes nothing.
pub fn run_only<T: TimerSet>(
    timers: &mut T,
    timer: Timer,
    ticks: u32,
) -> Result<(), TicksOutOfRange>
    ensures answer { result ≡ checked ticks }
    ensures leaves { T.timed timers.new ≡ (if startable ticks then only timer ticks else T.timed timers.old) }
{
    check_ticks(ticks)?;
    stop_all(timers);
    timers.start(timer, ticks)
}

/// Lets so many ticks pass.
pub fn pass<T: TimerSet>(timers: &mut T, ticks: u32)
    ensures { T.timed timers.new ≡ passed ticks (T.timed timers.old) }
{
    for _ in 0..ticks {
        timers.tick();
    }
}

/// Lets ticks pass until a timer is off, and says how many.
pub fn run_out<T: TimerSet>(timers: &mut T, timer: Timer) -> u32
    ensures answer { result ≡ left_of (T.timed timers.old) timer }
    ensures leaves { T.timed timers.new ≡ passed result (T.timed timers.old) }
{
    let ticks = timers.left(timer);
    pass(timers, ticks);
    ticks
}
