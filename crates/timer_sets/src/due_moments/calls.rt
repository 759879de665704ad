ghost use Rattle.std.specs.Prelude.{◌≡◌, ◌-◌, true, if◌then◌else◌, ◌==◌};
ghost use Rattle.timer_sets.specs.Moments.{after, is_ahead, ticks_to};
ghost use Rattle.timer_sets.specs.Sets.{clock_of, of_moments};
ghost use Rattle.timers.specs.Limits.{checked, startable};
ghost use Rattle.timers.specs.Timed.{ran_out, set_to, ticked};

use super::DueMoments;
use timers::by_timer::Expired;
use timers::limit::{TicksOutOfRange, check_ticks};
use timers::timer::Timer;
use timers::timer_set::TimerSet;

// The ticks left of a timer that is due at a moment, or is off.
fn ticks_to(clock: u32, due: Option<u32>) -> u32
    ensures { result ≡ ticks_to clock due }
{
    due.map_or(0, |moment| moment.wrapping_sub(clock))
}

// Turns a timer off if it is due at the moment after this one, and says whether it was.
fn end_if_due(due: &mut Option<u32>, clock: u32) -> bool
    requires { is_ahead clock due.old ≡ true }
    ensures answer { result ≡ (ticks_to clock due.old == 1) }
    ensures leaves { ticks_to (after clock 1) due.new ≡ ticks_to clock due.old - 1 }
    ensures ahead { is_ahead (after clock 1) due.new ≡ true }
{
    match *due {
        Some(moment) if moment == clock.wrapping_add(1) => {
            *due = None;
            true
        }
        _ => false,
    }
}

impl TimerSet for DueMoments {
    ghost timed = { of_moments };

    fn start(&mut self, timer: Timer, ticks: u32) -> Result<(), TicksOutOfRange>
        ensures answer { result ≡ checked ticks }
        ensures leaves { of_moments self.new ≡ (if startable ticks then set_to (of_moments self.old) timer ticks else of_moments self.old) }
        ensures clock { clock_of self.new ≡ clock_of self.old }
    {
        check_ticks(ticks)?;
        self.due.set(timer, Some(self.clock.wrapping_add(ticks)));
        Ok(())
    }

    fn stop(&mut self, timer: Timer)
        ensures leaves { of_moments self.new ≡ set_to (of_moments self.old) timer 0 }
        ensures clock { clock_of self.new ≡ clock_of self.old }
    {
        self.due.set(timer, None);
    }

    fn tick(&mut self) -> Expired
        ensures answer { result ≡ ran_out (of_moments self.old) }
        ensures leaves { of_moments self.new ≡ ticked (of_moments self.old) }
        ensures clock { clock_of self.new ≡ after (clock_of self.old) 1 }
    {
        let clock = self.clock; // a copy, which no change of a moment can touch
        let expired = self.due.map_mut(|due| end_if_due(due, clock));
        self.clock = self.clock.wrapping_add(1);
        expired
    }

    fn left(&self, timer: Timer) -> u32 {
        ticks_to(self.clock, self.due.get(timer))
    }
}
