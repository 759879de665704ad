//! Timers that are counted down.

ghost use Rattle.timers.specs.Timed.{Kept};

use timers::by_timer::ByTimer;

/// The ticks left of each timer, counted down at each tick.
#[derive(Drop)]
pub struct Countdown {
    left: ByTimer<u32>,
    ghost kept: { Kept left },
}

mod calls;
mod making;
