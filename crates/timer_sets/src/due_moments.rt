//! Timers that are due at moments of a clock.

ghost use Rattle.timer_sets.specs.Moments.{AllAhead};

use timers::by_timer::ByTimer;

/// The moment at which each running timer is due, and the clock, which wraps after 4,294,967,295.
#[derive(Drop)]
pub struct DueMoments {
    clock: u32,
    due: ByTimer<Option<u32>>,
    ghost ahead: { AllAhead clock due },
}

mod calls;
mod making;
