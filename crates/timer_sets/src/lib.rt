#![tactic(auto)]
//! Two sets of timers: ticks that are counted down, and moments of a clock.

pub mod countdown;
pub mod due_moments;
