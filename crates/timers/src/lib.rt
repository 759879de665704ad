#![tactic(auto)]
//! The timers of a mobile station: what a set of timers does, and what can be done with any.

pub mod acts;
pub mod by_timer;
pub mod limit;
pub mod timer;
pub mod timer_set;
