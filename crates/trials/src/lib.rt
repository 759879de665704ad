#![tactic(auto)]
//! Runs of the same acts over every carrier and every set of timers, and lists worked out by hand.

#[cfg(test)]
mod carriers;
#[cfg(test)]
mod lists;
#[cfg(test)]
mod timings;
