#![tactic(auto)]
//! A carrier with eight message slots of its own.

pub mod eight;
