#![tactic(auto)]
//! Carriers over places of memory that are used in a ring: one in memory that is lent to it, and one with eight slots of its own.

mod answering;
pub mod eight;
pub mod lent;
mod line;
mod memory;
pub mod places;
