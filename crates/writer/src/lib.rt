#![tactic(auto)]
//! Messages that are written in lent memory.

mod item;
pub mod laws;
mod octets;
#[cfg(test)]
mod tests;
pub mod writing;
