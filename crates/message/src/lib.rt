#![tactic(auto)]
//! The reading of messages that are heard. Nothing here knows a state.

pub mod heard;
pub mod reading;
#[cfg(test)]
mod tests;
pub mod types;
mod value;
