#![tactic(auto)]
//! The layout of messages at the Up interface: a header, and elements behind it. A message is taken apart, or refused.

pub mod apart;
mod cursor;
pub mod element;
pub mod elements;
pub mod fault;
