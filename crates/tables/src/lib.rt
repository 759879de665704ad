#![tactic(auto)]
//! The lists that a mobile station keeps, and rows found by their keys in any list.

pub mod addresses;
pub mod entry;
pub mod exclude;
pub mod kept;
pub mod lookup;
pub mod row;
mod rows;
