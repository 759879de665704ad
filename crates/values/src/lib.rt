#![tactic(auto)]
//! What messages carry: access points, identities, names and addresses, and the forms of the listed elements.

pub mod access_point;
pub mod address;
pub mod bounds;
pub mod form;
pub mod identity;
pub mod listed;
pub mod name;
pub mod octets;
