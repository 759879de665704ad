#![tactic(auto)]
//! What carries a station's messages: a tunnel to a gateway, a connection through it to a controller, and the messages that wait.

pub mod acts;
pub mod carrying;
pub mod connection;
pub mod lent;
pub mod path;
pub mod undone;
