//! Eight message slots.

pub use ring::eight::Slots;
