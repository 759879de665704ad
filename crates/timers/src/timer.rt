//! The timers, by their names in the protocol.

/// A timer of the station.
#[derive(Clone, Copy, PartialEq, Eq, Debug)]
pub enum Timer {
    Tu3904,
    Tu3906,
    Tu3907,
    Tu3908,
}

impl Timer {
    /// Every timer.
    pub const ALL: [Timer; 4] = [Timer::Tu3904, Timer::Tu3906, Timer::Tu3907, Timer::Tu3908];
}
