//! How long a timer may run.

ghost use Rattle.std.specs.Prelude.{◌≡◌};
ghost use Rattle.timers.specs.Limits.{checked, startable};

use std::error::Error;
use std::fmt;

/// The most ticks that a timer can be started with.
pub const LONGEST: u32 = 65_535;

/// A timer cannot be started with so many ticks.
#[derive(Clone, Copy, PartialEq, Eq, Debug)]
pub struct TicksOutOfRange {
    pub ticks: u32,
}

impl fmt::Display for TicksOutOfRange {
    ghost use Rattle.std.specs.Prelude.{Some};
    ghost use Rattle.timers.specs.Limits.{refusal};

    ghost output = { λ e. Some (refusal e) };

    fn fmt<W: fmt::Write>(&self, f: &mut fmt::Formatter<W>) -> fmt::Result {
        let ticks = self.ticks;
        write!(f, "a timer starts with 1 to {LONGEST} ticks, not {ticks}")
    }
}

impl Error for TicksOutOfRange {}

/// Whether a timer can be started with so many ticks.
pub fn can_start(ticks: u32) -> bool
    ensures { result ≡ startable ticks }
{
    (1..=LONGEST).contains(&ticks)
}

/// Refuses ticks that a timer cannot be started with.
pub fn check_ticks(ticks: u32) -> Result<(), TicksOutOfRange>
    ensures { result ≡ checked ticks }
{
    if can_start(ticks) {
        Ok(())
    } else {
        Err(TicksOutOfRange { ticks })
    }
}
