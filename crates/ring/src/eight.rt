//! Eight message slots.

ghost use Rattle.std.specs.Prelude.{◌≡◌};
ghost use Rattle.carrier.specs.Carried.{fresh};
ghost use Rattle.ring.specs.Answers.{is_unlisted};
ghost use Rattle.ring.specs.Meanings.{of_slots};

use crate::answering::AllBut;
use crate::line::Line;
use crate::places::PLACE;
use tables::addresses::AddressList;

const SLOTS: usize = 8;

const OCTETS: usize = SLOTS * PLACE;

/// A carrier with eight slots of its own, each a place for a message.
pub type Slots = Line<[u8; OCTETS], AllBut>;

impl Line<[u8; OCTETS], AllBut> {
    /// Slots in which nothing stands and nothing waits. The addresses on the list do not answer, any other does.
    pub fn new(silent: AddressList) -> Slots
        ensures { of_slots result ≡ fresh 8 (is_unlisted silent) }
    {
        Line::over([0; OCTETS], AllBut(silent))
    }
}
