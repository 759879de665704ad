//! A ring in lent memory.

ghost use Rattle.std.specs.Prelude.{◌≡◌, ◌/◌, ◌<◌, ◌≤◌, length, MatchResult};
ghost use Rattle.layout.specs.Faults.{Refuses};
ghost use Rattle.tables.specs.Addresses.{is_listed};
ghost use Rattle.carrier.specs.Carried.{fresh};
ghost use Rattle.ring.specs.Meanings.{of_ring};

use crate::answering::Only;
use crate::line::Line;
use crate::places::PLACE;
use layout::fault::Fault;
use tables::addresses::AddressList;
use values::bounds::check_least;

/// A carrier in memory that is lent to it, a place to each 514 octets.
pub type Ring<'a> = Line<&'a mut [u8], Only>;

/// Whether memory of `len` octets has a place, so that a ring can be made in it.
pub fn fits(len: usize) -> Result<(), Fault>
    ensures { MatchResult result (λ _. 514 ≤ len) (λ f. (len < 514) × Refuses 6 0 0 f) }
{
    check_least(len, PLACE)
}

impl<'a> Line<&'a mut [u8], Only> {
    /// A ring in which nothing stands and nothing waits. The addresses on the list answer, no other does. `fits` says beforehand
    /// whether the memory is large enough.
    pub fn new(memory: &'a mut [u8], answering: AddressList) -> Ring<'a>
        requires { 514 ≤ length memory.old }
        ensures name { result.places.memory.ghost_name ≡ memory.entry.ghost_name }
        ensures memory { result.places.memory.now ≡ memory.old }
        ensures means { of_ring result ≡ fresh (length memory.old / 514) (is_listed answering) }
    {
        Line::over(memory, Only(answering))
    }

    /// Gives the memory back as it is.
    pub fn give_back(self) -> &'a mut [u8]
        ensures name { result.ghost_name ≡ self.entry.places.memory.ghost_name }
        ensures memory { result.now ≡ self.entry.places.memory.now }
    {
        self.into_memory()
    }
}
