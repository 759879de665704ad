//! A carrier over places of memory.

ghost use Rattle.std.specs.Prelude.{◌≡◌, ◌/◌, ◌≤◌, ⊤};

use crate::answering::Answering;
use crate::memory::Memory;
use crate::places::Places;
use carrier::carrying::Carrier;
use carrier::connection::Connection;
use carrier::path::Path;
use carrier::undone::Undone;
use layout::fault::Fault;
use std::alloc::AllocError;
use values::address::Address;

/// A carrier whose messages wait in places of memory.
#[derive(Drop)]
pub struct Line<M: Memory, A: Answering> {
    places: Places<M>,
    path: Path,
    answering: A,
    ghost sized: { places.places ≡ M.size places.memory / 514 },
}

// By hand, as for `Places`.
impl<M: Memory + Copy, A: Answering + Copy> Copy for Line<M, A> {}

impl<M: Memory + Copy, A: Answering + Copy> Clone for Line<M, A> {
    ghost is_clone = { λ l k. k ≡ l };

    ghost is_infallible = { λ _. ⊤ };

    fn clone(&self) -> Result<Self, AllocError> {
        Ok(*self)
    }
}

impl<M: Memory, A: Answering + Drop> Line<M, A> {
    ghost use Rattle.carrier.specs.Carried.{fresh};
    ghost use Rattle.ring.specs.Meanings.{of_line};

    // A carrier in which nothing stands and nothing waits, a place to each 514 octets.
    // What `Ring::new` asks of its memory is handed down to here.
    pub(crate) fn over(memory: M, answering: A) -> Line<M, A>
        requires { 514 ≤ M.size memory }
        ensures memory { result.places.memory ≡ memory }
        ensures means { of_line A.answers result ≡ fresh (M.size memory / 514) (A.answers answering) }
    {
        Line {
            places: Places::new(memory),
            path: Path::Down,
            answering,
        }
    }

    // The memory, as it is.
    pub(crate) fn into_memory(self) -> M
        ensures { result ≡ self.places.memory }
    {
        let Line {
            places,
            path: _,
            answering: _,
        } = self;
        places.into_memory()
    }
}

impl<M: Memory, A: Answering> Carrier for Line<M, A> {
    ghost use Rattle.ring.specs.Meanings.{of_line};
    ghost use Rattle.ring.specs.Keeps.{kept_carrying};

    ghost carried = { of_line A.answers };

    ghost kept = { λ l. kept_carrying _ _ _ _ _ _ _ l.places.sound l.sized };

    fn tunnel(&self) -> Option<Address> {
        self.path.gateway()
    }

    fn connection(&self) -> Option<Connection> {
        self.path.connection()
    }

    fn waiting(&self) -> usize {
        self.places.len()
    }

    fn places(&self) -> usize {
        self.places.size()
    }

    fn answers(&self, address: &Address) -> bool {
        self.answering.answers(address)
    }

    fn raise(&mut self, gateway: &Address) -> Result<(), Undone> {
        let answers = self.answering.answers(gateway);
        self.path.raise(gateway, answers)
    }

    fn open(&mut self, to: &Connection) -> Result<(), Undone> {
        let answers = self.answering.answers(&to.controller);
        self.path.open(to, answers)
    }

    fn send(&mut self, octets: &[u8]) -> Result<(), Undone> {
        if !self.path.connected() {
            return Err(Undone::NoConnection);
        }
        self.places.offer(octets)
    }

    fn close(&mut self) {
        self.path.close();
    }

    fn drop_tunnel(&mut self) {
        self.path.drop_tunnel();
    }

    fn take(&mut self, memory: &mut [u8]) -> Result<usize, Fault> {
        self.places.take_into(memory)
    }
}
