//! A carrier that is lent.

use crate::carrying::Carrier;
use crate::connection::Connection;
use crate::undone::Undone;
use layout::fault::Fault;
use values::address::Address;

/// A carrier that is lent is a carrier, and means what it means.
impl<'c, C: Carrier> Carrier for &'c mut C {
    ghost carried = { λ s. C.Carrier.carried s.now };

    ghost kept = { λ s. C.Carrier.kept s.now };

    fn tunnel(&self) -> Option<Address> {
        (**self).tunnel()
    }

    fn connection(&self) -> Option<Connection> {
        (**self).connection()
    }

    fn waiting(&self) -> usize {
        (**self).waiting()
    }

    fn places(&self) -> usize {
        (**self).places()
    }

    fn answers(&self, address: &Address) -> bool {
        (**self).answers(address)
    }

    fn raise(&mut self, gateway: &Address) -> Result<(), Undone> {
        (**self).raise(gateway)
    }

    fn open(&mut self, to: &Connection) -> Result<(), Undone> {
        (**self).open(to)
    }

    fn send(&mut self, octets: &[u8]) -> Result<(), Undone> {
        (**self).send(octets)
    }

    fn close(&mut self) {
        (**self).close();
    }

    fn drop_tunnel(&mut self) {
        (**self).drop_tunnel();
    }

    fn take(&mut self, memory: &mut [u8]) -> Result<usize, Fault> {
        (**self).take(memory)
    }
}
