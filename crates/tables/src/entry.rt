//! Entries of the kept table.

ghost use Rattle.values.specs.Values.{point};

use crate::row::Row;
use values::access_point::AccessPoint;
use values::address::Address;

/// Where a station was registered when it was last at an access point.
#[derive(Clone, Copy, PartialEq, Eq, Debug)]
pub struct Entry {
    pub key: AccessPoint,
    pub gateway: Address,
    pub controller: Address,
    pub port: u16,
}

/// Entries are told apart by their access points.
impl Row for Entry {
    type Key = AccessPoint;

    ghost coded = { λ e. point e.key };

    fn key(&self) -> &AccessPoint {
        &self.key
    }
}
