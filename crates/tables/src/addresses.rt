//! Lists of addresses.

use crate::rows::Rows;
use layout::fault::Fault;
use values::address::Address;
use values::bounds::check_len;

/// Up to eight addresses.
#[derive(Clone, Copy)]
pub struct AddressList {
    rows: Rows<Address, 8>,
}

impl TryFrom<&[Address]> for AddressList {
    ghost use Rattle.std.specs.Prelude.{◌≡◌, ◌<◌, ◌≤◌, length, MatchResult};
    ghost use Rattle.layout.specs.Faults.{Refuses};
    ghost use Rattle.tables.specs.Addresses.{listed};

    type Error = Fault;

    ghost try_from_gives = { λ addresses r. MatchResult r (λ l. (length addresses.now ≤ 8) × (listed l ≡ addresses.now)) (λ f. (8 < length addresses.now) × Refuses 6 0 0 f) };

    fn try_from(addresses: &[Address]) -> Result<AddressList, Fault> {
        check_len(addresses.len(), 0, 8)?;
        Ok(AddressList {
            rows: Rows::of(addresses, Address::V4([0; 4])),
        })
    }
}

impl AddressList {
    ghost use Rattle.std.specs.Prelude.{◌≡◌};
    ghost use Rattle.values.specs.Values.{coded};
    ghost use Rattle.tables.specs.Addresses.{is_listed};

    /// Whether an address is on the list.
    pub fn contains(&self, address: &Address) -> bool
        ensures { result ≡ is_listed self.now (coded address.now) }
    {
        self.rows.has(address)
    }
}
