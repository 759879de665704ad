//! Rows, and the keys that they are told apart by.

ghost use Rattle.std.specs.Prelude.{◌≡◌, ℕ, List, Decides};
ghost use Rattle.values.specs.Values.{coded as address_code, point};

use values::access_point::AccessPoint;
use values::address::Address;

/// What rows are told apart by.
pub trait Key {
    /// The octets that a key stands for.
    ghost code: { Self → List ℕ };

    /// Whether two keys are the same. A type may be a key by less than its `==` compares.
    fn same(&self, other: &Self) -> bool
        ensures { Decides result (code self.now ≡ code other.now) };
}

/// What stands in a list and has a key.
pub trait Row {
    /// What the key of such a row is.
    type Key: Key;

    /// The octets that its key stands for.
    ghost coded: { Self → List ℕ };

    /// Its key.
    fn key(&self) -> &Self::Key
        ensures { Self.Key.Key.code result.now ≡ coded self.now };
}

impl Key for AccessPoint {
    ghost code = { point };

    fn same(&self, other: &AccessPoint) -> bool {
        AccessPoint::eq(self, other)
    }
}

/// In a list of access points, each is its own key.
// Not one for every `Key`: a key may also be a row with another key.
impl Row for AccessPoint {
    type Key = AccessPoint;

    ghost coded = { point };

    fn key(&self) -> &AccessPoint {
        self
    }
}

impl Key for Address {
    ghost code = { address_code };

    // By kind: slices of octets are compared at once, which the derived `==` of arrays is not.
    fn same(&self, other: &Address) -> bool {
        match (self, other) {
            (Address::V4(a), Address::V4(b)) => a[..] == b[..],
            (Address::V6(a), Address::V6(b)) => a[..] == b[..],
            (Address::Named(a), Address::Named(b)) => a == b,
            _ => false,
        }
    }
}

/// In a list of addresses, each is its own key.
impl Row for Address {
    type Key = Address;

    ghost coded = { address_code };

    fn key(&self) -> &Address {
        self
    }
}
