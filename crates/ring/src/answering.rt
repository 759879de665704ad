//! Which addresses answer.

ghost use Rattle.std.specs.Prelude.{◌≡◌, Bool, List, ℕ};
ghost use Rattle.values.specs.Values.{coded};

use tables::addresses::AddressList;
use values::address::Address;

/// What says of each address whether it answers.
pub trait Answering {
    /// Whether an address answers, by its code.
    ghost answers: { Self → List ℕ → Bool };

    /// Whether an address answers.
    fn answers(&self, address: &Address) -> bool
        ensures { result ≡ answers self.now (coded address.now) };
}

/// The addresses on a list answer, and no other.
#[derive(Clone, Copy)]
pub struct Only(pub AddressList);

impl Answering for Only {
    ghost use Rattle.tables.specs.Addresses.{is_listed};

    ghost answers = { λ o. is_listed o.0 };

    fn answers(&self, address: &Address) -> bool {
        self.0.contains(address)
    }
}

/// Any address answers but those on a list.
#[derive(Clone, Copy)]
pub struct AllBut(pub AddressList);

impl Answering for AllBut {
    ghost use Rattle.ring.specs.Answers.{is_unlisted};

    ghost answers = { λ a. is_unlisted a.0 };

    fn answers(&self, address: &Address) -> bool {
        !self.0.contains(address)
    }
}
