//! Names of gateways and controllers.

ghost use Rattle.std.specs.Prelude.{◌≡◌, length, MatchResult};
ghost use Rattle.layout.specs.Faults.{Refuses};
ghost use Rattle.values.specs.Bounds.{Between};
ghost use Rattle.values.specs.Values.{spelled};

use crate::octets::Octets;
use layout::fault::Fault;

/// A name of 3 to 64 octets.
pub type Name = Octets<3, 64>;

impl Octets<3, 64> {
    /// The name with these octets. Its contract says the sizes that its type has.
    pub fn new(octets: &[u8]) -> Result<Name, Fault>
        ensures { MatchResult result (λ n. Between 3 64 (length octets.now) × (spelled n ≡ octets.now)) (λ f. (Between 3 64 (length octets.now) → ⊥) × Refuses 6 0 0 f) }
    {
        Name::try_from(octets)
    }
}
