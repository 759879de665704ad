//! Mobile identities.

ghost use Rattle.std.specs.Prelude.{◌≡◌, length, MatchResult};
ghost use Rattle.layout.specs.Faults.{Refuses};
ghost use Rattle.values.specs.Bounds.{Between};
ghost use Rattle.values.specs.Octets.{octets_of};

use crate::octets::Octets;
use layout::fault::Fault;

/// A mobile identity of 1 to 9 octets.
pub type MobileIdentity = Octets<1, 9>;

impl Octets<1, 9> {
    /// The identity with these octets. Its contract says the sizes that its type has.
    pub fn new(octets: &[u8]) -> Result<MobileIdentity, Fault>
        ensures { MatchResult result (λ i. Between 1 9 (length octets.now) × (octets_of i ≡ octets.now)) (λ f. (Between 1 9 (length octets.now) → ⊥) × Refuses 6 0 0 f) }
    {
        MobileIdentity::try_from(octets)
    }
}
