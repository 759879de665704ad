//! Access points.

ghost use Rattle.std.specs.Prelude.{◌≡◌, length, MatchResult, ◌≢◌};
ghost use Rattle.layout.specs.Faults.{Refuses};
ghost use Rattle.values.specs.Values.{point};

use layout::fault::Fault;

/// An access point: the six octets of its radio identity.
#[derive(Clone, Copy, PartialEq, Eq, Debug)]
pub struct AccessPoint {
    octets: [u8; 6],
}

impl From<[u8; 6]> for AccessPoint {
    ghost from_gives = { λ octets p. point p ≡ octets };

    fn from(octets: [u8; 6]) -> AccessPoint {
        AccessPoint { octets }
    }
}

impl TryFrom<&[u8]> for AccessPoint {
    type Error = Fault;

    ghost try_from_gives = { λ octets r. MatchResult r (λ p. (length octets.now ≡ 6) × (point p ≡ octets.now)) (λ f. (length octets.now ≢ 6) × Refuses 6 0 0 f) };

    fn try_from(octets: &[u8]) -> Result<AccessPoint, Fault> {
        <[u8; 6]>::try_from(octets)
            .map(AccessPoint::from)
            .map_err(|_| Fault::OutOfBounds)
    }
}

impl AccessPoint {
    /// Its octets.
    pub fn octets(&self) -> &[u8]
        ensures { result.now ≡ point self.now }
    {
        &self.octets
    }
}
