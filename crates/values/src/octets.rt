//! A number of octets within bounds.

ghost use Rattle.std.specs.Prelude.{◌≤◌};

use crate::bounds::check_len;
use layout::fault::Fault;

/// From `LEAST` to `MOST` octets, in an array with a length: the library has no heap.
#[derive(Clone, Copy, Debug)]
pub struct Octets<const LEAST: usize, const MOST: usize> {
    octets: [u8; MOST],
    len: usize,
    ghost least: { LEAST ≤ len },
    ghost most: { len ≤ MOST },
}

impl<const LEAST: usize, const MOST: usize> TryFrom<&[u8]> for Octets<LEAST, MOST> {
    ghost use Rattle.std.specs.Prelude.{◌≡◌, length, MatchResult};
    ghost use Rattle.layout.specs.Faults.{Refuses};
    ghost use Rattle.values.specs.Bounds.{Between};
    ghost use Rattle.values.specs.Octets.{octets_of};

    type Error = Fault;

    ghost try_from_gives = { λ octets r. MatchResult r (λ o. Between LEAST MOST (length octets.now) × (octets_of o ≡ octets.now)) (λ f. (Between LEAST MOST (length octets.now) → ⊥) × Refuses 6 0 0 f) };

    fn try_from(octets: &[u8]) -> Result<Octets<LEAST, MOST>, Fault> {
        let len = octets.len();
        check_len(len, LEAST, MOST)?;
        let mut own = [0; MOST];
        own[..len].copy_from_slice(octets);
        Ok(Octets { octets: own, len })
    }
}

impl<const LEAST: usize, const MOST: usize> Octets<LEAST, MOST> {
    ghost use Rattle.std.specs.Prelude.{◌≡◌};
    ghost use Rattle.values.specs.Octets.{octets_of};

    /// The octets themselves.
    pub fn octets(&self) -> &[u8]
        ensures { result.now ≡ octets_of self.now }
    {
        &self.octets[..self.len]
    }
}

// By hand: a derive would compare the octets behind the length too.
impl<const LEAST: usize, const MOST: usize> PartialEq for Octets<LEAST, MOST> {
    ghost use Rattle.std.specs.Prelude.{nat_eq};
    ghost use Rattle.std.specs.Ordering.{on};
    ghost use Rattle.std.specs.Cmp.{partial_equiv_from_equiv};
    ghost use Rattle.std.specs.Cmp.Lexicographic.{pointwise, on_texts_equal};
    ghost use Rattle.values.specs.Octets.{octets_of};

    ghost eq = { on octets_of (pointwise nat_eq) };

    ghost laws = { partial_equiv_from_equiv (on_texts_equal octets_of) };

    fn eq(&self, other: &Octets<LEAST, MOST>) -> bool {
        self.octets() == other.octets()
    }
}

impl<const LEAST: usize, const MOST: usize> Eq for Octets<LEAST, MOST> {
    ghost use Rattle.std.specs.Cmp.Lexicographic.{on_texts_equal};
    ghost use Rattle.values.specs.Octets.{octets_of};

    ghost laws = { on_texts_equal octets_of };
}
