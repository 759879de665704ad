//! Lengths within bounds.

ghost use Rattle.std.specs.Prelude.{◌<◌, ◌≤◌, MatchResult};
ghost use Rattle.layout.specs.Faults.{Refuses};
ghost use Rattle.values.specs.Bounds.{Between};

use layout::fault::Fault;

/// Refuses a length that is not from `least` to `most`.
pub fn check_len(len: usize, least: usize, most: usize) -> Result<(), Fault>
    ensures { MatchResult result (λ _. Between least most len) (λ f. (Between least most len → ⊥) × Refuses 6 0 0 f) }
{
    if (least..=most).contains(&len) {
        Ok(())
    } else {
        Err(Fault::OutOfBounds)
    }
}

/// Refuses a length below `least`.
pub fn check_least(len: usize, least: usize) -> Result<(), Fault>
    ensures { MatchResult result (λ _. least ≤ len) (λ f. (len < least) × Refuses 6 0 0 f) }
{
    check_len(len, least, usize::MAX)
}
