//! Rows found by their keys, in lists of any kind.

ghost use Rattle.std.specs.Prelude.{◌≡◌, ◌<◌, length, IfSome};
ghost use Rattle.tables.specs.Keyed.{place_of};

use crate::row::{Key, Row};

/// The place of the first row with the key.
pub fn find_row<R: Row>(rows: &[R], key: &R::Key) -> Option<usize>
    ensures within { IfSome result (λ i. i < length rows.now) }
    ensures is { result ≡ place_of R.Row.coded (R.Key.Key.code key.now) rows.now }
{
    rows.iter().position(|row| row.key().same(key))
}
