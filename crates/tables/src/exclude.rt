//! The exclude list.

ghost use Rattle.tables.specs.Excluded.{points_in};
ghost use Rattle.tables.specs.Keyed.{Apart};

use crate::rows::Rows;
use values::access_point::AccessPoint;

/// Up to 16 access points that a station keeps away from, none twice.
#[derive(Clone, Copy)]
pub struct ExcludeList {
    rows: Rows<AccessPoint, 16>,
    ghost distinct: { Apart (points_in rows) },
}

impl ExcludeList {
    ghost use Rattle.std.specs.Prelude.{◌≡◌, ◌≤◌, true, [], map, length};
    ghost use Rattle.values.specs.Values.{point as point_code};
    ghost use Rattle.tables.specs.Keyed.{Apart, add_in, has};
    ghost use Rattle.tables.specs.Listed.{excluded_rows};

    /// A list with no access point.
    pub fn new() -> ExcludeList
        ensures { excluded_rows result ≡ [] }
    {
        ExcludeList {
            rows: Rows::new(AccessPoint::from([0; 6])),
        }
    }

    /// Adds an access point, unless it is there; the oldest of 16 goes.
    pub fn add(&mut self, point: AccessPoint)
        ensures rows { excluded_rows self.new ≡ add_in (λ p. p) (point_code point) (excluded_rows self.old) }
        ensures there { has (λ p. p) (point_code point) (excluded_rows self.new) ≡ true }
    {
        self.rows.add(point);
    }

    /// Whether an access point is on the list.
    pub fn contains(&self, point: &AccessPoint) -> bool
        ensures { result ≡ has (λ p. p) (point_code point.now) (excluded_rows self.now) }
    {
        self.rows.has(point)
    }

    /// The access points, the oldest first.
    // The kept table has a call like it: a shared one would be no plainer, since what each promises differs.
    pub fn rows(&self) -> &[AccessPoint]
        ensures is { map point_code result.now ≡ excluded_rows self.now }
        ensures most { length result.now ≤ 16 }
        ensures distinct { Apart (excluded_rows self.now) }
    {
        self.rows.as_slice()
    }
}
