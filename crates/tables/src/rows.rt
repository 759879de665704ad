//! Rows of one kind in an array.

ghost use Rattle.std.specs.Prelude.{◌≡◌, ◌≤◌, ⊤};

use crate::lookup::find_row;
use crate::row::Row;
use std::alloc::AllocError;

/// Up to `N` rows, the oldest first. What stands in the other places does not count.
// An array with its length: there is no heap, and the lists are `Copy`, which an `ArrayVec` is not.
pub(crate) struct Rows<R, const N: usize> {
    places: [R; N],
    len: usize,
    ghost within: { len ≤ N },
}

// No derive copies a struct with a type parameter that has a ghost field.
impl<R: Copy, const N: usize> Copy for Rows<R, N> {}

impl<R: Copy, const N: usize> Clone for Rows<R, N> {
    ghost is_clone = { λ r s. s ≡ r };

    ghost is_infallible = { λ _. ⊤ };

    fn clone(&self) -> Result<Rows<R, N>, AllocError> {
        Ok(*self)
    }
}

impl<R: Row + Copy, const N: usize> Rows<R, N> {
    ghost use Rattle.std.specs.Prelude.{◌≡◌, ◌+◌, ◌<◌, ◌≤◌, [], ◌∷◌, ◌++◌, length, IfSome, slice_set};
    ghost use Rattle.std.specs.List.{remove};
    ghost use Rattle.tables.specs.Held.{held};
    ghost use Rattle.tables.specs.Keyed.{has, looked_up, place_of, take_out};

    /// No rows; every place is filled with `blank`, which does not count.
    pub(crate) fn new(blank: R) -> Rows<R, N>
        ensures { held result ≡ [] }
    {
        Rows {
            places: [blank; N],
            len: 0,
        }
    }

    /// These rows.
    pub(crate) fn of(rows: &[R], blank: R) -> Rows<R, N>
        requires { length rows.now ≤ N }
        ensures { held result ≡ rows.now }
    {
        let len = rows.len();
        let mut places = [blank; N];
        places[..len].copy_from_slice(rows);
        Rows { places, len }
    }

    /// The rows.
    pub(crate) fn as_slice(&self) -> &[R]
        ensures is { result.now ≡ held self.now }
        ensures most { length result.now ≤ N }
    {
        &self.places[..self.len]
    }

    /// The place of the row with the key.
    pub(crate) fn find(&self, key: &R::Key) -> Option<usize>
        ensures within { IfSome result (λ i. i < length (held self.now)) }
        ensures is { result ≡ place_of R.Row.coded (R.Key.Key.code key.now) (held self.now) }
    {
        find_row(self.as_slice(), key)
    }

    /// Whether there is a row with the key.
    pub(crate) fn has(&self, key: &R::Key) -> bool
        ensures { result ≡ has R.Row.coded (R.Key.Key.code key.now) (held self.now) }
    {
        self.find(key).is_some()
    }

    /// The row with the key.
    pub(crate) fn get(&self, key: &R::Key) -> Option<R>
        ensures { result ≡ looked_up R.Row.coded (R.Key.Key.code key.now) (held self.now) }
    {
        let rows = self.as_slice();
        self.find(key).map(|place| rows[place])
    }

    /// Writes a row over the one at a place, which is lent for it.
    fn rewrite(&mut self, place: usize, row: R)
        requires { place < length (held self.old) }
        ensures { held self.new ≡ slice_set (held self.old) place row }
    {
        let slot = &mut self.places[place];
        *slot = row;
    }

    /// Adds a row last.
    fn push(&mut self, row: R)
        requires { length (held self.old) < N }
        ensures { held self.new ≡ held self.old ++ row ∷ [] }
    {
        self.places[self.len] = row;
        self.len += 1;
    }

    /// Takes the row at a place out: those behind it move forward by one.
    fn remove(&mut self, place: usize)
        requires { place < length (held self.old) }
        ensures { held self.new ≡ remove (held self.old) place }
    {
        self.places.copy_within(place + 1..self.len, place);
        self.len -= 1;
    }

    /// Takes the row with the key out, if there is one.
    pub(crate) fn take_out(&mut self, key: &R::Key)
        ensures { held self.new ≡ take_out R.Row.coded (R.Key.Key.code key.now) (held self.old) }
    {
        if let Some(place) = self.find(key) {
            self.remove(place);
        }
    }
}

// Lists of 16, which drop their oldest row for another one.
impl<R: Row + Copy> Rows<R, 16> {
    ghost use Rattle.std.specs.Prelude.{◌≡◌};
    ghost use Rattle.tables.specs.Held.{held};
    ghost use Rattle.tables.specs.Keyed.{add_in, appended, put_in};

    /// Adds a row last; of 16, the oldest goes.
    fn append(&mut self, row: R)
        ensures { held self.new ≡ appended row (held self.old) }
    {
        if self.len == 16 {
            self.remove(0);
        }
        self.push(row);
    }

    /// Puts a row in the place of the one with its key, or last.
    pub(crate) fn put(&mut self, row: R)
        ensures { held self.new ≡ put_in R.Row.coded row (held self.old) }
    {
        match self.find(row.key()) {
            Some(place) => self.rewrite(place, row),
            None => self.append(row),
        }
    }

    /// Adds a row last, unless its key is there.
    pub(crate) fn add(&mut self, row: R)
        ensures { held self.new ≡ add_in R.Row.coded row (held self.old) }
    {
        if !self.has(row.key()) {
            self.append(row);
        }
    }
}
