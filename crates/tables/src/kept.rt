//! The kept table.

ghost use Rattle.tables.specs.Keyed.{Apart};
ghost use Rattle.tables.specs.Kept.{entries_in, keys};

use crate::entry::Entry;
use crate::rows::Rows;
use values::access_point::AccessPoint;
use values::address::Address;

/// Up to 16 entries, no two of one access point.
#[derive(Clone, Copy)]
pub struct KeptTable {
    rows: Rows<Entry, 16>,
    ghost distinct: { Apart (keys (entries_in rows)) },
}

impl KeptTable {
    ghost use Rattle.std.specs.Prelude.{◌≡◌, ◌≤◌, [], map, length, Some, None};
    ghost use Rattle.std.specs.Option.{option_map};
    ghost use Rattle.values.specs.Values.{point};
    ghost use Rattle.tables.specs.Keyed.{Apart, looked_up, put_in, take_out};
    ghost use Rattle.tables.specs.Kept.{entered, keys};
    ghost use Rattle.tables.specs.Listed.{kept_rows};

    /// A table with no entry.
    pub fn new() -> KeptTable
        ensures { kept_rows result ≡ [] }
    {
        let nowhere = Address::V4([0; 4]);
        let blank = Entry {
            key: AccessPoint::from([0; 6]),
            gateway: nowhere,
            controller: nowhere,
            port: 0,
        };
        KeptTable {
            rows: Rows::new(blank),
        }
    }

    /// Keeps an entry: in the place of the one with its key, or last, where the oldest of 16 goes.
    pub fn put(&mut self, entry: Entry)
        ensures rows { kept_rows self.new ≡ put_in (λ k. k.key) (entered entry) (kept_rows self.old) }
        ensures there { looked_up (λ k. k.key) (point entry.key) (kept_rows self.new) ≡ Some (entered entry) }
    {
        self.rows.put(entry);
    }

    /// Lets go of the entry with the key, if there is one.
    pub fn remove(&mut self, key: &AccessPoint)
        ensures rows { kept_rows self.new ≡ take_out (λ k. k.key) (point key.now) (kept_rows self.old) }
        ensures gone { looked_up (λ k. k.key) (point key.now) (kept_rows self.new) ≡ None }
    {
        self.rows.take_out(key);
    }

    /// The entry with the key.
    pub fn get(&self, key: &AccessPoint) -> Option<Entry>
        ensures { option_map entered result ≡ looked_up (λ k. k.key) (point key.now) (kept_rows self.now) }
    {
        self.rows.get(key)
    }

    /// The entries, the oldest first.
    // The exclude list has a call like it: a shared one would be no plainer, since what each promises differs.
    pub fn rows(&self) -> &[Entry]
        ensures is { map entered result.now ≡ kept_rows self.now }
        ensures most { length result.now ≤ 16 }
        ensures distinct { Apart (keys (kept_rows self.now)) }
    {
        self.rows.as_slice()
    }
}
