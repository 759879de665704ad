//! Lists worked out by hand.

use tables::entry::Entry;
use tables::exclude::ExcludeList;
use tables::kept::KeptTable;
use values::access_point::AccessPoint;
use values::address::Address;

fn point(number: u8) -> AccessPoint {
    AccessPoint::from([0, 0x11, 0x22, 0x33, 0x44, number])
}

fn entry(number: u8, port: u16) -> Entry {
    Entry {
        key: point(number),
        gateway: Address::V4([192, 168, 11, 33]),
        controller: Address::V4([172, 16, 0, number]),
        port,
    }
}

fn port_at(table: &KeptTable, place: usize) -> Option<u16> {
    table.rows().get(place).map(|row| row.port)
}

#[test]
fn a_rewritten_entry_keeps_its_place(rt: HostRuntime) {
    let mut table = KeptTable::new();
    table.put(entry(1, 14001));
    table.put(entry(2, 14002));
    table.put(entry(1, 14003));
    assert_eq!(rt; port_at(&table, 0), Some(14003));
    assert_eq!(rt; port_at(&table, 1), Some(14002));
    assert_eq!(rt; port_at(&table, 2), None);
}

#[test]
fn the_seventeenth_entry_drops_the_oldest(rt: HostRuntime) {
    let mut table = KeptTable::new();
    for number in 0..17 {
        table.put(entry(number, 14000 + u16::from(number)));
    }
    assert!(rt; table.get(&point(0)).is_none());
    assert_eq!(rt; port_at(&table, 0), Some(14001));
    assert_eq!(rt; port_at(&table, 15), Some(14016));
    assert_eq!(rt; table.rows().len(), 16);
}

#[test]
fn an_entry_removed_and_put_again_is_the_newest(rt: HostRuntime) {
    let mut table = KeptTable::new();
    table.put(entry(1, 14001));
    table.put(entry(2, 14002));
    table.remove(&point(1));
    assert!(rt; table.get(&point(1)).is_none());
    table.put(entry(1, 14001));
    assert_eq!(rt; port_at(&table, 0), Some(14002));
    assert_eq!(rt; port_at(&table, 1), Some(14001));
}

#[test]
fn a_point_excluded_again_changes_nothing(rt: HostRuntime) {
    let mut list = ExcludeList::new();
    list.add(point(1));
    list.add(point(2));
    list.add(point(1));
    assert_eq!(rt; list.rows().len(), 2);
    assert!(rt; list.contains(&point(1)) && !list.contains(&point(3)));
    let rows = list.rows();
    assert!(rt; rows.len() == 2);
    assert!(rt; rows[0] == point(1));
}
