//! One run of acts over every carrier.

ghost use Rattle.std.specs.Prelude.{◌≡◌};

use carrier::acts::connect;
use carrier::carrying::Carrier;
use carrier::connection::Connection;
use carrier::undone::Undone;
use layout::fault::Fault;
use ring::lent::Ring;
use ring::places::Places;
use slots::eight::Slots;
use std::test::Fail;
use tables::addresses::AddressList;
use values::address::Address;

const GATEWAY: Address = Address::V4([192, 168, 11, 33]);

const CONTROLLER: Address = Address::V4([172, 16, 0, 193]);

const CONNECTION: Connection = Connection {
    controller: CONTROLLER,
    port: 14001,
};

// How many places slots have, whoever made them: the type says it.
fn places_of(slots: &Slots) -> usize
    ensures { result ≡ 8 }
{
    slots.places()
}

// How many places are free in a carrier of a kind that is not known: no more messages wait than there are places, as its questions promise.
fn free_in(carrier: &dyn Carrier) -> usize {
    carrier.places() - carrier.waiting()
}

// What a run showed.
#[derive(Clone, Copy, PartialEq, Eq, Debug)]
struct Seen {
    unconnected: bool,
    filled: usize,
    taken: [usize; 3],
    filled_again: usize,
    rest: [usize; 9],
    waiting: usize,
}

// Sends messages of 4 to 15 octets, and says how many were accepted.
fn fill<C: Carrier>(carrier: &mut C) -> usize {
    let octets = [7; 16];
    (4..16)
        .filter(|len| carrier.send(&octets[..*len]).is_ok())
        .count()
}

// Takes as many messages as there are lengths to fill in.
fn take_each<C: Carrier>(
    carrier: &mut C,
    memory: &mut [u8],
    lengths: &mut [usize],
) -> Result<(), Fault> {
    for length in lengths.iter_mut() {
        *length = carrier.take(memory)?;
    }
    Ok(())
}

fn drive<C: Carrier>(carrier: &mut C) -> Result<Seen, Fault> {
    let mut memory = [0; 512];
    let unconnected = carrier.send(&[0; 4]).is_ok();
    let _connected = connect(carrier, &GATEWAY, &CONNECTION);
    let filled = fill(carrier);
    let mut taken = [0; 3];
    take_each(carrier, &mut memory, &mut taken)?;
    let filled_again = fill(carrier);
    carrier.drop_tunnel();
    let mut rest = [0; 9];
    take_each(carrier, &mut memory, &mut rest)?;
    Ok(Seen {
        unconnected,
        filled,
        taken,
        filled_again,
        rest,
        waiting: (*carrier).waiting(),
    })
}

const OF_EIGHT: Seen = Seen {
    unconnected: false,
    filled: 8,
    taken: [4, 5, 6],
    filled_again: 3,
    rest: [7, 8, 9, 10, 11, 4, 5, 6, 0],
    waiting: 0,
};

const OF_ONE: Seen = Seen {
    unconnected: false,
    filled: 1,
    taken: [4, 0, 0],
    filled_again: 1,
    rest: [4, 0, 0, 0, 0, 0, 0, 0, 0],
    waiting: 0,
};

#[test]
fn a_ring_and_slots_of_eight_do_the_same(rt: HostRuntime) -> Result<(), Fail> {
    let mut memory = [0xEE; 4112];
    let mut ring = Ring::new(
        &mut memory,
        AddressList::try_from([CONTROLLER, GATEWAY].as_slice())?,
    );
    let mut slots = Slots::new(AddressList::try_from([].as_slice())?);
    assert_eq!(rt; places_of(&slots), 8);
    assert_eq!(rt; free_in(&slots), 8);
    assert_eq!(rt; drive(&mut ring)?, OF_EIGHT);
    assert_eq!(rt; drive(&mut slots)?, OF_EIGHT);
    let mut lent = &mut slots;
    assert_eq!(rt; drive(&mut lent)?, OF_EIGHT);
    Ok(())
}

#[test]
fn a_ring_of_one_place_is_filled_and_emptied(rt: HostRuntime) -> Result<(), Fail> {
    let mut memory = [0xEE; 1027];
    let mut ring = Ring::new(
        &mut memory,
        AddressList::try_from([CONTROLLER, GATEWAY].as_slice())?,
    );
    assert_eq!(rt; drive(&mut ring)?, OF_ONE);
    Ok(())
}

#[test]
fn nothing_is_sent_where_nothing_answers(rt: HostRuntime) -> Result<(), Fail> {
    let mut memory = [0xEE; 514];
    let mut ring = Ring::new(&mut memory, AddressList::try_from([GATEWAY].as_slice())?);
    let mut slots = Slots::new(AddressList::try_from([CONTROLLER].as_slice())?);
    assert_eq!(rt; drive(&mut ring)?.filled, 0);
    assert!(rt; ring.tunnel().is_none());
    assert_eq!(rt; drive(&mut slots)?.filled, 0);
    Ok(())
}

#[test]
fn three_places_of_memory_for_eight(rt: HostRuntime) {
    let mut memory = [0xEE; 4112];
    let mut places: Places<&mut [u8]> = Places {
        memory: &mut memory,
        places: 3,
        head: 0,
        count: 0,
    };
    let put = [
        places.offer(&[7; 4]),
        places.offer(&[8; 512]),
        places.offer(&[9; 5]),
        places.offer(&[7; 4]),
    ];
    assert_eq!(rt; put, [Ok(()), Ok(()), Ok(()), Err(Undone::NoPlace)]);
    assert_eq!(rt; places.len(), 3);
    assert_eq!(rt; places.size(), 3);
}
