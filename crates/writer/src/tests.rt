//! Octets worked out by hand.

use crate::writing::OpenMessage;

#[test]
fn a_keep_alive_has_no_element(rt: HostRuntime) {
    let mut memory = [0xEE; 512];
    let closed = OpenMessage::open(&mut memory, 116).close();
    assert!(rt; closed.octets() == [0x00, 0x02, 0x00, 0x74].as_slice());
}

#[test]
fn a_direct_transfer_carries_l3_and_sapi(rt: HostRuntime) {
    let mut memory = [0xEE; 512];
    let mut open = OpenMessage::open(&mut memory, 112);
    let l3 = open.add(26, &[0x05, 0x08]);
    let sapi = open.add(49, &[0x00]);
    let closed = open.close();
    assert!(rt; l3.is_ok() && sapi.is_ok());
    assert!(rt;
        closed.octets()
            == [
                0x00, 0x09, 0x01, 0x70, 0x1A, 0x02, 0x05, 0x08, 0x31, 0x01, 0x00,
            ]
            .as_slice()
    );
}

#[test]
fn an_unlisted_or_missized_element_is_refused(rt: HostRuntime) {
    let mut memory = [0xEE; 512];
    let mut open = OpenMessage::open(&mut memory, 112);
    let unlisted = open.add(2, &[0x00]);
    let missized = open.add(49, &[0x00, 0x00]);
    let closed = open.close();
    assert!(rt; unlisted.is_err() && missized.is_err());
    assert!(rt; closed.octets() == [0x00, 0x02, 0x01, 0x70].as_slice());
}
