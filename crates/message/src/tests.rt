//! Octets worked out by hand.

use crate::heard::Heard;
use crate::reading::read;
use std::test::Fail;

fn refused(message: &[u8], number: u8, place: usize, element: u8) -> Result<(), Fail> {
    match read(message) {
        Ok(_) => Err(Fail::new("it was read")),
        Err(fault) => {
            if fault.number() != number {
                return Err(Fail::new("another number"));
            }
            if fault.place() != place {
                return Err(Fail::new("another place"));
            }
            if fault.element() != element {
                return Err(Fail::new("another element"));
            }
            Ok(())
        }
    }
}

#[test]
fn refusals_name_number_place_and_element() -> Result<(), Fail> {
    refused(&[0x00, 0x02, 0x01], 1, 0, 0)?;
    refused(&[0x00, 0x02, 0x10, 0x11], 2, 2, 0)?;
    refused(&[0x00, 0x02, 0x01, 0x11], 2, 3, 0)?;
    refused(&[0x00, 0x05, 0x01, 0x40, 0x1D, 0x02, 0x00], 3, 4, 29)?;
    refused(&[0x00, 0x02, 0x01, 0x40], 4, 4, 29)?;
    refused(&[0x00, 0x06, 0x01, 0x40, 0x1D, 0x02, 0x00, 0x00], 5, 4, 29)
}

#[test]
fn a_message_may_have_512_octets() -> Result<(), Fail> {
    let mut message = [0; 513];
    message[0] = 0x01;
    message[1] = 0xFE;
    message[2] = 0x02;
    refused(&message[0..512], 2, 2, 0)?;
    message[1] = 0xFF;
    refused(&message, 1, 0, 0)
}

#[test]
fn an_accept_brings_its_timer(rt: HostRuntime) -> Result<(), Fail> {
    let heard = read(&[0x00, 0x06, 0x00, 0x11, 0x16, 0x02, 0x00, 0x1E])?;
    assert_eq!(rt;
        heard,
        Heard::RegisterAccept {
            tu3906: 30,
            serving_table: None,
        }
    );
    Ok(())
}
