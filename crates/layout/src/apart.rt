//! Taking a message apart: its header is right, and whole elements follow it.

ghost use Rattle.std.specs.Prelude.{◌≡◌, ◌≤◌, ◌++◌, length, take, OnOk};
ghost use Rattle.std.specs.List.{flat_map};
ghost use Rattle.layout.specs.Elements.{walk, fault_in, elements, part_octets, rest};
ghost use Rattle.layout.specs.Faults.{Answers};
ghost use Rattle.layout.specs.Layout.{header_fault, apart_fault};

use crate::cursor::{Cursor, HEADER_LEN};
use crate::elements::Elements;
use crate::fault::Fault;

/// Checks the size of a message, its length indicator and its discriminator.
pub fn check_header(message: &[u8]) -> Result<(), Fault>
    ensures { Answers (header_fault message.now) (λ _. 4 ≤ length message.now) result }
{
    let [high, low, discriminator, _, ..] = message else {
        return Err(Fault::Size);
    };
    if message.len() > 512 {
        return Err(Fault::Size);
    }
    if usize::from(u16::from_be_bytes([*high, *low])) + 2 != message.len() {
        return Err(Fault::Indicator);
    }
    if *discriminator > 1 {
        return Err(Fault::Discriminator);
    }
    Ok(())
}

/// Checks that whole elements follow the header, up to the end.
pub fn check_elements(message: &[u8]) -> Result<(), Fault>
    ensures { Answers (fault_in (walk message.now 4)) (λ _. Unit {0}) result }
{
    for step in Cursor::new(message, HEADER_LEN) {
        step?;
    }
    Ok(())
}

/// Takes a message apart into its elements. The type is not looked at, and neither is what an element means.
///
/// What comes back stands for the whole message: the elements, put together again behind the header, are its octets.
pub fn take_apart(message: &[u8]) -> Result<Elements<'_>, Fault>
    ensures answer { Answers (apart_fault message.now) (λ es. rest es ≡ elements message.now) result }
    ensures again { OnOk result (take 4 message.now ++ flat_map part_octets (elements message.now) ≡ message.now) }
{
    check_header(message)?;
    check_elements(message)?;
    Ok(Elements::of(message))
}
