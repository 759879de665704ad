//! Why a message is refused, in the words that an engineer reads.

ghost use Rattle.std.specs.Prelude.{◌≡◌, ◌+◌, ◌*◌, ◌%◌};

use crate::counted::Counted;
use layout::fault::Fault;
use std::fmt;

/// The refusal of a message with these octets.
#[derive(Clone, Copy)]
pub struct Refusal<'a> {
    pub fault: Fault,
    pub octets: &'a [u8],
}

impl fmt::Display for Refusal<'_> {
    fn fmt<W: fmt::Write>(&self, f: &mut fmt::Formatter<W>) -> fmt::Result {
        write!(f, "{} (", self.fault)?;
        let octets = self.octets;
        match self.fault {
            Fault::Size => write!(f, "{}, a message has 4 to 512", Counted(octets.len()))?,
            Fault::Indicator => write_indicator(octets, f)?,
            Fault::Discriminator => write_discriminator(octets, f)?,
            Fault::CutShort { place, .. } => write_cut_short(octets_from(octets, place), f)?,
            Fault::Overlong { place, .. } => write_overlong(octets_from(octets, place), f)?,
            _ => f.write_str("no fault of the layout")?,
        }
        f.write_str(")")
    }
}

// The octets from a place on.
fn octets_from(octets: &[u8], place: usize) -> &[u8] {
    octets.get(place..).unwrap_or(&[])
}

fn write_indicator<W: fmt::Write>(octets: &[u8], f: &mut fmt::Formatter<W>) -> fmt::Result {
    let [high, low, rest @ ..] = octets else {
        return Ok(());
    };
    let says = u16::from_be_bytes([*high, *low]);
    let follow = rest.len();
    write!(
        f,
        "the length indicator says {says}, {follow} octets follow it"
    )
}

fn write_discriminator<W: fmt::Write>(octets: &[u8], f: &mut fmt::Formatter<W>) -> fmt::Result {
    let [_, _, octet, ..] = octets else {
        return Ok(());
    };
    write!(f, "octet 2 is {octet:02x}, neither GA-RC nor GA-CSR")
}

// An element that the message ends within.
fn write_cut_short<W: fmt::Write>(element: &[u8], f: &mut fmt::Formatter<W>) -> fmt::Result {
    match element {
        [] | [_] => f.write_str("cut short: no length"),
        [_, says @ 0..=127, rest @ ..] => write_left(usize::from(*says), rest.len(), f),
        [_, _] => f.write_str("cut short: half of a length"),
        [_, high, low, rest @ ..] => write_left(wide(*high, *low), rest.len(), f),
    }
}

fn write_left<W: fmt::Write>(says: usize, left: usize, f: &mut fmt::Formatter<W>) -> fmt::Result {
    let are = if left == 1 { "is" } else { "are" };
    write!(
        f,
        "cut short: the length says {}, {left} {are} left",
        Counted(says)
    )
}

fn write_overlong<W: fmt::Write>(element: &[u8], f: &mut fmt::Formatter<W>) -> fmt::Result {
    let [_, high, low, ..] = element else {
        return Ok(());
    };
    write!(
        f,
        "a length of {} below 128 in two octets",
        wide(*high, *low)
    )
}

// The length in two octets, whose top bit only says that there are two.
fn wide(high: u8, low: u8) -> usize
    ensures { result ≡ high % 128 * 256 + low }
{
    usize::from(u16::from_be_bytes([high % 128, low]))
}
