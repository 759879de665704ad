//! Why a call is refused.

ghost use Rattle.std.specs.Prelude.{◌≡◌, Some};
ghost use Rattle.layout.specs.Faults.{refusal, spot, words};

use std::error::Error;
use std::fmt;

/// What was wrong, one case for each rule that a call can break. The definition `refusal` gives each case's number, place and
/// element, whose identifier may be any octet.
#[derive(Clone, Copy, PartialEq, Eq, Debug)]
pub enum Fault {
    /// The message has fewer than 4 octets or more than 512.
    Size,
    /// The length indicator is not the number of octets after it.
    Indicator,
    /// Octet 2 is neither of the two protocol discriminators under skip indicator 0.
    Discriminator,
    /// The type is not one that is heard under the message's discriminator.
    Unheard,
    /// An element ends before its length or its value does.
    CutShort { place: usize, element: u8 },
    /// An element's length below 128 takes two octets.
    Overlong { place: usize, element: u8 },
    /// The type needs an element that is not there. The place is where the message ends.
    Missing { place: usize, element: u8 },
    /// The value of an element that the type uses is not of its form.
    Malformed { place: usize, element: u8 },
    /// An argument is outside the bounds that the call has for it.
    OutOfBounds,
    /// In its state the station does not take the call or hear the message.
    WrongState,
    /// The access point is on the exclude list.
    Excluded,
    /// The carrier has no place left for a message.
    NoPlace,
}

impl Fault {
    /// The refusal's number, 1 to 9.
    pub fn number(&self) -> u8
        ensures { result ≡ (refusal self.now).number }
    {
        match self {
            Fault::Size | Fault::Indicator => 1,
            Fault::Discriminator | Fault::Unheard => 2,
            Fault::CutShort { .. } | Fault::Overlong { .. } => 3,
            Fault::Missing { .. } => 4,
            Fault::Malformed { .. } => 5,
            Fault::OutOfBounds => 6,
            Fault::WrongState => 7,
            Fault::Excluded => 8,
            Fault::NoPlace => 9,
        }
    }

    /// The place in the message that the refusal speaks of, or 0.
    // No `Option`: an examiner's refusal has 0 where it speaks of no place.
    pub fn place(&self) -> usize
        ensures { result ≡ (refusal self.now).place }
    {
        match self {
            Fault::Discriminator => 2,
            Fault::Unheard => 3,
            _ => self.spot().map_or(0, |(place, _)| place),
        }
    }

    /// The identifier of the element that the refusal speaks of, or 0.
    // No `Option`: an examiner's refusal has 0 where it speaks of no element.
    pub fn element(&self) -> u8
        ensures { result ≡ (refusal self.now).element }
    {
        self.spot().map_or(0, |(_, element)| element)
    }

    // Where the element stands that the refusal speaks of, and its identifier.
    fn spot(&self) -> Option<(usize, u8)>
        ensures { result ≡ spot self.now }
    {
        match *self {
            Fault::CutShort { place, element }
            | Fault::Overlong { place, element }
            | Fault::Missing { place, element }
            | Fault::Malformed { place, element } => Some((place, element)),
            _ => None,
        }
    }
}

impl fmt::Display for Fault {
    ghost output = { λ fault. Some (words (refusal fault)) };

    fn fmt<W: fmt::Write>(&self, f: &mut fmt::Formatter<W>) -> fmt::Result {
        let number = self.number();
        let place = self.place();
        let element = self.element();
        write!(f, "refused {number} at {place} element {element}")
    }
}

impl Error for Fault {}
