//! The types of messages.

ghost use Rattle.std.specs.Prelude.{◌≡◌, Some, None, MatchResult, slice_index};
ghost use Rattle.layout.specs.declared.fault.Fault.TheVariants.{Unheard};
ghost use Rattle.message.specs.Types.{discriminator_of, heard_as};

use layout::fault::Fault;

/// The types that are heard.
#[derive(Clone, Copy, PartialEq, Eq, Debug)]
pub enum HeardType {
    RegisterAccept,
    RegisterRedirect,
    RegisterReject,
    Deregister,
    Release,
    DownlinkDirectTransfer,
    RequestAccept,
    RequestReject,
}

/// The protocol discriminator of a type: 0 for GA-RC, 1 for GA-CSR.
// An octet and no enum: its one use writes the octet itself.
pub fn discriminator(type_octet: u8) -> u8
    ensures { result ≡ discriminator_of type_octet }
{
    match type_octet {
        0..=63 | 116 => 0,
        _ => 1,
    }
}

/// The type that is heard with a discriminator and a type octet.
impl TryFrom<[u8; 2]> for HeardType {
    type Error = Fault;

    ghost try_from_gives = { λ octets r. MatchResult r (λ t. heard_as (slice_index octets 0) (slice_index octets 1) ≡ Some t) (λ f. (heard_as (slice_index octets 0) (slice_index octets 1) ≡ None) × (f ≡ Unheard)) };

    fn try_from(octets: [u8; 2]) -> Result<HeardType, Fault> {
        match octets {
            [0, 17] => Ok(HeardType::RegisterAccept),
            [0, 18] => Ok(HeardType::RegisterRedirect),
            [0, 19] => Ok(HeardType::RegisterReject),
            [0, 20] => Ok(HeardType::Deregister),
            [1, 64] => Ok(HeardType::Release),
            [1, 114] => Ok(HeardType::DownlinkDirectTransfer),
            [1, 129] => Ok(HeardType::RequestAccept),
            [1, 130] => Ok(HeardType::RequestReject),
            _ => Err(Fault::Unheard),
        }
    }
}
