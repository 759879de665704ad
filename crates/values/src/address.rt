//! Addresses of gateways and controllers.

ghost use Rattle.std.specs.Prelude.{◌≡◌, is_some, IfSome};
ghost use Rattle.values.specs.Forms.{is_ip};
ghost use Rattle.values.specs.Values.{coded};

use crate::name::Name;

/// An address: an IP address of either version, or a name. Two are equal where their forms and octets are.
#[derive(Clone, Copy, PartialEq, Eq, Debug)]
pub enum Address {
    V4([u8; 4]),
    V6([u8; 16]),
    Named(Name),
}

/// The IP address that a value is, by its form and size together.
pub fn read_ip(value: &[u8]) -> Option<Address>
    ensures test { is_some result ≡ is_ip value.now }
    ensures is { IfSome result (λ a. coded a ≡ value.now) }
{
    match value {
        [0x21, octets @ ..] if octets.len() == 4 => {
            <[u8; 4]>::try_from(octets).ok().map(Address::V4)
        }
        [0x57, octets @ ..] if octets.len() == 16 => {
            <[u8; 16]>::try_from(octets).ok().map(Address::V6)
        }
        _ => None,
    }
}
