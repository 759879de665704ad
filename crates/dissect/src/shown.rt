//! What the value of an element says, in the words that an engineer reads.

use crate::causes::{reject_cause, rr_cause};
use crate::counted::Counted;
use crate::identity::Identity;
use crate::names::element_name;
use std::fmt;
use std::net::{Ipv4Addr, Ipv6Addr};
use values::address::{Address, read_ip};
use values::form::Form;
use values::listed::Listed;

/// What an element is, and what its value says.
#[derive(Clone, Copy)]
pub struct Meaning<'a> {
    // An octet and no `Listed`: any octet may stand there.
    pub id: u8,
    pub value: &'a [u8],
}

impl fmt::Display for Meaning<'_> {
    fn fmt<W: fmt::Write>(&self, f: &mut fmt::Formatter<W>) -> fmt::Result {
        let Ok(element) = Listed::try_from(self.id) else {
            return f.write_str("not listed");
        };
        f.write_str(element_name(element))?;
        let form = element.form();
        if form.admits(self.value) {
            write_value(element, self.value, f)
        } else {
            write_unfit(form, self.value, f)
        }
    }
}

// Why a value has not its form.
fn write_unfit<W: fmt::Write>(form: Form, value: &[u8], f: &mut fmt::Formatter<W>) -> fmt::Result {
    match (form, value) {
        (Form::Ip, [kind, octets @ ..]) if octets.len() == 4 || octets.len() == 16 => {
            let len = octets.len();
            write!(f, ", kind {kind:02x} with {len} octets is no address")
        }
        (Form::Ip, _) => write!(f, ", {} where 5 or 17 are right", Counted(value.len())),
        (Form::Octets { least, most }, _) => {
            write!(f, ", {} where ", Counted(value.len()))?;
            write_sizes(least, most, f)
        }
    }
}

fn write_sizes<W: fmt::Write>(least: usize, most: usize, f: &mut fmt::Formatter<W>) -> fmt::Result {
    if least < most {
        write!(f, "{least} to {most} are right")
    } else if most == 1 {
        f.write_str("1 is right")
    } else {
        write!(f, "{most} are right")
    }
}

// A value that has its form.
fn write_value<W: fmt::Write>(
    element: Listed,
    value: &[u8],
    f: &mut fmt::Formatter<W>,
) -> fmt::Result {
    match (element, value) {
        (Listed::MobileIdentity, [first, rest @ ..]) => write!(
            f,
            " {}",
            Identity {
                first: *first,
                rest
            }
        ),
        (Listed::ApRadioIdentity, [0, a, b, c, d, e, g]) => {
            write!(f, " {a:02x}:{b:02x}:{c:02x}:{d:02x}:{e:02x}:{g:02x}")
        }
        (Listed::ApRadioIdentity, [kind, ..]) => write!(f, " of unknown kind {kind}"),
        (Listed::GatewayIp | Listed::ControllerIp, address) => write_address(address, f),
        (Listed::GatewayName | Listed::ControllerName, name) => write_name(name, f),
        (Listed::Tu3907 | Listed::Tu3906, [high, low]) => {
            write!(f, " {} s", u16::from_be_bytes([*high, *low]))
        }
        (Listed::Port, [high, low]) => write!(f, " {}", u16::from_be_bytes([*high, *low])),
        (Listed::RegisterRejectCause, [cause]) => write!(f, " {cause}: {}", reject_cause(*cause)),
        (Listed::RrCause, [cause]) => write!(f, " {cause}: {}", rr_cause(*cause)),
        (
            Listed::RedirectionCounter
            | Listed::SapiId
            | Listed::EstablishmentCause
            | Listed::ServingTable
            | Listed::RegistrationIndicators,
            [n],
        ) => write!(f, " {n}"),
        // What an L3 Message says is of another protocol.
        _ => Ok(()),
    }
}

fn write_address<W: fmt::Write>(value: &[u8], f: &mut fmt::Formatter<W>) -> fmt::Result {
    match read_ip(value) {
        Some(Address::V4(octets)) => write!(f, " {}", Ipv4Addr::from(octets)),
        Some(Address::V6(octets)) => write!(f, " {}", Ipv6Addr::from(octets).hex_groups()),
        _ => Ok(()),
    }
}

// A name as text. What is no visible character of ASCII, and the backslash itself, is escaped.
fn write_name<W: fmt::Write>(name: &[u8], f: &mut fmt::Formatter<W>) -> fmt::Result {
    f.write_str(" ")?;
    for octet in name {
        match *octet {
            b'\\' => f.write_str("\\x5c")?,
            0x21..=0x7e => f.write_char(char::from(*octet))?,
            other => write!(f, "\\x{other:02x}")?,
        }
    }
    Ok(())
}
