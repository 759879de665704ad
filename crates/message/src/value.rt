//! The values of elements, read where they stand.

ghost use Rattle.std.specs.Prelude.{◌≡◌, ◌∷◌, length, Some, Option};
ghost use Rattle.layout.specs.Elements.{Part, seen};
ghost use Rattle.layout.specs.Faults.{Answers};
ghost use Rattle.values.specs.declared.form.Form.{Form};
ghost use Rattle.values.specs.declared.form.Form.TheVariants.{Octets, Ip};
ghost use Rattle.message.specs.Reading.{form_fault, number, start_of, value_of};
ghost use Rattle.values.specs.Values.{coded};

use crate::heard::L3Message;
use layout::element::Element;
use layout::fault::Fault;
use values::address::{Address, read_ip};
use values::name::Name;

/// The refusal of an element whose value has not its form.
fn malformed(element: Element<'_>) -> Fault
    ensures { result ≡ Fault.Malformed element.entry.place element.entry.id }
{
    Fault::Malformed {
        place: element.place,
        element: element.id,
    }
}

/// A value that an element can hold.
pub(crate) trait Value: Sized {
    /// The form that the value has to have.
    ghost form: { Form };

    /// The value of an element that is there.
    ghost held: { Option Part → Self };

    /// The value of an element, or the refusal of one that has not the form.
    fn of(element: Element<'_>) -> Result<Self, Fault>
        ensures { Answers (form_fault (Some form) element.entry.id (seen element.entry)) (λ v. held (Some (seen element.entry)) ≡ v) result };
}

// The octets of a value, exactly so many.
fn octets<const N: usize>(element: Element<'_>) -> Result<[u8; N], Fault>
    ensures { Answers (form_fault (Some (Octets N N)) element.entry.id (seen element.entry)) (λ octets. octets ≡ element.entry.value.now) result }
{
    let refused = malformed(element);
    <[u8; N]>::try_from(element.value).map_err(|_| refused)
}

// A number's size is no const parameter of its type, so one impl for both would be no plainer.
impl Value for u8 {
    ghost form = { Octets 1 1 };

    ghost held = { λ o. number (value_of o) };

    fn of(element: Element<'_>) -> Result<u8, Fault> {
        octets(element).map(u8::from_be_bytes)
    }
}

impl Value for u16 {
    ghost form = { Octets 2 2 };

    ghost held = { λ o. number (value_of o) };

    fn of(element: Element<'_>) -> Result<u16, Fault> {
        octets(element).map(u16::from_be_bytes)
    }
}

impl Value for L3Message {
    ghost form = { Octets 1 251 };

    ghost held = { λ o. record { start = start_of o; len = length (value_of o) } };

    fn of(element: Element<'_>) -> Result<L3Message, Fault> {
        match element.value.len() {
            len @ 1..=251 => Ok(L3Message {
                start: element.start,
                len,
            }),
            _ => Err(malformed(element)),
        }
    }
}

/// The address in an IP element.
pub(crate) fn ip_of(element: Element<'_>) -> Result<Address, Fault>
    ensures { Answers (form_fault (Some Ip) element.entry.id (seen element.entry)) (λ a. coded a ≡ element.entry.value.now) result }
{
    read_ip(element.value).ok_or(malformed(element))
}

/// The address in a name's element.
pub(crate) fn name_of(element: Element<'_>) -> Result<Address, Fault>
    ensures { Answers (form_fault (Some (Octets 3 64)) element.entry.id (seen element.entry)) (λ a. coded a ≡ 0 ∷ element.entry.value.now) result }
{
    let refused = malformed(element);
    Name::try_from(element.value)
        .map(Address::Named)
        .map_err(|_| refused)
}
