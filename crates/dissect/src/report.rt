//! What is printed of a message.

use crate::hex::Hex;
use crate::names::type_name;
use crate::refusals::Refusal;
use crate::shown::Meaning;
use layout::apart::take_apart;
use layout::element::Element;
use layout::elements::Elements;
use std::fmt;

/// A message with its number: its elements, or why it is refused.
#[derive(Clone, Copy)]
pub struct Report<'a> {
    pub number: u64,
    pub octets: &'a [u8],
}

impl fmt::Display for Report<'_> {
    fn fmt<W: fmt::Write>(&self, f: &mut fmt::Formatter<W>) -> fmt::Result {
        let number = self.number;
        let octets = self.octets;
        write!(f, "message {number}: ")?;
        match take_apart(octets) {
            Ok(elements) => {
                write_heading(octets, f)?;
                write_elements(elements, f)
            }
            Err(fault) => writeln!(f, "{}", Refusal { fault, octets }),
        }
    }
}

fn write_heading<W: fmt::Write>(octets: &[u8], f: &mut fmt::Formatter<W>) -> fmt::Result {
    let size = octets.len();
    let [_, _, discriminator, kind, ..] = octets else {
        return Ok(());
    };
    let name = type_name(*discriminator, *kind).unwrap_or("type not known");
    writeln!(
        f,
        "{size} octets discriminator {discriminator} type {kind} ({name})"
    )
}

fn write_elements<W: fmt::Write>(elements: Elements<'_>, f: &mut fmt::Formatter<W>) -> fmt::Result {
    for element in elements {
        write_element(element, f)?;
    }
    Ok(())
}

fn write_element<W: fmt::Write>(element: Element<'_>, f: &mut fmt::Formatter<W>) -> fmt::Result {
    let Element {
        id,
        place,
        value,
        ..
    } = element;
    let size = value.len();
    write!(f, "  at {place} element {id} length {size} value ")?;
    if size > 0 {
        write!(f, "{} ", Hex(value))?;
    }
    writeln!(f, "({})", Meaning { id, value })
}
