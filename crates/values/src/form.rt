//! The forms of the values of the listed elements.

ghost use Rattle.std.specs.Prelude.{◌≡◌};
ghost use Rattle.values.specs.Forms.{form_of, has_form};

use crate::address::read_ip;
use crate::listed::Listed;

/// What a value has to be.
#[derive(Clone, Copy, PartialEq, Eq, Debug)]
pub enum Form {
    /// So many octets.
    Octets { least: usize, most: usize },
    /// An IP address of either version, with its form octet.
    Ip,
}

/// The form of the value of an element, if that is listed. Any octet may be asked for.
pub fn form_of(id: u8) -> Option<Form>
    ensures { result ≡ form_of id }
{
    Listed::try_from(id).ok().map(Listed::form)
}

impl Form {
    /// Whether a value has this form.
    pub fn admits(&self, value: &[u8]) -> bool
        ensures { result ≡ has_form self.now value.now }
    {
        match self {
            Form::Octets { least, most } => (*least..=*most).contains(&value.len()),
            Form::Ip => read_ip(value).is_some(),
        }
    }
}
