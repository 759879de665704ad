//! Mobile identities as text.

use crate::hex::Hex;
use std::fmt;

/// A mobile identity: the first octet has the kind, whether the number of digits is odd, and the first digit.
#[derive(Clone, Copy)]
pub struct Identity<'a> {
    pub first: u8,
    pub rest: &'a [u8],
}

impl fmt::Display for Identity<'_> {
    fn fmt<W: fmt::Write>(&self, f: &mut fmt::Formatter<W>) -> fmt::Result {
        match self.first & 7 {
            0 => return f.write_str("of no kind"),
            1 => f.write_str("IMSI ")?,
            2 => f.write_str("IMEI ")?,
            3 => f.write_str("IMEISV ")?,
            4 if self.rest.is_empty() => return f.write_str("TMSI/P-TMSI with no octets"),
            4 => return write!(f, "TMSI/P-TMSI {}", Hex(self.rest)),
            5 => return f.write_str("TMGI"),
            kind => return write!(f, "of unknown kind {kind}"),
        }
        self.write_digits(f)
    }
}

impl Identity<'_> {
    // The digits: the high half of the first octet, then the low half of each octet before its high half. Of an even
    // number of digits the last half octet is a filler.
    fn write_digits<W: fmt::Write>(&self, f: &mut fmt::Formatter<W>) -> fmt::Result {
        let odd = self.first & 8 != 0;
        if self.rest.is_empty() && !odd {
            return f.write_str("with no digits");
        }
        let mut waiting = self.first >> 4;
        for octet in self.rest {
            write!(f, "{waiting:x}{:x}", *octet & 15)?;
            waiting = *octet >> 4;
        }
        if odd {
            write!(f, "{waiting:x}")
        } else {
            Ok(())
        }
    }
}
