//! Numbers of octets.

use std::fmt;

/// A number of octets.
#[derive(Clone, Copy)]
pub struct Counted(pub usize);

impl fmt::Display for Counted {
    fn fmt<W: fmt::Write>(&self, f: &mut fmt::Formatter<W>) -> fmt::Result {
        let n = self.0;
        if n == 1 {
            f.write_str("1 octet")
        } else {
            write!(f, "{n} octets")
        }
    }
}
