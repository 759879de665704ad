#![tactic(auto)]
//! Octets as hexadecimal text.

ghost use Rattle.std.specs.Prelude.{◌≡◌, alloc_error};
ghost use Rattle.text.specs.declared.LineError.TheVariants.{NoMemory};
ghost use Rattle.text.specs.Hex.{digit_value, octet_value};
ghost use Rattle.text.specs.Lines.{Says, error_text};

use std::alloc::{AllocError, AllocFailed, Global};
use std::error::Error;
use std::fmt;

/// Why a line gives no octets.
#[derive(Clone, Copy, Debug, PartialEq, Eq)]
pub enum LineError {
    /// The line is something else than octets.
    NotOctets,
    /// There is no memory for its octets.
    NoMemory(AllocError),
}

impl fmt::Display for LineError {
    ghost output = { error_text };

    fn fmt<W: fmt::Write>(&self, f: &mut fmt::Formatter<W>) -> fmt::Result {
        match self {
            LineError::NotOctets => f.write_str("not octets in hexadecimal"),
            LineError::NoMemory(_) => f.write_str("no memory for the octets"),
        }
    }
}

impl Error for LineError {}

impl<T: Drop> From<AllocFailed<T>> for LineError {
    ghost from_gives = { λ _ e. e ≡ NoMemory alloc_error };

    fn from(failed: AllocFailed<T>) -> LineError {
        LineError::NoMemory(AllocError::from(failed))
    }
}

/// The value of a hexadecimal digit of either case.
// `char::to_digit` is no plainer: it takes a char and answers a u32.
pub fn digit(b: u8) -> Option<u8>
    ensures { result ≡ digit_value b }
{
    match b {
        b'0'..=b'9' => Some(b - b'0'),
        b'A'..=b'F' => Some(b - b'A' + 10),
        b'a'..=b'f' => Some(b - b'a' + 10),
        _ => None,
    }
}

/// The octet that two digits make, the high one first.
pub fn octet(high: u8, low: u8) -> Option<u8>
    ensures { result ≡ octet_value high low }
{
    Some(digit(high)? * 16 + digit(low)?)
}

/// The octets that a line says, or `None` of a blank one: two adjacent digits each, with white space before, between and
/// after them, and then perhaps a comment that begins with `#`. A carriage return may end the line.
pub fn read_line(heap: Global, line: &[u8]) -> Result<Option<Vec<u8>>, LineError>
    ensures { Says line.now result }
{
    let mut octets = Vec::new(heap);
    let mut rest = line;
    loop {
        rest = match rest {
            [] | [b'#', ..] | [b'\r'] => break,
            [b' ' | b'\t', tail @ ..] => tail,
            [high, low, tail @ ..] => {
                octets.push(octet(*high, *low).ok_or(LineError::NotOctets)?)?;
                tail
            }
            [_] => return Err(LineError::NotOctets),
        };
    }
    if octets.is_empty() {
        return Ok(None);
    }
    Ok(Some(octets))
}

#[cfg(test)]
mod tests {
    use super::*;
    use std::test::Fail;

    #[test]
    fn reads_octets(rt: HostRuntime) -> Result<(), Fail> {
        let Some(octets) = read_line(rt.alloc(), b"\t00 0905fF # a comment\r")? else {
            return Err(Fail::new("no octets"));
        };
        assert_eq!(rt; octets.as_slice(), [0x00, 0x09, 0x05, 0xff].as_slice());
        Ok(())
    }

    #[test]
    fn tells_blank_lines(rt: HostRuntime) -> Result<(), Fail> {
        assert!(rt; matches!(read_line(rt.alloc(), b"")?, None));
        assert!(rt; matches!(read_line(rt.alloc(), b" \t\r")?, None));
        assert!(rt; matches!(read_line(rt.alloc(), b"# 00 01")?, None));
        Ok(())
    }

    #[test]
    fn tells_what_is_no_octets(rt: HostRuntime) -> Result<(), Fail> {
        assert!(rt; matches!(read_line(rt.alloc(), b"00 1"), Err(LineError::NotOctets)));
        assert!(rt; matches!(read_line(rt.alloc(), b"0 0"), Err(LineError::NotOctets)));
        assert!(rt; matches!(read_line(rt.alloc(), b"00\r01"), Err(LineError::NotOctets)));
        assert!(rt; matches!(read_line(rt.alloc(), b"0g"), Err(LineError::NotOctets)));
        Ok(())
    }
}
