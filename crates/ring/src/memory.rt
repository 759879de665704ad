//! Memory for places: lent, or a carrier's own.

ghost use Rattle.std.specs.Prelude.{◌≡◌, ℕ, List, ◌+◌, ◌≤◌, length};
ghost use Rattle.writer.specs.Octets.{over};

/// Octets that can be read, and written over. How many there are stays.
pub trait Memory {
    /// The octets.
    ghost octets: { Self → List ℕ };

    /// How many octets there are.
    ghost size: { Self → ℕ };

    /// Which memory it is, whatever octets it has: a type cannot name a loan.
    ghost name: { Self → ℕ };

    /// All the octets.
    fn octets(&self) -> &[u8]
        ensures octets { result.now ≡ octets self.now }
        ensures size { length result.now ≡ size self.now };

    /// Writes octets over those from a place on.
    fn write(&mut self, at: usize, written: &[u8])
        requires { at + length written.now ≤ length (octets self.old) }
        ensures name { name self.new ≡ name self.old }
        ensures size { size self.new ≡ size self.old }
        ensures octets { octets self.new ≡ over (octets self.old) at written.now };
}

// Writes octets over those of a slice from a place on. The writer has one like it: shared, it would be a public call that asks something.
fn write_over(memory: &mut [u8], at: usize, written: &[u8])
    requires { at + length written.now ≤ length memory.old }
    ensures { memory.new ≡ over memory.old at written.now }
{
    memory[at..at + written.len()].copy_from_slice(written);
}

/// Memory that is lent.
impl<'a> Memory for &'a mut [u8] {
    ghost octets = { λ m. m.now };

    ghost size = { λ m. length m.now };

    ghost name = { λ m. m.ghost_name };

    fn octets(&self) -> &[u8] {
        self
    }

    fn write(&mut self, at: usize, written: &[u8]) {
        write_over(self, at, written);
    }
}

/// Memory of one's own.
impl<const N: usize> Memory for [u8; N] {
    ghost octets = { λ m. m };

    ghost size = { λ _. N };

    ghost name = { λ _. 0 };

    fn octets(&self) -> &[u8] {
        self
    }

    fn write(&mut self, at: usize, written: &[u8]) {
        write_over(&mut self[..], at, written);
    }
}
