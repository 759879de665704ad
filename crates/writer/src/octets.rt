//! Octets that are written over others.

ghost use Rattle.std.specs.Prelude.{◌≡◌, ◌+◌, ◌≤◌, length};
ghost use Rattle.writer.specs.Octets.{over};

/// Writes octets over those of the memory from `at` on. The ring has one like it: shared, it would be a public call that asks something.
pub(crate) fn write_at(memory: &mut [u8], at: usize, octets: &[u8])
    requires { at + length octets.now ≤ length memory.old }
    ensures { memory.new ≡ over memory.old at octets.now }
{
    let end = at + octets.len();
    memory[at..end].copy_from_slice(octets);
}
