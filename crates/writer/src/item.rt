//! An element that is to be written.

ghost use Rattle.std.specs.Prelude.{IsTrue};
ghost use Rattle.values.specs.Forms.{formed, identifier};

use crate::octets::write_at;
use layout::fault::Fault;
use values::listed::Listed;

/// An element that is listed, with a value of its form.
#[derive(Clone, Copy)]
pub(crate) struct Item<'a> {
    element: Listed,
    value: &'a [u8],
    ghost formed: { IsTrue (formed (identifier element) value.now) },
}

// Its methods are inlined into `OpenMessage::add`.
impl<'a> Item<'a> {
    ghost use Rattle.std.specs.Prelude.{◌≡◌, ◌+◌, ◌≤◌, true, false, length, MatchResult};
    ghost use Rattle.layout.specs.Elements.{element_octets};
    ghost use Rattle.layout.specs.Faults.{Refuses};
    ghost use Rattle.values.specs.Forms.{formed};
    ghost use Rattle.writer.specs.Items.{octets_of};
    ghost use Rattle.writer.specs.Octets.{over};

    /// The element with this identifier and value, which may be any octet and any value.
    #[inline(always)]
    pub(crate) fn new(id: u8, value: &'a [u8]) -> Result<Item<'a>, Fault>
        ensures { MatchResult result (λ i. (formed id value.now ≡ true) × (octets_of i ≡ element_octets id value.now)) (λ f. (formed id value.now ≡ false) × Refuses 6 0 0 f) }
    {
        match Listed::try_from(id) {
            Ok(element) if element.form().admits(value) => Ok(Item { element, value }),
            _ => Err(Fault::OutOfBounds),
        }
    }

    /// How many octets it takes.
    #[inline(always)]
    pub(crate) fn len(&self) -> usize
        ensures { result ≡ length (octets_of self.now) }
    {
        let len = self.value.len();
        if len < 128 { len + 2 } else { len + 3 }
    }

    /// Writes its octets over those of the memory from `at` on.
    #[inline(always)]
    pub(crate) fn write(&self, memory: &mut [u8], at: usize)
        requires short { length (octets_of self.now) ≤ 512 }
        requires room { at + length (octets_of self.now) ≤ length memory.old }
        ensures { memory.new ≡ over memory.old at (octets_of self.now) }
    {
        let len = self.value.len();
        let [.., high, low] = len.to_be_bytes();
        let id = u8::from(self.element);
        let short = [id, low];
        let long = [id, 128 + high, low];
        let head = if len < 128 { &short[..] } else { &long[..] };
        write_at(memory, at, head);
        write_at(memory, at + head.len(), self.value);
    }
}
