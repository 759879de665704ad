ghost use Rattle.std.specs.Prelude.{◌≡◌, ◌<◌, ◌≤◌, [], ◌∷◌, length, None, MatchResult};
ghost use Rattle.writer.specs.Drafts.{Held, headed, indicated};
ghost use Rattle.layout.specs.Elements.{elements, rest};
ghost use Rattle.layout.specs.Faults.{Refuses};
ghost use Rattle.layout.specs.Layout.{apart_fault, counted};
ghost use Rattle.message.specs.Types.{discriminator_of};
ghost use Rattle.writer.specs.Items.{octets_of, Puts};
ghost use Rattle.writer.specs.Writing.{open_memory, open_len, closed_memory, closed_len, drafted, behind, message_of, Added, Unfit, Unchanged};

use super::{ClosedMessage, OpenMessage, Owed, Page};
use crate::item::Item;
use layout::elements::Elements;
use layout::fault::Fault;
use message::types::discriminator;
use values::bounds::{check_least, check_len};

// Writes the discriminator and the type, which may be any octet.
fn write_head(memory: &mut [u8], type_octet: u8)
    requires { 4 ≤ length memory.old }
    ensures { memory.new ≡ headed memory.old type_octet }
{
    memory[2] = discriminator(type_octet);
    memory[3] = type_octet;
}

// Writes the length indicator of a message of `len` octets.
fn write_indicator(memory: &mut [u8], len: usize)
    requires { Held memory.old len }
    ensures { memory.new ≡ indicated memory.old len }
{
    let after = len - 2;
    let [.., high, low] = after.to_be_bytes();
    memory[..2].copy_from_slice(&[high, low]);
}

impl Page<'_> {
    // Puts an element behind what is written, if it ends within 512 octets.
    // Inlined into `OpenMessage::add`.
    #[inline(always)]
    fn put(&mut self, item: Item<'_>) -> Result<(), Fault>
        requires { Held self.old.memory.now self.old.len }
        ensures name { self.new.memory.ghost_name ≡ self.old.memory.ghost_name }
        ensures cases { Puts self.old.memory.now self.old.len (octets_of item.entry) result self.new.memory.now self.new.len }
    {
        let at = self.len;
        let end = at + item.len();
        check_len(end, 0, 512)?;
        item.write(self.memory, at);
        self.len = end;
        Ok(())
    }
}

impl Owed<false> {
    fn settle(self) -> Owed<true> {
        let Owed {} = self;
        Owed {}
    }
}

/// Whether memory of `len` octets can be lent for a message.
pub fn fits(len: usize) -> Result<(), Fault>
    ensures { MatchResult result (λ _. 512 ≤ len) (λ f. (len < 512) × Refuses 6 0 0 f) }
{
    check_least(len, 512)
}

impl<'a> OpenMessage<'a> {
    /// Opens a message of a type, which may be any octet, in lent memory. `fits` says beforehand whether the memory is large enough.
    pub fn open(memory: &'a mut [u8], type_octet: u8) -> OpenMessage<'a>
        requires { 512 ≤ length memory.old }
        ensures name { result.page.memory.ghost_name ≡ memory.entry.ghost_name }
        ensures memory { open_memory result ≡ headed memory.old type_octet }
        ensures len { open_len result ≡ 4 }
        ensures octets { behind result ≡ discriminator_of type_octet ∷ type_octet ∷ [] }
        ensures elements { elements (drafted result) ≡ [] }
    {
        write_head(memory, type_octet);
        OpenMessage {
            page: Page { memory, len: 4 },
            owed: Owed {},
        }
    }

    /// Adds an element behind those that stand there. Any octet and any value may be asked for.
    // Inlined, with what it calls: where a caller knows identifier and length, the checks fold and a copy is no call.
    #[inline(always)]
    pub fn add(&mut self, id: u8, value: &[u8]) -> Result<(), Fault>
        ensures name { self.new.page.memory.ghost_name ≡ self.old.page.memory.ghost_name }
        ensures cases { MatchResult result (λ _. Added self.old id value.now self.new) (λ f. Refuses 6 0 0 f × Unfit self.old id value.now × Unchanged self.old self.new) }
    {
        let item = Item::new(id, value)?;
        self.page.put(item)
    }

    /// Closes the message: its length indicator is written, and it can be sent. Taken apart, it gives the elements that were added,
    /// in their order.
    pub fn close(self) -> ClosedMessage<'a>
        ensures name { result.page.memory.ghost_name ≡ self.entry.page.memory.ghost_name }
        ensures memory { closed_memory result ≡ indicated (open_memory self.entry) (open_len self.entry) }
        ensures len { closed_len result ≡ open_len self.entry }
        ensures octets { message_of result ≡ counted (behind self.entry) }
        ensures apart { apart_fault (message_of result) ≡ None }
        ensures elements { elements (message_of result) ≡ elements (drafted self.entry) }
    {
        let OpenMessage {
            page: Page { memory, len },
            owed,
        } = self;
        owed.settle(); // a closed message owes nothing
        write_indicator(memory, len);
        ClosedMessage {
            page: Page { memory, len },
        }
    }

    /// Strikes the message out, and gives the memory back as it is.
    pub fn strike_out(self) -> &'a mut [u8]
        ensures name { result.ghost_name ≡ self.entry.page.memory.ghost_name }
        ensures memory { result.now ≡ open_memory self.entry }
    {
        let OpenMessage {
            page: Page { memory, len: _ },
            owed,
        } = self;
        owed.settle(); // nor does one that is struck out
        memory
    }
}

impl<'a> ClosedMessage<'a> {
    /// The octets of the message.
    pub fn octets(&self) -> &[u8]
        ensures octets { result.now ≡ message_of self.now }
        ensures apart { apart_fault result.now ≡ None }
        ensures least { 4 ≤ length result.now }
        ensures most { length result.now ≤ 512 }
    {
        &self.page.memory[0..self.page.len]
    }

    /// The elements of the message: a closed message can be taken apart.
    pub fn elements(&self) -> Elements<'_>
        ensures { rest result ≡ elements (message_of self.now) }
    {
        Elements::of(self.octets())
    }
}
