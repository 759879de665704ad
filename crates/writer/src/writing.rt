//! Messages that are written in lent memory.

ghost use Rattle.std.specs.Prelude.{IsTrue};
ghost use Rattle.writer.specs.Drafts.{Sound, Sendable};

/// Lent memory, and how many of its octets are written: there is no heap to hold them. A type cannot name a loan, so each function
/// that passes the memory on says that the loan stays the same.
#[derive(Drop)]
struct Page<'a> {
    memory: &'a mut [u8],
    len: usize,
}

/// What is owed while a message is open: that it be closed or struck out. Only what is settled may be dropped.
struct Owed<const SETTLED: bool> {}

impl<const SETTLED: bool> Drop for Owed<SETTLED> {
    fn drop(self)
        requires { IsTrue SETTLED }
    {
        let Owed {} = self;
    }
}

/// A message that is being written. It is closed or struck out; the check refuses one that is let go.
#[derive(Drop)]
pub struct OpenMessage<'a> {
    page: Page<'a>,
    owed: Owed<false>,
    ghost sound: { Sound page.memory.now page.len },
}

/// A message that is whole, and can be sent.
#[derive(Drop)]
pub struct ClosedMessage<'a> {
    page: Page<'a>,
    ghost sendable: { Sendable page.memory.now page.len },
}

mod calls;

pub use calls::fits;
