//! What holds of every message that is written.

ghost use Rattle.writer.specs.Laws.{WrittenIsRead};

/// What is written is read: a message put together from any elements, within its 512 octets, can be taken apart, and gives the same
/// elements in the same order. `open`, `add` and `close` say that what they make is such a message.
pub fn written_is_read()
    ensures { WrittenIsRead }
{}
