//! Elements of messages.

/// An element of a message, where it stands.
#[derive(Clone, Copy, PartialEq, Eq, Debug)]
pub struct Element<'a> {
    /// The identifier, which may be any octet.
    pub id: u8,
    /// The place of the identifier octet.
    pub place: usize,
    /// The place of the first octet of the value.
    pub start: usize,
    /// The value, a part of the message.
    pub value: &'a [u8],
}
