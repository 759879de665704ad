//! Why an act is not done.

/// What stood in the way of an act.
#[derive(Clone, Copy, PartialEq, Eq, Debug)]
pub enum Undone {
    /// A tunnel stands already.
    Tunnelled,
    /// No tunnel stands.
    NoTunnel,
    /// A connection stands already.
    Connected,
    /// No connection stands.
    NoConnection,
    /// The address does not answer.
    NoAnswer,
    /// Every place is taken.
    NoPlace,
    /// The octets are not 4 to 512.
    Size,
}
