//! Connections.

use values::address::Address;

/// Where a connection goes: a controller, and a port there.
#[derive(Clone, Copy, PartialEq, Eq, Debug)]
pub struct Connection {
    pub controller: Address,
    pub port: u16,
}
