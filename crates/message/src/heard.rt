//! What a message says that is heard.

use values::address::Address;

/// Why a registration is rejected or ended.
#[derive(Clone, Copy, PartialEq, Eq, Debug)]
pub enum Rejection {
    /// Cause 0, network congestion, with the ticks to wait.
    Congestion { tu3907: u16 },
    /// Any other cause.
    Cause(u8),
}

/// Where an L3 message stands: its octets belong to another protocol.
#[derive(Clone, Copy, PartialEq, Eq, Debug)]
pub struct L3Message {
    pub start: usize,
    pub len: usize,
}

/// A message heard, with the values that it brings.
#[derive(Clone, Copy, PartialEq, Eq, Debug)]
pub enum Heard {
    RegisterAccept {
        tu3906: u16,
        serving_table: Option<u8>,
    },
    RegisterRedirect {
        gateway: Address,
        controller: Address,
        port: Option<u16>,
    },
    RegisterReject(Rejection),
    Deregister(Rejection),
    Release {
        cause: u8,
    },
    DownlinkDirectTransfer(L3Message),
    RequestAccept,
    RequestReject {
        cause: u8,
    },
}
