//! The way to a controller.

ghost use Rattle.std.specs.Prelude.{◌≡◌, not, ◌&&◌, is_some, is_ok, IfErr, if◌then◌else◌, Some, None};
ghost use Rattle.std.specs.Option.{option_map};
ghost use Rattle.values.specs.Values.{coded};
ghost use Rattle.carrier.specs.Carried.{why_not_raised, why_not_opened};
ghost use Rattle.carrier.specs.Links.{gateway_of, link_of, linked};

use crate::connection::Connection;
use crate::undone::Undone;
use values::address::Address;

/// How far the way to a controller stands: a connection needs a tunnel.
#[derive(Clone, Copy, PartialEq, Eq, Debug)]
pub enum Path {
    Down,
    Tunnel {
        gateway: Address,
    },
    Connected {
        gateway: Address,
        connection: Connection,
    },
}

impl Path {
    /// The gateway of the tunnel.
    pub fn gateway(&self) -> Option<Address>
        ensures { option_map coded result ≡ gateway_of self.now }
    {
        match self {
            Path::Down => None,
            Path::Tunnel { gateway } | Path::Connected { gateway, .. } => Some(*gateway),
        }
    }

    /// The connection.
    pub fn connection(&self) -> Option<Connection>
        ensures { option_map linked result ≡ link_of self.now }
    {
        match self {
            Path::Down | Path::Tunnel { .. } => None,
            Path::Connected { connection, .. } => Some(*connection),
        }
    }

    /// Whether a connection stands.
    pub fn connected(&self) -> bool
        ensures { result ≡ is_some (link_of self.now) }
    {
        matches!(self, Path::Connected { .. })
    }

    /// Raises a tunnel where none stands, to a gateway that answers.
    pub fn raise(&mut self, gateway: &Address, answers: bool) -> Result<(), Undone>
        ensures answer { is_ok result ≡ (not (is_some (gateway_of self.old)) && answers) }
        ensures why { IfErr result (λ e. e ≡ why_not_raised (gateway_of self.old)) }
        ensures tunnel { gateway_of self.new ≡ (if is_ok result then Some (coded gateway.now) else gateway_of self.old) }
        ensures connection { link_of self.new ≡ link_of self.old }
    {
        match self {
            Path::Down if answers => {
                *self = Path::Tunnel { gateway: *gateway };
                Ok(())
            }
            Path::Down => Err(Undone::NoAnswer),
            Path::Tunnel { .. } | Path::Connected { .. } => Err(Undone::Tunnelled),
        }
    }

    /// Opens a connection where a tunnel and no connection stands, to a controller that answers.
    pub fn open(&mut self, to: &Connection, answers: bool) -> Result<(), Undone>
        ensures answer { is_ok result ≡ (is_some (gateway_of self.old) && (not (is_some (link_of self.old)) && answers)) }
        ensures why { IfErr result (λ e. e ≡ why_not_opened (gateway_of self.old) (link_of self.old)) }
        ensures tunnel { gateway_of self.new ≡ gateway_of self.old }
        ensures connection { link_of self.new ≡ (if is_ok result then Some (linked to.now) else link_of self.old) }
    {
        match self {
            Path::Tunnel { gateway } if answers => {
                *self = Path::Connected {
                    gateway: *gateway,
                    connection: *to,
                };
                Ok(())
            }
            Path::Tunnel { .. } => Err(Undone::NoAnswer),
            Path::Down => Err(Undone::NoTunnel),
            Path::Connected { .. } => Err(Undone::Connected),
        }
    }

    /// Ends the connection.
    pub fn close(&mut self)
        ensures tunnel { gateway_of self.new ≡ gateway_of self.old }
        ensures connection { link_of self.new ≡ None }
    {
        if let Path::Connected { gateway, .. } = self {
            *self = Path::Tunnel { gateway: *gateway };
        }
    }

    /// Ends the tunnel, and the connection with it.
    pub fn drop_tunnel(&mut self)
        ensures tunnel { gateway_of self.new ≡ None }
        ensures connection { link_of self.new ≡ None }
    {
        *self = Path::Down;
    }
}
