//! What can be done with any carrier.

ghost use Rattle.std.specs.Prelude.{◌≡◌};
ghost use Rattle.values.specs.Values.{coded};
ghost use Rattle.carrier.specs.Connecting.{Connects};
ghost use Rattle.carrier.specs.Links.{linked};

use crate::carrying::Carrier;
use crate::connection::Connection;
use values::address::Address;

/// What was not reached.
#[derive(Clone, Copy, PartialEq, Eq, Debug)]
pub enum Missed {
    /// No tunnel could be raised to the gateway.
    Gateway,
    /// No connection could be opened to the controller.
    Controller,
}

/// Connects to a controller through a gateway, whatever stood before: a standing connection is closed, a tunnel to another gateway
/// dropped, and one is raised where none stands.
pub fn connect<C: Carrier>(
    carrier: &mut C,
    gateway: &Address,
    to: &Connection,
) -> Result<(), Missed>
    ensures { Connects (C.carried carrier.old) (coded gateway.now) (linked to.now) result (C.carried carrier.new) }
{
    carrier.close();
    if !(*carrier).tunnelled(gateway) {
        carrier.drop_tunnel();
        carrier.raise(gateway).map_err(|_| Missed::Gateway)?;
    }
    carrier.open(to).map_err(|_| Missed::Controller)
}
