//! What every carrier does.

ghost use Rattle.std.specs.Prelude.{◌≡◌, true, not, length, is_ok, IfErr, if◌then◌else◌, Some};
ghost use Rattle.std.specs.Option.{option_map};
ghost use Rattle.values.specs.Values.{coded};
ghost use Rattle.writer.specs.Writing.{message_of};
ghost use Rattle.carrier.specs.Carried.{Carried, Kept, room, stands, raises, opens, sends, why_not_raised, why_not_opened, why_not_sent, raised, opened, sent, closed, dropped, Takes};
ghost use Rattle.carrier.specs.Links.{linked};

use crate::connection::Connection;
use crate::undone::Undone;
use layout::fault::Fault;
use values::address::Address;
use writer::writing::ClosedMessage;

/// A tunnel to a gateway, a connection through it to a controller, and messages that wait to be taken, in as many places as the carrier
/// has. Each act says that it was done or why not, or cannot but be done; one that was not, and each question, changes nothing.
pub trait Carrier {
    /// What the carrier means.
    ghost carried: { Self → Carried };

    /// The gateway of the tunnel.
    fn tunnel(&self) -> Option<Address>
        ensures answer { option_map coded result ≡ (carried self.now).tunnel }
        ensures kept { Kept (carried self.now) };

    /// The connection.
    fn connection(&self) -> Option<Connection>
        ensures answer { option_map linked result ≡ (carried self.now).connection }
        ensures kept { Kept (carried self.now) };

    /// How many messages wait.
    fn waiting(&self) -> usize
        ensures answer { result ≡ length (carried self.now).waiting }
        ensures kept { Kept (carried self.now) };

    /// How many messages may wait at once.
    fn places(&self) -> usize
        ensures answer { result ≡ (carried self.now).places }
        ensures kept { Kept (carried self.now) };

    /// Whether an address answers.
    fn answers(&self, address: &Address) -> bool
        ensures answer { result ≡ (carried self.now).answers (coded address.now) }
        ensures kept { Kept (carried self.now) };

    /// Whether the tunnel stands, and to this gateway.
    fn tunnelled(&self, gateway: &Address) -> bool
        ensures answer { result ≡ stands (carried self.now) (coded gateway.now) }
        ensures exact { result ≡ true → (carried self.now).tunnel ≡ Some (coded gateway.now) }
    {
        match self.tunnel() {
            Some(standing) => standing == *gateway,
            None => false,
        }
    }

    /// Whether every place is taken.
    fn full(&self) -> bool
        ensures { result ≡ not (room (carried self.now)) }
    {
        self.waiting() >= self.places()
    }

    /// Raises a tunnel, if none stands and the gateway answers.
    fn raise(&mut self, gateway: &Address) -> Result<(), Undone>
        ensures answer { is_ok result ≡ raises (carried self.old) (coded gateway.now) }
        ensures why { IfErr result (λ e. e ≡ why_not_raised (carried self.old).tunnel) }
        ensures leaves { carried self.new ≡ (if is_ok result then raised (carried self.old) (coded gateway.now) else carried self.old) };

    /// Opens a connection, if a tunnel stands, no connection does, and the controller answers.
    fn open(&mut self, to: &Connection) -> Result<(), Undone>
        ensures answer { is_ok result ≡ opens (carried self.old) (linked to.now) }
        ensures why { IfErr result (λ e. e ≡ why_not_opened (carried self.old).tunnel (carried self.old).connection) }
        ensures leaves { carried self.new ≡ (if is_ok result then opened (carried self.old) (linked to.now) else carried self.old) };

    /// Sends octets, if they are 4 to 512, a connection stands and a place is free; they wait last.
    fn send(&mut self, octets: &[u8]) -> Result<(), Undone>
        ensures answer { is_ok result ≡ sends (carried self.old) octets.now }
        ensures why { IfErr result (λ e. e ≡ why_not_sent (carried self.old).connection (room (carried self.old))) }
        ensures leaves { carried self.new ≡ (if is_ok result then sent (carried self.old) octets.now else carried self.old) };

    /// Sends a closed message, if a connection stands and a place is free; it waits last.
    fn send_message(&mut self, message: &ClosedMessage<'_>) -> Result<(), Undone>
        ensures answer { is_ok result ≡ sends (carried self.old) (message_of message.now) }
        ensures why { IfErr result (λ e. e ≡ why_not_sent (carried self.old).connection (room (carried self.old))) }
        ensures leaves { carried self.new ≡ (if is_ok result then sent (carried self.old) (message_of message.now) else carried self.old) }
    {
        self.send(message.octets())
    }

    /// Ends the connection.
    fn close(&mut self)
        ensures { carried self.new ≡ closed (carried self.old) };

    /// Ends the tunnel and the connection.
    fn drop_tunnel(&mut self)
        ensures { carried self.new ≡ dropped (carried self.old) };

    /// Takes the first message that waits, to the front of memory of 512 octets or more, and says its length; 0 where none waits.
    // 0, and no `Option`, where none waits is the rule of carriers.
    fn take(&mut self, memory: &mut [u8]) -> Result<usize, Fault>
        ensures { Takes (carried self.old) memory.old result (carried self.new) memory.new };

    /// What holds of every carrier, also before any question. A `&dyn Carrier` has no laws: there the questions say it.
    ghost kept: { (c : Self) → Kept (carried c) };
}
