//! Reading a message that is heard.

ghost use Rattle.std.specs.Prelude.{◌≡◌, length, IfSome, Some};
ghost use Rattle.std.specs.Option.{option_map};
ghost use Rattle.layout.specs.Elements.{seen};
ghost use Rattle.layout.specs.Faults.{Answers};
ghost use Rattle.values.specs.declared.form.Form.TheVariants.{Octets, Ip};
ghost use Rattle.message.specs.Reading.{first, address_in, needed_fault, used_fault, address_fault, uses_fault, read_fault, Rejects, Reads, Says};
ghost use Rattle.message.specs.Types.{uses};
ghost use Rattle.values.specs.Forms.{identifier};
ghost use Rattle.values.specs.Values.{coded};

use crate::heard::{Heard, Rejection};
use crate::types::HeardType;
use crate::value::{Value, ip_of, name_of};
use layout::apart::{check_elements, check_header};
use layout::element::Element;
use layout::elements::Elements;
use layout::fault::Fault;
use values::address::Address;
use values::listed::Listed;

// The element of a message that counts, if it is there.
fn find(message: &[u8], listed: Listed) -> Option<Element<'_>>
    ensures finds { option_map seen result ≡ first message.now (identifier listed) }
    ensures named { IfSome result (λ e. e.id ≡ identifier listed) }
{
    Elements::of(message).find(listed.into())
}

// The refusal of a message in which an element is absent that it needs.
fn missing(message: &[u8], listed: Listed) -> Fault
    ensures { result ≡ Fault.Missing (length message.now) (identifier listed) }
{
    Fault::Missing {
        place: message.len(),
        element: listed.into(),
    }
}

// The value of a needed element.
fn needed<V: Value>(message: &[u8], listed: Listed) -> Result<V, Fault>
    ensures { let id = identifier listed in Answers (needed_fault (Some V.form) message.now id (first message.now id)) (λ v. V.held (first message.now id) ≡ v) result }
{
    let element = find(message, listed).ok_or(missing(message, listed))?;
    V::of(element)
}

// The value of an element that may be absent.
fn used<V: Value>(message: &[u8], listed: Listed) -> Result<Option<V>, Fault>
    ensures { let id = identifier listed in Answers (used_fault (Some V.form) id (first message.now id)) (λ v. option_map (λ p. V.held (Some p)) (first message.now id) ≡ v) result }
{
    // A closure: `map(V::of)` at a type parameter is not covered.
    find(message, listed)
        .map(|element| V::of(element))
        .transpose()
}

// A needed address, in the IP element or, where that is absent, in the name's.
fn address(message: &[u8], ip: Listed, name: Listed) -> Result<Address, Fault>
    ensures { let i = identifier ip in let n = identifier name in Answers (address_fault (Some Ip) (Some (Octets 3 64)) message.now i n (first message.now i) (first message.now n)) (λ a. address_in message.now i n ≡ coded a) result }
{
    if let Some(element) = find(message, ip) {
        return ip_of(element);
    }
    let element = find(message, name).ok_or(missing(message, ip))?;
    name_of(element)
}

fn read_accept(message: &[u8]) -> Result<Heard, Fault>
    ensures { Reads message.now HeardType.RegisterAccept result }
{
    Ok(Heard::RegisterAccept {
        tu3906: needed(message, Listed::Tu3906)?,
        serving_table: used(message, Listed::ServingTable)?,
    })
}

fn read_redirect(message: &[u8]) -> Result<Heard, Fault>
    ensures { Reads message.now HeardType.RegisterRedirect result }
{
    Ok(Heard::RegisterRedirect {
        gateway: address(message, Listed::GatewayIp, Listed::GatewayName)?,
        controller: address(message, Listed::ControllerIp, Listed::ControllerName)?,
        port: used(message, Listed::Port)?,
    })
}

// The cause of a REGISTER REJECT or a DEREGISTER, and with cause 0 the wait.
fn read_rejection(message: &[u8]) -> Result<Rejection, Fault>
    ensures { Answers (uses_fault message.now (uses HeardType.RegisterReject)) (Rejects message.now) result }
{
    match needed(message, Listed::RegisterRejectCause)? {
        0 => Ok(Rejection::Congestion {
            tu3907: needed(message, Listed::Tu3907)?,
        }),
        cause => Ok(Rejection::Cause(cause)),
    }
}

// The values of a message of a type, each checked as it is used.
fn read_values(message: &[u8], heard: HeardType) -> Result<Heard, Fault>
    ensures { Reads message.now heard result }
{
    match heard {
        HeardType::RegisterAccept => read_accept(message),
        HeardType::RegisterRedirect => read_redirect(message),
        HeardType::RegisterReject => read_rejection(message).map(Heard::RegisterReject),
        HeardType::Deregister => read_rejection(message).map(Heard::Deregister),
        HeardType::Release => Ok(Heard::Release {
            cause: needed(message, Listed::RrCause)?,
        }),
        HeardType::DownlinkDirectTransfer => {
            needed(message, Listed::L3Message).map(Heard::DownlinkDirectTransfer)
        }
        HeardType::RequestAccept => Ok(Heard::RequestAccept),
        HeardType::RequestReject => Ok(Heard::RequestReject {
            cause: needed(message, Listed::RrCause)?,
        }),
    }
}

/// Reads a message that is heard.
#[tactic(auto, using(crate::proofs::Hearing::read_whole))]
pub fn read(message: &[u8]) -> Result<Heard, Fault>
    ensures { Answers (read_fault message.now) (Says message.now) result }
{
    check_header(message)?;
    let heard = HeardType::try_from([message[2], message[3]])?;
    check_elements(message)?;
    read_values(message, heard)
}
