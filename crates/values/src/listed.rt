//! The listed elements.

ghost use Rattle.std.specs.Prelude.{◌≡◌, None, Some, MatchResult};
ghost use Rattle.values.specs.Forms.{identifier, form_of};

use crate::form::Form;

/// A listed element, by its identifier.
#[derive(Clone, Copy, PartialEq, Eq, Debug)]
pub enum Listed {
    MobileIdentity = 1,
    ApRadioIdentity = 3,
    GatewayIp = 9,
    GatewayName = 10,
    RedirectionCounter = 11,
    Tu3907 = 16,
    RegisterRejectCause = 21,
    Tu3906 = 22,
    L3Message = 26,
    RrCause = 29,
    SapiId = 49,
    EstablishmentCause = 50,
    ServingTable = 67,
    RegistrationIndicators = 68,
    ControllerIp = 97,
    ControllerName = 98,
    Port = 103,
}

/// The identifier of an element that is not listed.
#[derive(Clone, Copy, PartialEq, Eq, Debug)]
pub struct Unlisted(pub u8);

impl TryFrom<u8> for Listed {
    type Error = Unlisted;

    ghost try_from_gives = { λ id r. MatchResult r (λ l. identifier l ≡ id) (λ u. (u.0 ≡ id) × (form_of id ≡ None)) };

    fn try_from(id: u8) -> Result<Listed, Unlisted> {
        match id {
            1 => Ok(Listed::MobileIdentity),
            3 => Ok(Listed::ApRadioIdentity),
            9 => Ok(Listed::GatewayIp),
            10 => Ok(Listed::GatewayName),
            11 => Ok(Listed::RedirectionCounter),
            16 => Ok(Listed::Tu3907),
            21 => Ok(Listed::RegisterRejectCause),
            22 => Ok(Listed::Tu3906),
            26 => Ok(Listed::L3Message),
            29 => Ok(Listed::RrCause),
            49 => Ok(Listed::SapiId),
            50 => Ok(Listed::EstablishmentCause),
            67 => Ok(Listed::ServingTable),
            68 => Ok(Listed::RegistrationIndicators),
            97 => Ok(Listed::ControllerIp),
            98 => Ok(Listed::ControllerName),
            103 => Ok(Listed::Port),
            _ => Err(Unlisted(id)),
        }
    }
}

impl From<Listed> for u8 {
    ghost from_gives = { λ l id. id ≡ identifier l };

    fn from(listed: Listed) -> u8 {
        listed as u8
    }
}

impl Listed {
    /// The form of its value.
    pub fn form(self) -> Form
        ensures { form_of (identifier self) ≡ Some result }
    {
        match self {
            Listed::MobileIdentity => Form::Octets { least: 1, most: 9 },
            Listed::ApRadioIdentity => Form::Octets { least: 7, most: 7 },
            Listed::GatewayIp | Listed::ControllerIp => Form::Ip,
            Listed::GatewayName | Listed::ControllerName => Form::Octets { least: 3, most: 64 },
            Listed::RedirectionCounter
            | Listed::RegisterRejectCause
            | Listed::RrCause
            | Listed::SapiId
            | Listed::EstablishmentCause
            | Listed::ServingTable
            | Listed::RegistrationIndicators => Form::Octets { least: 1, most: 1 },
            Listed::Tu3907 | Listed::Tu3906 | Listed::Port => Form::Octets { least: 2, most: 2 },
            Listed::L3Message => Form::Octets {
                least: 1,
                most: 251,
            },
        }
    }
}
