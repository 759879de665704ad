//! The names of message types and elements.

use values::listed::Listed;

/// The name of a message type under its discriminator. Any two octets may stand there.
pub fn type_name(discriminator: u8, kind: u8) -> Option<&'static str> {
    match (discriminator, kind) {
        (0, 16) => Some("GA-RC REGISTER REQUEST"),
        (0, 17) => Some("GA-RC REGISTER ACCEPT"),
        (0, 18) => Some("GA-RC REGISTER REDIRECT"),
        (0, 19) => Some("GA-RC REGISTER REJECT"),
        (0, 20) => Some("GA-RC DEREGISTER"),
        (0, 116) => Some("GA-RC KEEP ALIVE"),
        (1, 64) => Some("GA-CSR RELEASE"),
        (1, 65) => Some("GA-CSR RELEASE COMPLETE"),
        (1, 112) => Some("GA-CSR UPLINK DIRECT TRANSFER"),
        (1, 114) => Some("GA-CSR DOWNLINK DIRECT TRANSFER"),
        (1, 128) => Some("GA-CSR REQUEST"),
        (1, 129) => Some("GA-CSR REQUEST ACCEPT"),
        (1, 130) => Some("GA-CSR REQUEST REJECT"),
        _ => None,
    }
}

/// The name of a listed element.
pub fn element_name(element: Listed) -> &'static str {
    match element {
        Listed::MobileIdentity => "Mobile Identity",
        Listed::ApRadioIdentity => "AP Radio Identity",
        Listed::GatewayIp => "GANC-SEGW IP address",
        Listed::GatewayName => "GANC-SEGW name",
        Listed::RedirectionCounter => "Redirection Counter",
        Listed::Tu3907 => "TU3907 timer",
        Listed::RegisterRejectCause => "Register Reject Cause",
        Listed::Tu3906 => "TU3906 timer",
        Listed::L3Message => "L3 Message",
        Listed::RrCause => "RR Cause",
        Listed::SapiId => "SAPI ID",
        Listed::EstablishmentCause => "Establishment Cause",
        Listed::ServingTable => "Serving GANC Table Indicator",
        Listed::RegistrationIndicators => "Registration Indicators",
        Listed::ControllerIp => "GANC IP address",
        Listed::ControllerName => "GANC name",
        Listed::Port => "GANC TCP Port Number",
    }
}
