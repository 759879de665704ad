//! The names of causes.

/// Why a registration is rejected.
pub fn reject_cause(cause: u8) -> &'static str {
    match cause {
        0 => "network congestion",
        1 => "AP not allowed",
        2 => "location not allowed",
        3 => "invalid GANC",
        4 => "geo location not known",
        5 => "IMSI not allowed",
        6 => "unspecified",
        7 => "GANC-SEGW certificate not valid",
        8 => "EAP-SIM authentication failed",
        9 => "TCP establishment failed",
        10 => "redirection",
        11 => "EAP-AKA authentication failed",
        _ => "reserved",
    }
}

/// Why a radio resource is refused or released.
pub fn rr_cause(cause: u8) -> &'static str {
    match cause {
        0 => "normal event",
        1 => "abnormal release, unspecified",
        2 => "abnormal release, channel unacceptable",
        3 => "abnormal release, timer expired",
        4 => "abnormal release, no activity on the radio path",
        5 => "preemptive release",
        6 => "UTRAN configuration unknown",
        8 => "handover impossible, timing advance out of range",
        9 => "channel mode unacceptable",
        10 => "frequency not implemented",
        11 => "originator or talker leaving group call area",
        12 => "lower layer failure",
        65 => "call already cleared",
        95 => "semantically incorrect message",
        96 => "invalid mandatory information",
        97 => "message type non-existent or not implemented",
        98 => "message type not compatible with protocol state",
        100 => "conditional information element error",
        101 => "no cell allocation available",
        111 => "protocol error, unspecified",
        _ => "reserved",
    }
}
