//! The names of diagnostic codes (X.25 Annex E).

/// Returns the name of a diagnostic code.
pub fn diagnostic(code: u8) -> &'static str {
    match code {
        0..=15 => sequence(code),
        16..=31 => state(code),
        32..=47 => format(code),
        48..=63 => timer(code),
        64..=79 => set_up(code),
        80..=95 => miscellaneous(code),
        112..=127 => international(code),
        128..=255 => "a code of the network",
        _ => "no code of the Recommendation",
    }
}

fn sequence(code: u8) -> &'static str {
    match code {
        0 => "no additional information",
        1 => "invalid P(S)",
        2 => "invalid P(R)",
        _ => "no additional information, of the kind of 0",
    }
}

fn state(code: u8) -> &'static str {
    match code {
        17 => "packet type invalid for state r1",
        18 => "packet type invalid for state r2",
        19 => "packet type invalid for state r3",
        20 => "packet type invalid for state p1",
        21 => "packet type invalid for state p2",
        22 => "packet type invalid for state p3",
        23 => "packet type invalid for state p4",
        24 => "packet type invalid for state p5",
        25 => "packet type invalid for state p6",
        26 => "packet type invalid for state p7",
        27 => "packet type invalid for state d1",
        28 => "packet type invalid for state d2",
        29 => "packet type invalid for state d3",
        _ => "packet type invalid",
    }
}

fn format(code: u8) -> &'static str {
    match code {
        33 => "unidentifiable packet",
        34 => "call on one-way logical channel",
        35 => "invalid packet type on a permanent virtual circuit",
        36 => "packet on unassigned logical channel",
        37 => "reject not subscribed to",
        38 => "packet too short",
        39 => "packet too long",
        40 => "invalid general format identifier",
        41 => "restart packet with nonzero in bits 1 to 4 or 9 to 16",
        42 => "packet type not compatible with facility",
        43 => "unauthorized interrupt confirmation",
        44 => "unauthorized interrupt",
        45 => "unauthorized reject",
        _ => "packet not allowed",
    }
}

fn timer(code: u8) -> &'static str {
    match code {
        49 => "time expired for incoming call",
        50 => "time expired for clear indication",
        51 => "time expired for reset indication",
        52 => "time expired for restart indication",
        53 => "time expired for call deflection",
        _ => "time expired",
    }
}

fn set_up(code: u8) -> &'static str {
    match code {
        65 => "facility or registration code not allowed",
        66 => "facility parameter not allowed",
        67 => "invalid called DTE address",
        68 => "invalid calling DTE address",
        69 => "invalid facility or registration length",
        70 => "incoming call barred",
        71 => "no logical channel available",
        72 => "call collision",
        73 => "duplicate facility requested",
        74 => "non zero address length",
        75 => "non zero facility length",
        76 => "facility not provided when expected",
        77 => "invalid ITU-T-specified DTE facility",
        78 => "maximum number of call redirections or call deflections exceeded",
        _ => "call set-up, call clearing or registration problem",
    }
}

fn miscellaneous(code: u8) -> &'static str {
    match code {
        81 => "improper cause code from DTE",
        82 => "not aligned octet",
        83 => "inconsistent Q bit setting",
        84 => "NUI problem",
        _ => "miscellaneous",
    }
}

fn international(code: u8) -> &'static str {
    match code {
        113 => "remote network problem",
        114 => "international protocol problem",
        115 => "international link out of order",
        116 => "international link busy",
        117 => "transit network facility problem",
        118 => "remote network facility problem",
        119 => "international routing problem",
        120 => "temporary routing problem",
        121 => "unknown called DNIC",
        122 => "maintenance action",
        _ => "international problem",
    }
}
