//! The names of the diagnostic codes that findings have (X.25 Annex E). The state tables have the codes as numbers;
//! everything else names them by these constants.

/// Invalid P(S) (1).
pub const INVALID_P_S: u8 = 1;
/// Invalid P(R) (2).
pub const INVALID_P_R: u8 = 2;

/// Packet type invalid for state r1 (17).
pub const PACKET_TYPE_INVALID_FOR_STATE_R1: u8 = 17;
/// Packet type invalid for state r2 (18).
pub const PACKET_TYPE_INVALID_FOR_STATE_R2: u8 = 18;
/// Packet type invalid for state r3 (19).
pub const PACKET_TYPE_INVALID_FOR_STATE_R3: u8 = 19;
/// Packet type invalid for state p1 (20).
pub const PACKET_TYPE_INVALID_FOR_STATE_P1: u8 = 20;
/// Packet type invalid for state p2 (21).
pub const PACKET_TYPE_INVALID_FOR_STATE_P2: u8 = 21;
/// Packet type invalid for state p3 (22).
pub const PACKET_TYPE_INVALID_FOR_STATE_P3: u8 = 22;
/// Packet type invalid for state p4 (23).
pub const PACKET_TYPE_INVALID_FOR_STATE_P4: u8 = 23;
/// Packet type invalid for state p5 (24).
pub const PACKET_TYPE_INVALID_FOR_STATE_P5: u8 = 24;
/// Packet type invalid for state p6 (25).
pub const PACKET_TYPE_INVALID_FOR_STATE_P6: u8 = 25;
/// Packet type invalid for state p7 (26).
pub const PACKET_TYPE_INVALID_FOR_STATE_P7: u8 = 26;
/// Packet type invalid for state d1 (27).
pub const PACKET_TYPE_INVALID_FOR_STATE_D1: u8 = 27;
/// Packet type invalid for state d2 (28).
pub const PACKET_TYPE_INVALID_FOR_STATE_D2: u8 = 28;
/// Packet type invalid for state d3 (29).
pub const PACKET_TYPE_INVALID_FOR_STATE_D3: u8 = 29;

/// Unidentifiable packet (33).
pub const UNIDENTIFIABLE_PACKET: u8 = 33;
/// Call on one-way logical channel (34).
pub const CALL_ON_ONE_WAY_LOGICAL_CHANNEL: u8 = 34;
/// Invalid packet type on a permanent virtual circuit (35).
pub const INVALID_PACKET_TYPE_ON_A_PERMANENT_VIRTUAL_CIRCUIT: u8 = 35;
/// Packet on unassigned logical channel (36).
pub const PACKET_ON_UNASSIGNED_LOGICAL_CHANNEL: u8 = 36;
/// Reject not subscribed to (37).
pub const REJECT_NOT_SUBSCRIBED_TO: u8 = 37;
/// Packet too short (38).
pub const PACKET_TOO_SHORT: u8 = 38;
/// Packet too long (39).
pub const PACKET_TOO_LONG: u8 = 39;
/// Invalid general format identifier (40).
pub const INVALID_GENERAL_FORMAT_IDENTIFIER: u8 = 40;
/// Restart packet with non-zero logical channel identifier (41).
pub const RESTART_PACKET_WITH_NON_ZERO_LOGICAL_CHANNEL_IDENTIFIER: u8 = 41;
/// Unauthorized interrupt confirmation (43).
pub const UNAUTHORIZED_INTERRUPT_CONFIRMATION: u8 = 43;
/// Unauthorized interrupt (44).
pub const UNAUTHORIZED_INTERRUPT: u8 = 44;

/// Facility parameter not allowed (66).
pub const FACILITY_PARAMETER_NOT_ALLOWED: u8 = 66;
/// Invalid called DTE address (67).
pub const INVALID_CALLED_DTE_ADDRESS: u8 = 67;
/// Invalid calling DTE address (68).
pub const INVALID_CALLING_DTE_ADDRESS: u8 = 68;
/// Invalid facility/registration length (69).
pub const INVALID_FACILITY_OR_REGISTRATION_LENGTH: u8 = 69;
/// Inconsistent Q-bit setting (83).
pub const INCONSISTENT_Q_BIT_SETTING: u8 = 83;
