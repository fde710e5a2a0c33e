//! Terms of packets and of their numbers.

ghost use Rattle.std.specs.Prelude.{◌≡◌, map};
ghost use Rattle.explanations.specs.Table.{key, packet_term_keys};

use crate::explanation::{Explanation, Topic};

const PACKET_TERMS: [Explanation; 11] = [
    Explanation {
        topic: Topic::Term,
        word: "packet",
        name: "packet",
        meaning: "What the DTE and the DCE send each other: a header of at least 3 octets with the logical channel and the type, and what the type adds.",
        when: "Each row of a trace is one.",
        clause: "X.25 5",
        example: "1 T 10010B0000",
        trace: "",
    },
    Explanation {
        topic: Topic::Term,
        word: "P(S)",
        name: "packet send sequence number",
        meaning: "The number of a data packet: each side counts its own on each logical channel, modulo 8 or 128, from 0 after the call, a reset or a restart.",
        when: "In data packets. One that is not the next, or is outside the window, is code 1.",
        clause: "X.25 4.4.1.1",
        example: "# DTE, logical channel 1: data, P(S) 2, P(R) 1, 1 octet",
        trace: "",
    },
    Explanation {
        topic: Topic::Term,
        word: "P(R)",
        name: "packet receive sequence number",
        meaning: "The P(S) that the sender of the packet expects next. It acknowledges all packets with lower numbers, which opens the window for as many more.",
        when: "In data packets, RR, RNR and REJ. One that acknowledges what was not sent, or less than before, is code 2.",
        clause: "X.25 4.4.1.2, 4.4.1.3",
        example: "# DTE, logical channel 1: data, P(S) 2, P(R) 1, 1 octet",
        trace: "",
    },
    Explanation {
        topic: Topic::Term,
        word: "M",
        name: "M bit",
        meaning: "More data: the data of the packet goes on in the next one of its side. Packets that go on so are one complete packet sequence.",
        when: "In data packets.",
        clause: "X.25 4.3.4, 4.3.5",
        example: "# DTE, logical channel 1: data, P(S) 0, P(R) 0, M, 128 octets",
        trace: "",
    },
    Explanation {
        topic: Topic::Term,
        word: "D",
        name: "D bit",
        meaning: "Delivery confirmation: P(R) is to come from the far DTE, and not from the network alone.",
        when: "In data packets.",
        clause: "X.25 4.3.3",
        example: "# DTE, logical channel 1: data, P(S) 0, P(R) 0, D, 1 octet",
        trace: "",
    },
    Explanation {
        topic: Topic::Term,
        word: "Q",
        name: "Q bit",
        meaning: "Qualifier: the data is not of the user, but of another protocol between the DTEs, as PAD messages are. All packets of a sequence have the same Q bit.",
        when: "In data packets. Another Q bit within a sequence is code 83.",
        clause: "X.25 4.3.6",
        example: "# DCE, logical channel 1: data, P(S) 0, P(R) 1, Q, 3 octets",
        trace: "",
    },
    Explanation {
        topic: Topic::Term,
        word: "RR",
        name: "receive ready",
        meaning: "Acknowledges data by its P(R), and says that its sender accepts more.",
        when: "On a channel whose call is up, and on permanent virtual circuits.",
        clause: "X.25 4.4.1.4",
        example: "# DCE, logical channel 1: RR, P(R) 1",
        trace: "",
    },
    Explanation {
        topic: Topic::Term,
        word: "RNR",
        name: "receive not ready",
        meaning: "Acknowledges data by its P(R), and says that its sender accepts no more until it sends an RR.",
        when: "On a channel whose call is up, and on permanent virtual circuits.",
        clause: "X.25 4.4.1.4",
        example: "# DCE, logical channel 1: RNR, P(R) 1",
        trace: "",
    },
    Explanation {
        topic: Topic::Term,
        word: "REJ",
        name: "reject",
        meaning: "Asks for data again from its P(R) on. An interface has it only by subscription, which x25scan does not know: a REJ of the DTE is an error.",
        when: "Sent by the DTE while data may pass it is code 37.",
        clause: "X.25 6.4",
        example: "F 9 T d1 37",
        trace: "tests/traces/codes/out-of-place-in-transfer.trace",
    },
    Explanation {
        topic: Topic::Term,
        word: "interrupt",
        name: "interrupt",
        meaning: "Up to 32 octets that pass data, outside of the window. Its side sends no second one before an interrupt confirmation has come.",
        when: "A second one is code 44, and a confirmation of none is code 43.",
        clause: "X.25 4.3.7",
        example: "# DTE, logical channel 1: interrupt, 1 octet",
        trace: "",
    },
    Explanation {
        topic: Topic::Term,
        word: "diagnostic",
        name: "diagnostic code of a packet",
        meaning: "An octet after the cause of a clear, a reset or a restart that says more of it. A finding has the code that the DCE owes.",
        when: "In clears, resets and restarts, as --annotate and --rows name it; --explain code lists those of findings.",
        clause: "X.25 Annex E",
        example: "diagnostic 1 (invalid P(S))",
        trace: "",
    },
];

/// Returns the terms of packets.
pub fn packet_terms() -> &'static [Explanation]
    ensures { map key result.now ≡ packet_term_keys }
{
    &PACKET_TERMS
}
