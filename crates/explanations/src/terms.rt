//! Terms that the documents and the options use.

ghost use Rattle.std.specs.Prelude.{◌≡◌, map};
ghost use Rattle.explanations.specs.Table.{key, term_keys};

use crate::explanation::{Explanation, Topic};

const TERMS: [Explanation; 11] = [
    Explanation {
        topic: Topic::Term,
        word: "window",
        name: "window",
        meaning: "How many data packets a side may send on a logical channel that the other side has not acknowledged yet. P(R) acknowledges all packets with lower P(S).",
        when: "WIN of the header is the default, and the facilities of a call may agree on another; a P(S) outside of it is code 1.",
        clause: "X.25 4.4.1.2, 6.12",
        example: "F 5 T d1 1",
        trace: "tests/traces/worked/full-window.trace",
    },
    Explanation {
        topic: Topic::Term,
        word: "frame",
        name: "frame",
        meaning: "The unit of a capture that holds a packet, or its last octet, by the number that Wireshark shows.",
        when: "A comment #@ SECONDS FRAME before a row has it, --rows prints it as frame, --annotate ends a comment with it, and pages name packets by it.",
        clause: "profile",
        example: "#@ 1700000003.000003 152",
        trace: "",
    },
    Explanation {
        topic: Topic::Term,
        word: "trace",
        name: "trace",
        meaning: "What x25scan judges: comments, one header, and a line for each packet, in the order in which the packets passed.",
        when: "--trace prints that of a capture; /usr/share/doc/x25scan/TRACE.md has the form.",
        clause: "profile",
        example: "X25 1 MOD 8 WIN 2 SIZE 128 PVC 0 SVC 4",
        trace: "",
    },
    Explanation {
        topic: Topic::Term,
        word: "row",
        name: "row",
        meaning: "A line of a trace with a packet: its number, the side that sent it (T or N), and its octets in hex.",
        when: "Findings and calls name rows by their numbers, as --rows prints them.",
        clause: "profile",
        example: "1 T 10010B0000",
        trace: "",
    },
    Explanation {
        topic: Topic::Term,
        word: "octet",
        name: "octet",
        meaning: "Eight bits: a byte. A trace writes each octet as two hex digits.",
        when: "Lengths, and the sums of user data, count octets.",
        clause: "profile",
        example: "5 T 100104AA",
        trace: "",
    },
    Explanation {
        topic: Topic::Term,
        word: "segment",
        name: "segment",
        meaning: "The unit that is charged: up to 64 octets of user data of one data packet. So 65 octets are two segments, and no octets are none.",
        when: "Segments come last in C, A and Z lines.",
        clause: "profile",
        example: "A - 1 2",
        trace: "tests/traces/worked/full-window.trace",
    },
    Explanation {
        topic: Topic::Term,
        word: "interface",
        name: "interface",
        meaning: "The line between one DTE and its DCE, with its logical channels, modulus, window and packet size. A recording is of one interface.",
        when: "The header of a trace describes it.",
        clause: "X.25 Annex A",
        example: "X25 1 MOD 8 WIN 2 SIZE 128 PVC 0 SVC 4",
        trace: "",
    },
    Explanation {
        topic: Topic::Term,
        word: "gap",
        name: "gap",
        meaning: "Packets that may not have been recorded. A gap row, NUMBER ? CHANNEL, says so of a logical channel, and NUMBER ? * of all. What a missing packet could explain is no finding, and what was recorded counts.",
        when: "A trace whose header has the third form may have gap rows. After one the logical channel is adrift. They stand where octets or frames of a capture are missing.",
        clause: "profile",
        example: "4 ? 1",
        trace: "",
    },
    Explanation {
        topic: Topic::Term,
        word: "adrift",
        name: "state after a gap",
        meaning: "Of the logical channel it is known only which call is open, and whether the call came up. Nothing on it is a finding until a P(R) that acknowledges data, a clear confirmation or a restart shows its state again.",
        when: "--rows prints it as before and after, and --annotate after such rows. RULES.md has what each packet does.",
        clause: "profile",
        example: "# d1 to adrift; call 1",
        trace: "",
    },
    Explanation {
        topic: Topic::Term,
        word: "LAPB",
        name: "link access procedure, balanced",
        meaning: "The link level below the packets: frames with numbers and check sequences of their own. An I frame holds one packet.",
        when: "A capture of it is read without its repeated frames, and where frames are missing is a gap. Findings are of packets alone.",
        clause: "X.25 2",
        example: "x25scan --as lapb day.pcap",
        trace: "",
    },
    Explanation {
        topic: Topic::Term,
        word: "XOT",
        name: "X.25 over TCP",
        meaning: "Packets on a TCP connection to port 1998, with a header of 4 octets before each. A connection carries one virtual circuit.",
        when: "CAPTURES.md says how a capture of it is read.",
        clause: "RFC 1613",
        example: "x25scan day.pcap",
        trace: "",
    },
];

/// Returns the terms of recordings and of what is counted.
pub fn terms() -> &'static [Explanation]
    ensures { map key result.now ≡ term_keys }
{
    &TERMS
}
