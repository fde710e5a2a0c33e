//! The words of a trace's header.

ghost use Rattle.std.specs.Prelude.{◌≡◌, map};
ghost use Rattle.explanations.specs.Table.{key, header_word_keys};

use crate::explanation::{Explanation, Topic};

const HEADER_WORDS: [Explanation; 10] = [
    Explanation {
        topic: Topic::Header,
        word: "X25",
        name: "beginning of the header",
        meaning: "The header is the first line that is no comment: X25, the form of the header (1, 2 or 3), and names with their numbers.",
        when: "In all forms of the header, first.",
        clause: "profile",
        example: "X25 1 MOD 8 WIN 2 SIZE 128 PVC 0 SVC 4",
        trace: "",
    },
    Explanation {
        topic: Topic::Header,
        word: "MOD",
        name: "modulus",
        meaning: "The sequence numbers of packets count modulo 8 or modulo 128.",
        when: "In all forms of the header.",
        clause: "X.25 4.4.1.1, 6.2",
        example: "X25 1 MOD 8 WIN 2 SIZE 128 PVC 0 SVC 4",
        trace: "",
    },
    Explanation {
        topic: Topic::Header,
        word: "WIN",
        name: "default window",
        meaning: "The window of each logical channel, where no facility of a call says another: 1 to 7 with MOD 8, 1 to 127 with MOD 128.",
        when: "In all forms of the header.",
        clause: "X.25 4.4.1.2, 6.10",
        example: "X25 1 MOD 8 WIN 2 SIZE 128 PVC 0 SVC 4",
        trace: "",
    },
    Explanation {
        topic: Topic::Header,
        word: "SIZE",
        name: "default packet size",
        meaning: "The most octets of user data in a data packet, where no facility of a call says another: a power of two from 16 to 4096.",
        when: "In all forms of the header.",
        clause: "X.25 4.3.2, 6.9",
        example: "X25 1 MOD 8 WIN 2 SIZE 128 PVC 0 SVC 4",
        trace: "",
    },
    Explanation {
        topic: Topic::Header,
        word: "PVC",
        name: "permanent virtual circuits",
        meaning: "The last logical channel that is a permanent virtual circuit, 0 where none is; they begin with 1.",
        when: "In all forms of the header.",
        clause: "X.25 4.2, Annex A",
        example: "X25 1 MOD 8 WIN 2 SIZE 128 PVC 0 SVC 4",
        trace: "",
    },
    Explanation {
        topic: Topic::Header,
        word: "SVC",
        name: "virtual calls",
        meaning: "The last logical channel, 1 to 4095; those after PVC are for calls of either side.",
        when: "In the first form of the header.",
        clause: "X.25 Annex A",
        example: "X25 1 MOD 8 WIN 2 SIZE 128 PVC 0 SVC 4",
        trace: "",
    },
    Explanation {
        topic: Topic::Header,
        word: "IN",
        name: "incoming calls only",
        meaning: "The last of the logical channels that are for incoming calls only; they begin after PVC.",
        when: "In the second and the third form of the header.",
        clause: "X.25 6.8, Annex A",
        example: "X25 2 MOD 8 WIN 2 SIZE 128 PVC 1 IN 2 TWO 4 OUT 5 JOIN",
        trace: "",
    },
    Explanation {
        topic: Topic::Header,
        word: "TWO",
        name: "two-way channels",
        meaning: "The last of the logical channels that are for calls of either side; they begin after IN.",
        when: "In the second and the third form of the header.",
        clause: "X.25 Annex A",
        example: "X25 2 MOD 8 WIN 2 SIZE 128 PVC 1 IN 2 TWO 4 OUT 5 JOIN",
        trace: "",
    },
    Explanation {
        topic: Topic::Header,
        word: "OUT",
        name: "outgoing calls only",
        meaning: "The last logical channel, 1 to 4095; those after TWO are for outgoing calls only.",
        when: "In the second and the third form of the header.",
        clause: "X.25 6.7, Annex A",
        example: "X25 2 MOD 8 WIN 2 SIZE 128 PVC 1 IN 2 TWO 4 OUT 5 JOIN",
        trace: "",
    },
    Explanation {
        topic: Topic::Header,
        word: "JOIN",
        name: "recording that begins in the middle",
        meaning: "In the second form each channel is unknown until a packet shows its state, and a restart confirmation before the first restart passes. In the third form it is a gap of all channels before the first row.",
        when: "Last in the second and the third form of the header, or left out.",
        clause: "profile",
        example: "X25 2 MOD 8 WIN 2 SIZE 128 PVC 1 IN 2 TWO 4 OUT 5 JOIN",
        trace: "",
    },
];

/// Returns the words of a header, in their order.
pub fn header_words() -> &'static [Explanation]
    ensures { map key result.now ≡ header_word_keys }
{
    &HEADER_WORDS
}
