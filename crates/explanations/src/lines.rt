//! The letters of the report's lines.

ghost use Rattle.std.specs.Prelude.{◌≡◌, map};
ghost use Rattle.explanations.specs.Table.{key, line_keys};

use crate::explanation::{Explanation, Topic};

const LINES: [Explanation; 7] = [
    Explanation {
        topic: Topic::Line,
        word: "F",
        name: "finding",
        meaning: "F packet side state code: the row of this number, sent by this side, broke the protocol; the state is the one before it.",
        when: "First in the report, in the order of the packets; a row has at most one.",
        clause: "profile",
        example: "F 5 T d1 1",
        trace: "tests/traces/worked/full-window.trace",
    },
    Explanation {
        topic: Topic::Line,
        word: "C",
        name: "call",
        meaning: "C call epoch channel direction called calling opened up ended how dataT octT dataN octN segments: one virtual call, the rows that opened it, brought it up and ended it, and the data packets, octets and segments of each side.",
        when: "After the findings, in the order of the opening packets.",
        clause: "X.25 4.1; the record is profile",
        example: "C 1 1 1 out 12 345 1 2 - open 3 129 0 0 3",
        trace: "tests/traces/worked/addresses-reverse-charging.trace",
    },
    Explanation {
        topic: Topic::Line,
        word: "S",
        name: "PAD setting",
        meaning: "S call side parameter word value: what is known at the end of a call of a parameter of the PAD on this side.",
        when: "After the calls, by call, side and parameter; what is unknown is left out.",
        clause: "X.29 4.4, X.3 Table 1",
        example: "S 1 T 2 said 1",
        trace: "tests/traces/worked/pad-setting-said.trace",
    },
    Explanation {
        topic: Topic::Line,
        word: "A",
        name: "account",
        meaning: "A address calls segments: how many calls an address pays for, and their segments of 64 octets. The called address pays where reverse charging was asked, otherwise the calling one.",
        when: "After the settings, by address, the absent one first.",
        clause: "X.25 6.18; profile",
        example: "A 12 1 3",
        trace: "tests/traces/worked/addresses-reverse-charging.trace",
    },
    Explanation {
        topic: Topic::Line,
        word: "P",
        name: "peak",
        meaning: "P count packet: the most virtual calls that were up at once, and the first row after which they were.",
        when: "After the accounts, once; P 0 - where no call was up.",
        clause: "profile",
        example: "P 1 2",
        trace: "tests/traces/worked/full-window.trace",
    },
    Explanation {
        topic: Topic::Line,
        word: "G",
        name: "gaps",
        meaning: "G gaps: how many gap rows the trace has, each where packets may not have been recorded.",
        when: "Before the Z line, once, where the header has the third form.",
        clause: "profile",
        example: "G 1",
        trace: "tests/gaps/traces/call-after-a-gap.trace",
    },
    Explanation {
        topic: Topic::Line,
        word: "Z",
        name: "sums",
        meaning: "Z packets findings calls octets segments: how many of each the trace has; octets and segments of all data that was accepted.",
        when: "Last in the report, once.",
        clause: "profile",
        example: "Z 5 1 1 2 2",
        trace: "tests/traces/worked/full-window.trace",
    },
];

/// Returns the letters of the lines, in their order.
pub fn lines() -> &'static [Explanation]
    ensures { map key result.now ≡ line_keys }
{
    &LINES
}
