//! The codes of findings on PAD messages.

ghost use Rattle.std.specs.Prelude.{◌≡◌, map};
ghost use Rattle.explanations.specs.Table.{key, message_keys};

use crate::explanation::{Explanation, Topic};

const MESSAGES: [Explanation; 5] = [
    Explanation {
        topic: Topic::Message,
        word: "X1",
        name: "unknown message",
        meaning: "A PAD message has no octet, bits 8 to 5 of its first octet are not 0, or its code is over 8.",
        when: "On the last packet of the sequence, in d1. It changes no state and no setting.",
        clause: "X.29 4.4, Table 3",
        example: "F 5 N d1 X1",
        trace: "tests/traces/worked/pad-message-faults.trace",
    },
    Explanation {
        topic: Topic::Message,
        word: "X2",
        name: "badly formed message",
        meaning: "The pairs of a reference and a value in a set, read, set and read or parameter indication are cut, or an indication of break carries anything but nothing or the pair 8, 1.",
        when: "On the last packet of the sequence, in d1, after X1 and XL. It changes no state and no setting.",
        clause: "X.29 4.4.1 to 4.4.8",
        example: "F 3 N d1 X2",
        trace: "tests/traces/worked/pad-pairs-cut.trace",
    },
    Explanation {
        topic: Topic::Message,
        word: "X3",
        name: "refusable setting",
        meaning: "A set, or set and read, asks what no PAD can do: it sets parameter 11, or gives 2, 8, 12 or 15 a value over 1, or 16, 17 or 18 one over 127.",
        when: "On the last packet of the sequence, in d1, where nothing else is wrong. It changes no state; the settings count as asked.",
        clause: "X.3 Table 1; profile",
        example: "F 4 N d1 X3",
        trace: "tests/traces/worked/pad-message-faults.trace",
    },
    Explanation {
        topic: Topic::Message,
        word: "X4",
        name: "unasked parameter indication",
        meaning: "A parameter indication of a PAD that no right set, read, or set and read of the other side had asked in this call.",
        when: "On the last packet of the sequence, in d1, after X1, XL and X2. It changes no state and no setting.",
        clause: "X.29 4.4.6; profile",
        example: "F 3 T d1 X4",
        trace: "tests/traces/worked/pad-message-faults.trace",
    },
    Explanation {
        topic: Topic::Message,
        word: "XL",
        name: "too long a message",
        meaning: "A PAD message of more than 1,024 octets, which is not read.",
        when: "On the last packet of the sequence, in d1, after X1. It changes no state and no setting.",
        clause: "profile",
        example: "F 3 N d1 XL",
        trace: "tests/traces/worked/pad-message-1025.trace",
    },
];

/// Returns the codes of findings on PAD messages.
pub fn messages() -> &'static [Explanation]
    ensures { map key result.now ≡ message_keys }
{
    &MESSAGES
}
