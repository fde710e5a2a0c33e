//! The rules that a faulty line of a trace breaks.

ghost use Rattle.std.specs.Prelude.{◌≡◌, map};
ghost use Rattle.explanations.specs.Table.{key, kind_keys};

use crate::explanation::{Explanation, Topic};

const KINDS: [Explanation; 9] = [
    Explanation {
        topic: Topic::Kind,
        word: "21",
        name: "HeaderMissing",
        meaning: "The trace has no line that is not a comment.",
        when: "At the end of the trace; the line named is the number of its lines plus 1. The trace is refused with status 2 and nothing is reported; findings that --follow printed before remain.",
        clause: "profile",
        example: "x25scan: line 1: kind 21",
        trace: "tests/traces/worked/refused-no-header.trace",
    },
    Explanation {
        topic: Topic::Kind,
        word: "22",
        name: "HeaderForm",
        meaning: "The header has none of the three forms: a word is another, one is missing or too many, or a number has a leading zero or more than 9 digits.",
        when: "On the first line that is no comment, after 28. The trace is refused with status 2 and nothing is reported; findings that --follow printed before remain.",
        clause: "profile",
        example: "x25scan: line 1: kind 22",
        trace: "tests/traces/worked/refused-header-form.trace",
    },
    Explanation {
        topic: Topic::Kind,
        word: "23",
        name: "HeaderRange",
        meaning: "A number of the header is out of its range, such as MOD 9 or a window not below the modulus.",
        when: "On a header whose form is right. The trace is refused with status 2 and nothing is reported; findings that --follow printed before remain.",
        clause: "profile",
        example: "x25scan: line 1: kind 23",
        trace: "tests/traces/worked/refused-modulus.trace",
    },
    Explanation {
        topic: Topic::Kind,
        word: "24",
        name: "LineForm",
        meaning: "The line is not three words with single spaces between them: number, side and octets.",
        when: "On a row, after 28; an empty line too. A gap row of the third form has three words as well: number, ? and channel. The trace is refused with status 2 and nothing is reported; findings that --follow printed before remain.",
        clause: "profile",
        example: "x25scan: line 2: kind 24",
        trace: "tests/traces/worked/refused-empty-line.trace",
    },
    Explanation {
        topic: Topic::Kind,
        word: "25",
        name: "Number",
        meaning: "The row's number is not one of 1 to 999999999, has a leading zero, or is not greater than that of the row before.",
        when: "On a row, after 28 and 24. The trace is refused with status 2 and nothing is reported; findings that --follow printed before remain.",
        clause: "profile",
        example: "x25scan: line 3: kind 25",
        trace: "tests/traces/worked/refused-number-order.trace",
    },
    Explanation {
        topic: Topic::Kind,
        word: "26",
        name: "Side",
        meaning: "The side is neither T nor N.",
        when: "On a row, after 28, 24 and 25. In the third form a ? in its place makes the row a gap row. The trace is refused with status 2 and nothing is reported; findings that --follow printed before remain.",
        clause: "profile",
        example: "x25scan: line 2: kind 26",
        trace: "tests/traces/worked/refused-side.trace",
    },
    Explanation {
        topic: Topic::Kind,
        word: "27",
        name: "Hex",
        meaning: "The octets are no pairs of hex digits (a carriage return at the end of the line is none), or more than 4,200.",
        when: "On a row, where all before it is right; on a gap row where its third word is neither a logical channel of the header nor *. The trace is refused with status 2 and nothing is reported; findings that --follow printed before remain.",
        clause: "profile",
        example: "x25scan: line 2: kind 27",
        trace: "tests/traces/worked/refused-odd-hex.trace",
    },
    Explanation {
        topic: Topic::Kind,
        word: "28",
        name: "LineLong",
        meaning: "The line has more than 8,500 bytes without its line feed, comments too.",
        when: "On any line; it comes before all other kinds. The trace is refused with status 2 and nothing is reported; findings that --follow printed before remain.",
        clause: "profile",
        example: "x25scan: line 2: kind 28",
        trace: "tests/traces/worked/refused-long-comment.trace",
    },
    Explanation {
        topic: Topic::Kind,
        word: "29",
        name: "TextLarge",
        meaning: "The line holds a byte past the first 2^30 bytes of the trace.",
        when: "On any line; only 28 comes before it. The trace is refused with status 2 and nothing is reported; findings that --follow printed before remain.",
        clause: "profile",
        example: "x25scan: line 13421773: kind 29",
        trace: "",
    },
];

/// Returns the kinds of faulty lines, by their numbers.
pub fn kinds() -> &'static [Explanation]
    ensures { map key result.now ≡ kind_keys }
{
    &KINDS
}
