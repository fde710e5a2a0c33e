//! The words of how a setting of a PAD is known, and of an absent value.

ghost use Rattle.std.specs.Prelude.{◌≡◌, map};
ghost use Rattle.explanations.specs.Table.{key, setting_keys};

use crate::explanation::{Explanation, Topic};

const SETTINGS: [Explanation; 4] = [
    Explanation {
        topic: Topic::Setting,
        word: "asked",
        name: "asked",
        meaning: "The other side set the parameter to this value, and the PAD has said nothing of it since.",
        when: "In S lines.",
        clause: "X.29 4.4.1",
        example: "S 1 T 2 asked 1",
        trace: "tests/traces/worked/pad-setting-asked.trace",
    },
    Explanation {
        topic: Topic::Setting,
        word: "said",
        name: "said",
        meaning: "The PAD gave this value in a parameter indication.",
        when: "In S lines.",
        clause: "X.29 4.4.6",
        example: "S 1 T 2 said 1",
        trace: "tests/traces/worked/pad-setting-said.trace",
    },
    Explanation {
        topic: Topic::Setting,
        word: "refused",
        name: "refused",
        meaning: "The PAD marked the parameter as an error in a parameter indication, with this value.",
        when: "In S lines.",
        clause: "X.29 4.4.6",
        example: "S 1 T 21 refused 5",
        trace: "tests/traces/codes/settings-of-a-pad.trace",
    },
    Explanation {
        topic: Topic::Absent,
        word: "-",
        name: "absent",
        meaning: "The field has no value: no address, no row that brought the call up or ended it, no peak.",
        when: "In C, A and P lines. In a row of a trace it means that there are no octets.",
        clause: "profile",
        example: "P 0 -",
        trace: "tests/traces/worked/empty-trace.trace",
    },
];

/// Returns the words of a setting, and that of an absent value.
pub fn settings() -> &'static [Explanation]
    ensures { map key result.now ≡ setting_keys }
{
    &SETTINGS
}
