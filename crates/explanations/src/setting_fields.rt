//! The fields of a setting's line and of an account.

ghost use Rattle.std.specs.Prelude.{◌≡◌, map};
ghost use Rattle.explanations.specs.Table.{key, setting_field_keys};

use crate::explanation::{Explanation, Topic};

const SETTING_FIELDS: [Explanation; 4] = [
    Explanation {
        topic: Topic::Field,
        word: "parameter",
        name: "parameter of a PAD",
        meaning: "The reference of the parameter, 1 to 22.",
        when: "In S lines.",
        clause: "X.3 Table 1",
        example: "S 1 T 2 said 1",
        trace: "tests/traces/worked/pad-setting-said.trace",
    },
    Explanation {
        topic: Topic::Field,
        word: "word",
        name: "how a setting is known",
        meaning: "asked, said or refused.",
        when: "In S lines.",
        clause: "X.29 4.4",
        example: "S 1 T 2 said 1",
        trace: "tests/traces/worked/pad-setting-said.trace",
    },
    Explanation {
        topic: Topic::Field,
        word: "value",
        name: "value of a parameter",
        meaning: "The value that was asked for, said or refused, 0 to 255.",
        when: "In S lines.",
        clause: "X.3 Table 1",
        example: "S 1 T 2 said 1",
        trace: "tests/traces/worked/pad-setting-said.trace",
    },
    Explanation {
        topic: Topic::Field,
        word: "address",
        name: "address that pays",
        meaning: "The address that pays for calls: the called one where reverse charging was asked, otherwise the calling one; - where the packet has none.",
        when: "In A lines.",
        clause: "X.25 6.18; profile",
        example: "A 12 1 3",
        trace: "tests/traces/worked/addresses-reverse-charging.trace",
    },
];

/// Returns the fields of a setting's line and of an account's address.
pub fn setting_fields() -> &'static [Explanation]
    ensures { map key result.now ≡ setting_field_keys }
{
    &SETTING_FIELDS
}
