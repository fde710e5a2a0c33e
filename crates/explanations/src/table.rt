//! The table of all words, and the explanations of one.

ghost use Rattle.std.specs.Prelude.{◌≡◌, ◌++◌, IfOk, OnOk, map};
ghost use Rattle.explanations.specs.Table.{explanations_of, is_of, key, of_topic, rows, table_keys};

use crate::call_fields::call_fields;
use crate::call_states::call_states;
use crate::call_sums::call_sums;
use crate::call_terms::call_terms;
use crate::clearing_causes::clearing_causes;
use crate::data_states::data_states;
use crate::directions::directions;
use crate::endings::endings;
use crate::explanation::Explanation;
use crate::finding_fields::finding_fields;
use crate::flow_codes::flow_codes;
use crate::header_words::header_words;
use crate::interface_states::interface_states;
use crate::kinds::kinds;
use crate::lines::lines;
use crate::messages::messages;
use crate::packet_codes::packet_codes;
use crate::packet_terms::packet_terms;
use crate::parameters::parameters;
use crate::refusals::refusals;
use crate::resetting_causes::resetting_causes;
use crate::restarting_causes::restarting_causes;
use crate::setting_fields::setting_fields;
use crate::settings::settings;
use crate::statuses::statuses;
use crate::sum_fields::sum_fields;
use crate::terms::terms;
use crate::time_outs::time_outs;
use std::alloc::{AllocError, Global};

/// How many sections the table has.
pub const SECTIONS: usize = 27;

/// Returns the table: its sections, each the words of one part of what the program prints or reads. It explains all
/// words of the report, of a header and of the refusals, the causes and some terms, and no other.
pub fn all() -> [&'static [Explanation]; SECTIONS]
    ensures { map key (rows result) ≡ table_keys }
{
    [
        lines(),
        directions(),
        endings(),
        settings(),
        finding_fields(),
        call_fields(),
        call_sums(),
        setting_fields(),
        sum_fields(),
        interface_states(),
        call_states(),
        data_states(),
        flow_codes(),
        packet_codes(),
        messages(),
        header_words(),
        kinds(),
        refusals(),
        statuses(),
        clearing_causes(),
        resetting_causes(),
        restarting_causes(),
        terms(),
        packet_terms(),
        call_terms(),
        time_outs(),
        parameters(),
    ]
}

/// Whether a row explains a word: the row's own, its name, the name of its topic, or the topic and the row's own with a
/// space between them, such as `22`, `HeaderForm`, `kind` and `kind 22`.
fn explains(alloc: Global, explanation: &Explanation, word: &[u8]) -> Result<bool, AllocError>
    ensures { IfOk result (λ answer. answer ≡ is_of word.now explanation.now) }
{
    let topic = explanation.topic.name();
    let both = format!(in alloc; "{} {}", topic, explanation.word)?;
    Ok(
        explanation.word.as_bytes() == word
            || explanation.name.as_bytes() == word
            || topic.as_bytes() == word
            || both.as_bytes() == word,
    )
}

/// Appends the explanations of a word among those of a section.
fn push_explanations_in(
    alloc: Global,
    section: &'static [Explanation],
    word: &[u8],
    found: &mut Vec<Explanation>,
) -> Result<(), AllocError>
    ensures { OnOk result (found.new.items ≡ found.old.items
        ++ explanations_of word.now section.now) }
{
    for explanation in section {
        if explains(alloc, explanation, word)? {
            found.push(*explanation)?;
        }
    }
    Ok(())
}

/// Appends the explanations of a word among those of some sections, in their order.
pub fn push_explanations(
    alloc: Global,
    sections: &[&'static [Explanation]],
    word: &[u8],
    found: &mut Vec<Explanation>,
) -> Result<(), AllocError>
    ensures { OnOk result (found.new.items ≡ found.old.items
        ++ explanations_of word.now (rows sections.now)) }
{
    for section in sections {
        push_explanations_in(alloc, section, word, found)?;
    }
    Ok(())
}

/// Appends the explanations of a word of a topic, which is named.
pub fn push_explanations_of_topic(
    alloc: Global,
    sections: &[&'static [Explanation]],
    topic: &str,
    word: &[u8],
    found: &mut Vec<Explanation>,
) -> Result<(), AllocError>
    ensures { OnOk result (found.new.items ≡ found.old.items
        ++ explanations_of (of_topic topic.now word.now) (rows sections.now)) }
{
    let mut both = Vec::new(alloc);
    both.extend_from_slice(topic.as_bytes())?;
    both.extend_from_slice(b" ")?;
    both.extend_from_slice(word)?;
    push_explanations(alloc, sections, both.as_slice(), found)
}

/// Returns the explanations of a word among those of some sections, in their order; none where no row has the word.
pub fn explain(
    alloc: Global,
    sections: &[&'static [Explanation]],
    word: &str,
) -> Result<Vec<Explanation>, AllocError>
    ensures { IfOk result (λ found. found.items ≡ explanations_of word.now (rows sections.now)) }
{
    let mut found = Vec::new(alloc);
    push_explanations(alloc, sections, word.as_bytes(), &mut found)?;
    Ok(found)
}
