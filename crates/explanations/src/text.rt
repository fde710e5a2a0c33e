//! The texts of explanations (profile).

ghost use Rattle.std.specs.Prelude.{◌≡◌, ◌++◌, IfOk, OnOk, string_bytes};
ghost use Rattle.explanations.specs.Table.{rows};
ghost use Rattle.explanations.specs.Texts.{explanation_text, explanations_text, heading, headings_text, place};

use crate::explanation::Explanation;
use std::alloc::{AllocError, Global};

/// The line of a word in the list of all.
fn heading(alloc: Global, explanation: &Explanation) -> Result<String, AllocError>
    ensures { IfOk result (λ text. string_bytes text ≡ heading explanation.now) }
{
    let topic = explanation.topic.word();
    format!(in alloc; "{} ({topic}): {}\n", explanation.word, explanation.name)
}

/// The end of an example's line.
fn place(alloc: Global, trace: &str) -> Result<String, AllocError>
    ensures { IfOk result (λ text. string_bytes text ≡ place trace.now) }
{
    if trace.is_empty() {
        return String::from_str(alloc, "\n");
    }
    format!(in alloc; " in /usr/share/doc/x25scan/{trace}\n")
}

/// The lines of an explanation.
fn explanation_text(alloc: Global, explanation: &Explanation) -> Result<String, AllocError>
    ensures { IfOk result (λ text. string_bytes text ≡ explanation_text explanation.now) }
{
    let heading = heading(alloc, explanation)?;
    let place = place(alloc, explanation.trace)?;
    let see = explanation.topic.document();
    format!(in alloc;
        "{heading}  {}\n  When: {}\n  Clause: {}\n  See: {see}\n  Example: {}{place}",
        explanation.meaning, explanation.when, explanation.clause, explanation.example
    )
}

/// Returns the text of explanations, one after the other.
pub fn explanations_text(alloc: Global, found: &[Explanation]) -> Result<String, AllocError>
    ensures { IfOk result (λ text. string_bytes text ≡ explanations_text found.now) }
{
    let mut text = String::new(alloc);
    for explanation in found {
        let more = explanation_text(alloc, explanation)?;
        text.push_str(&more)?;
    }
    Ok(text)
}

/// Appends the headings of a section.
fn push_headings(
    alloc: Global,
    section: &[Explanation],
    text: &mut String,
) -> Result<(), AllocError>
    ensures { OnOk result (string_bytes text.new ≡ string_bytes text.old
        ++ headings_text section.now) }
{
    for explanation in section {
        let line = heading(alloc, explanation)?;
        text.push_str(&line)?;
    }
    Ok(())
}

/// Returns the list of the words of some sections, a line each.
pub fn headings_text(
    alloc: Global,
    sections: &[&'static [Explanation]],
) -> Result<String, AllocError>
    ensures { IfOk result (λ text. string_bytes text ≡ headings_text (rows sections.now)) }
{
    let mut text = String::new(alloc);
    for section in sections {
        push_headings(alloc, section, &mut text)?;
    }
    Ok(text)
}
