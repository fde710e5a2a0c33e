//! The row of the table that explains the code of a finding, a cause, or a parameter of a PAD.

ghost use Rattle.std.specs.Prelude.{◌≡◌, decimal, map, option_map};
ghost use Rattle.line_model.specs.observer.Report.{pad_word};
ghost use Rattle.explanations.specs.Lookup.{cause_key, code_key, parameter_key, with_word};
ghost use Rattle.explanations.specs.Table.{clearing_cause_keys, key, resetting_cause_keys, restarting_cause_keys};

use crate::clearing_causes::clearing_causes;
use crate::explanation::Explanation;
use crate::flow_codes::flow_codes;
use crate::messages::messages;
use crate::packet_codes::packet_codes;
use crate::parameters::parameters;
use crate::resetting_causes::resetting_causes;
use crate::restarting_causes::restarting_causes;
use itoa::Buffer;
use line_model::finding::{Code, Xcode};

/// The word of a code of a PAD message.
fn message_word(code: Xcode) -> &'static str
    ensures { result.now ≡ pad_word code }
{
    match code {
        Xcode::X1 => "X1",
        Xcode::X2 => "X2",
        Xcode::X3 => "X3",
        Xcode::X4 => "X4",
        Xcode::XL => "XL",
    }
}

/// The first row of a section with a word.
fn row_with(section: &'static [Explanation], word: &[u8]) -> Option<&'static Explanation>
    ensures { option_map (λ row. key row.now) result ≡ with_word word.now (map key section.now) }
{
    for row in section {
        if row.word.as_bytes() == word {
            return Some(row);
        }
    }
    None
}

/// Returns the row of a code of a finding: the row with the code's word in the report. A number that is not a
/// diagnostic code has none.
pub fn code_row(code: Code) -> Option<&'static Explanation>
    ensures { option_map (λ row. key row.now) result ≡ code_key code }
{
    match code {
        Code::Pad(code) => row_with(messages(), message_word(code).as_bytes()),
        Code::Number(number) => {
            let mut buffer = Buffer::new();
            let word = buffer.format(number).as_bytes();
            match row_with(flow_codes(), word) {
                Some(row) => Some(row),
                None => row_with(packet_codes(), word),
            }
        }
    }
}

/// The row of a section with a number.
fn row_of(section: &'static [Explanation], number: u8) -> Option<&'static Explanation>
    ensures { option_map (λ row. key row.now) result ≡ with_word (decimal number) (map key section.now) }
{
    let mut buffer = Buffer::new();
    row_with(section, buffer.format(number).as_bytes())
}

/// Returns the row of a cause of a clear, where the Recommendation has one; 128 to 255 have none.
pub fn clearing_cause_row(cause: u8) -> Option<&'static Explanation>
    ensures { option_map (λ row. key row.now) result ≡ cause_key clearing_cause_keys cause }
{
    row_of(clearing_causes(), cause)
}

/// Returns the row of a cause of a reset, where the Recommendation has one; 128 to 255 have none.
pub fn resetting_cause_row(cause: u8) -> Option<&'static Explanation>
    ensures { option_map (λ row. key row.now) result ≡ cause_key resetting_cause_keys cause }
{
    row_of(resetting_causes(), cause)
}

/// Returns the row of a cause of a restart, where the Recommendation has one; 128 to 255 have none.
pub fn restarting_cause_row(cause: u8) -> Option<&'static Explanation>
    ensures { option_map (λ row. key row.now) result ≡ cause_key restarting_cause_keys cause }
{
    row_of(restarting_causes(), cause)
}

/// Returns the row of a parameter of a PAD by its reference, where X.3 has one.
pub fn parameter_row(reference: u8) -> Option<&'static Explanation>
    ensures { option_map (λ row. key row.now) result ≡ parameter_key reference }
{
    row_of(parameters(), reference)
}
