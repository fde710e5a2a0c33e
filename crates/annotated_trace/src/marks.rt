//! The marks of findings.

ghost use Rattle.std.specs.Prelude.{◌≡◌, ◌<◌, ◌^◌, ◌++◌, OnOk, decimal};
ghost use Rattle.line_model.specs.observer.Report.{code_word};
ghost use Rattle.annotated_trace.specs.Annotation.{explained};
ghost use Rattle.annotated_trace.specs.Marking.{HasMarkOf, IsCode, finding_words};
ghost use Rattle.annotated_trace.specs.Wording.{IsWords};

use crate::notes::NoteWords;
use itoa::Buffer;
use line_model::finding::{Code, Finding};
use report_merge::words::{pad_word, side_word, state_word};
use std::alloc::{AllocError, Allocator};

/// Appends a number in decimal digits.
fn append_number<A: Allocator>(number: u32, out: &mut Vec<u8, A>) -> Result<(), AllocError>
    ensures ok { OnOk result (out.new.items ≡ out.old.items ++ decimal number) }
    ensures fits { number < 2 ^ 32 }
{
    let mut buffer = Buffer::new();
    out.extend_from_slice(buffer.format(number).as_bytes())
}

/// Appends a code as the report writes it.
fn append_code<A: Allocator>(code: Code, out: &mut Vec<u8, A>) -> Result<(), AllocError>
    ensures ok { OnOk result (out.new.items ≡ out.old.items ++ code_word code) }
    ensures fits { IsCode code }
{
    match code {
        Code::Number(number) => append_number(u32::from(number), out),
        Code::Pad(code) => out.extend_from_slice(pad_word(code)),
    }
}

/// Appends a finding as the report writes it.
fn append_finding<A: Allocator>(finding: &Finding, out: &mut Vec<u8, A>) -> Result<(), AllocError>
    ensures ok { OnOk result (out.new.items ≡ out.old.items ++ finding_words finding.now) }
    ensures packet { OnOk result (finding.now.packet < 2 ^ 32) }
    ensures code { OnOk result (IsCode finding.now.code) }
{
    out.extend_from_slice(b"F ")?;
    append_number(finding.packet, out)?;
    out.push(b' ')?;
    out.extend_from_slice(side_word(finding.side))?;
    out.push(b' ')?;
    out.extend_from_slice(state_word(finding.state))?;
    out.push(b' ')?;
    append_code(finding.code, out)
}

/// Appends what explains a finding: nothing, or words after a colon.
fn append_explained<A: Allocator>(
    words: &NoteWords<A>,
    out: &mut Vec<u8, A>,
) -> Result<(), AllocError>
    ensures ok { OnOk result (out.new.items ≡ out.old.items ++ explained words.now) }
    ensures words { IsWords words.now }
{
    if words.is_empty() {
        return Ok(());
    }
    out.extend_from_slice(b": ")?;
    words.append_to(out)
}

/// Appends the mark of a finding, with words that explain it or none.
pub(crate) fn append_mark<A: Allocator>(
    finding: &Finding,
    words: &NoteWords<A>,
    out: &mut Vec<u8, A>,
) -> Result<(), AllocError>
    ensures { OnOk result (HasMarkOf finding.now out.old.items out.new.items) }
{
    out.extend_from_slice(b"#! ")?;
    append_finding(finding, out)?;
    append_explained(words, out)?;
    out.push(b'\n')?;
    Ok(())
}
