//! What one line says after those before it: a comment, the header, or a row.

ghost use Rattle.std.specs.Prelude.{◌≡◌, None, MatchResult, is_some};
ghost use Rattle.line_model.specs.text.Text.{contents_kind, is_comment};
ghost use Rattle.trace_text.specs.Reads.{ReadsAs, Breaks, whole_row};

use crate::content::{Content, LineFault};
use crate::header::read_header;
use crate::row_line::read_row;
use line_model::interface::Interface;
use line_model::row::ReadRow;
use std::alloc::Allocator;

fn is_comment_line(line: &[u8]) -> bool
    ensures { result ≡ is_comment line.now }
{
    match line {
        [first, ..] => *first == b'#',
        [] => false,
    }
}

/// Returns what a line says that comes before the header, or after the header of an interface and a row with the number
/// `last`. A row is read into `row`, as `read_row` does. Fails with the rule that the line breaks, or when memory is
/// refused.
#[tactic(auto, unfolding(line_model::specs::text::Text::contents_kind))]
pub fn read_line<A: Allocator>(
    head: &Option<Interface>,
    last: u32,
    line: &[u8],
    row: &mut ReadRow<A>,
) -> Result<Content, LineFault>
    ensures { MatchResult result
        (λ content. (contents_kind head.now last line.now ≡ None) × ReadsAs (is_some head.now) last line.now content (whole_row row.new))
        (Breaks (contents_kind head.now last line.now)) }
{
    if is_comment_line(line) {
        return Ok(Content::Comment);
    }
    if let Some(interface) = head {
        read_row(interface, last, line, row)?;
        return Ok(Content::Packet);
    }
    match read_header(line) {
        Ok(interface) => Ok(Content::Header(interface)),
        Err(kind) => Err(LineFault::Broken(kind)),
    }
}
