//! What was recorded of one side alone, in words.

use crate::line_sides::LineHalf;
use line_model::state::Side;
use std::alloc::{AllocError, Global};

/// The most ranges of numbers in a sentence.
const MOST_RANGES: usize = 20;

/// Numbers that follow each other.
#[derive(Clone, Copy)]
struct Range {
    first: u64,
    last: u64,
}

/// Returns which side alone was recorded.
pub(crate) fn recorded(side: Side) -> &'static str {
    match side {
        Side::T => "only the DTE was recorded",
        Side::N => "only the DCE was recorded",
    }
}

/// Returns where one side alone of a line was recorded.
pub(crate) fn line_words(half: LineHalf) -> &'static str {
    if half.is_link { " on the link" } else { "" }
}

/// Returns where one side alone was recorded of connections, by their numbers in any order.
pub(crate) fn connection_words(alloc: Global, numbers: Vec<u64>) -> Result<String, AllocError> {
    let mut numbers = numbers;
    numbers.sort_unstable();
    let end = if numbers.len() == 1 { "" } else { "s" };
    let ranges = ranges_of(alloc, &numbers)?;
    let mut text = format!(in alloc; " on connection{end} ")?;
    push_ranges(alloc, &ranges, &mut text)?;
    if ranges.len() > MOST_RANGES {
        let count = numbers.len();
        let others = format!(in alloc; " and others, {count} in all")?;
        text.push_str(&others)?;
    }
    Ok(text)
}

/// Returns the ranges of ascending numbers, as far as a sentence has them, and one more.
fn ranges_of(alloc: Global, numbers: &[u64]) -> Result<Vec<Range>, AllocError> {
    let mut ranges = Vec::new(alloc);
    let mut range: Option<Range> = None;
    for number in numbers {
        if ranges.len() > MOST_RANGES {
            return Ok(ranges);
        }
        let next = with_number(range, *number);
        if let Some(ended) = range {
            if ended.first != next.first {
                ranges.push(ended)?;
            }
        }
        range = Some(next);
    }
    if let Some(last) = range {
        ranges.push(last)?;
    }
    Ok(ranges)
}

/// Returns the range of a number: the last one, where the number follows that.
fn with_number(range: Option<Range>, number: u64) -> Range {
    match range {
        Some(range) if range.last.saturating_add(1) == number => Range {
            last: number,
            ..range
        },
        _ => Range {
            first: number,
            last: number,
        },
    }
}

/// Appends the ranges that a sentence has, such as `1 to 6, 8 and 11`.
fn push_ranges(alloc: Global, ranges: &[Range], text: &mut String) -> Result<(), AllocError> {
    let count = ranges.len().min(MOST_RANGES);
    for index in 0..count {
        if index > 0 {
            let is_last = index + 1 == ranges.len();
            text.push_str(if is_last { " and " } else { ", " })?;
        }
        push_range(alloc, ranges[index], text)?;
    }
    Ok(())
}

/// Appends a range.
fn push_range(alloc: Global, range: Range, text: &mut String) -> Result<(), AllocError> {
    let Range { first, last } = range;
    let words = match last.saturating_sub(first) {
        0 => format!(in alloc; "{first}"),
        1 => format!(in alloc; "{first} and {last}"),
        _ => format!(in alloc; "{first} to {last}"),
    }?;
    text.push_str(&words)
}
