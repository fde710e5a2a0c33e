//! The note on standard error of the data that was not counted.

use line_model::device::Sink;
use line_model::write_buffer::write_all;
use live_report::uncounted::{Amount, REASONS, Reason, Uncounted};
use std::alloc::{AllocError, Global};

/// What is said of data that was not counted for a reason.
fn words(reason: Reason) -> &'static str {
    match reason {
        Reason::Finding => "with a finding",
        Reason::Owed => "while the DCE owes its indication",
        Reason::NotInTransfer => "outside data transfer",
        Reason::Discarded => "in a state that discards data",
        Reason::Unknown => "before the state of the channel is known",
        Reason::Restart => "during a restart",
    }
}

/// What was not counted for any reason.
fn sum(uncounted: &Uncounted) -> Amount {
    let mut sum = Amount {
        packets: 0,
        octets: 0,
    };
    for reason in &REASONS {
        let amount = uncounted.amount(*reason);
        sum.packets = sum.packets.saturating_add(amount.packets);
        sum.octets = sum.octets.saturating_add(amount.octets);
    }
    sum
}

/// A count and the name of what it counts.
fn many(alloc: Global, number: u64, one: &str) -> Result<String, AllocError> {
    let end = if number == 1 { "" } else { "s" };
    format!(in alloc; "{number} {one}{end}")
}

/// Appends what was not counted for a reason, where there is any.
fn push_part(
    alloc: Global,
    amount: Amount,
    reason: Reason,
    text: &mut String,
) -> Result<(), AllocError> {
    if amount.packets == 0 {
        return Ok(());
    }
    let octets = many(alloc, amount.octets, "octet")?;
    let between = if text.ends_with(":") { "" } else { "," };
    let packets = amount.packets;
    let words = words(reason);
    let part = format!(in alloc; "{between} {packets} ({octets}) {words}")?;
    text.push_str(&part)?;
    Ok(())
}

/// The note, where some data was not counted.
fn note(alloc: Global, uncounted: &Uncounted) -> Result<Option<String>, AllocError> {
    let sum = sum(uncounted);
    if sum.packets == 0 {
        return Ok(None);
    }
    let packets = many(alloc, sum.packets, "data packet")?;
    let octets = many(alloc, sum.octets, "octet")?;
    let were = if sum.packets == 1 { "was" } else { "were" };
    let mut text = format!(in alloc; "x25scan: {packets} with {octets} {were} not counted:")?;
    for reason in &REASONS {
        push_part(alloc, uncounted.amount(*reason), *reason, &mut text)?;
    }
    text.push_str("; --annotate shows where\n")?;
    Ok(Some(text))
}

/// Prints which data was not counted, where a note is asked for. A note that standard error does not accept is lost.
pub(crate) fn print_note<E: Sink>(
    alloc: Global,
    is_asked: bool,
    uncounted: &Uncounted,
    errors: &mut E,
) {
    if !is_asked {
        return;
    }
    if let Ok(Some(text)) = note(alloc, uncounted) {
        let _ = write_all(errors, text.as_bytes());
    }
}
