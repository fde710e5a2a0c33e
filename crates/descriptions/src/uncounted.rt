//! The data packets that the sums leave out, and why.

use crate::effects::reason_words;
use crate::prose::{Page, count};
use live_report::uncounted::{REASONS, Uncounted};

/// Writes a line for each reason for which there is any, of a trace that may have gaps.
pub fn say_uncounted<P: Page>(notes: &mut P, uncounted: &Uncounted, has_gaps: bool) {
    for reason in &REASONS {
        let amount = uncounted.amount(*reason);
        if amount.packets != 0 {
            notes.next_line();
            notes.say("Not counted (");
            notes.say(reason_words(*reason, has_gaps));
            count(notes, "): ", amount.packets, " data packet");
            count(notes, " with ", amount.octets, " octet");
        }
    }
}
