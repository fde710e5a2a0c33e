//! The fields of call packets in words.

use crate::facts::RowFacts;
use crate::prose::{Prose, address, say_number};
use packet_decode::fields::CallFields;

/// The first octet of the user data of a PAD call (X.29 clause 4.1).
const PAD: u8 = 1;

/// Writes the fields of a call packet without fault.
pub fn call<P: Prose>(out: &mut P, facts: &RowFacts<'_>) {
    match facts.call_fields() {
        Some(Ok(fields)) => {
            out.say(", called ");
            address(out, &fields.called);
            out.say(", calling ");
            address(out, &fields.calling);
            say_facilities(out, &fields);
            say_user_data(out, fields.user_data);
        }
        Some(Err(_)) => out.say(", its fields can't be read"),
        None => {}
    }
}

/// Returns whether user data is that of a PAD call.
pub fn is_pad(user_data: &[u8]) -> bool {
    !user_data.is_empty() && user_data[0] == PAD
}

fn say_facilities<P: Prose>(out: &mut P, fields: &CallFields<'_>) {
    if fields.reverse {
        out.say(", reverse charging");
    }
    if fields.fast {
        out.say(", fast select");
    }
    say_pair(out, ", packet sizes ", sizes_of(fields));
    say_pair(out, ", windows ", windows_of(fields));
}

/// Returns the packet sizes of a call, for data from the called and from the calling DTE, if it asks for any.
pub fn sizes_of(fields: &CallFields<'_>) -> Option<(u64, u64)> {
    let (called, calling) = fields.sizes?;
    Some((u64::from(called), u64::from(calling)))
}

/// Returns the windows of a call, for data from the called and from the calling DTE, if it asks for any.
pub fn windows_of(fields: &CallFields<'_>) -> Option<(u64, u64)> {
    let (called, calling) = fields.windows?;
    Some((u64::from(called), u64::from(calling)))
}

/// Writes a value for data from the called DTE, and one for data from the calling DTE.
fn say_pair<P: Prose>(out: &mut P, name: &str, pair: Option<(u64, u64)>) {
    if let Some((called, calling)) = pair {
        say_number(out, name, called);
        say_number(out, " from the called and ", calling);
        out.say(" from the calling DTE");
    }
}

fn say_user_data<P: Prose>(out: &mut P, user_data: &[u8]) {
    if user_data.is_empty() {
        return;
    }
    out.say(", user data ");
    out.octets(user_data);
    if is_pad(user_data) {
        out.say(" of a PAD call");
    }
}
