//! The report in words, at the end of an annotated trace.

use crate::parameters::setting;
use crate::prose::{Page, address, count, say_number};
use crate::uncounted::say_uncounted;
use line_model::call::{Account, CallRecord, SettingRecord};
use line_model::event::How;
use line_model::report::{Peak, Report};
use live_report::uncounted::Uncounted;
use std::alloc::Allocator;

/// Writes the sums, the calls with their PADs, the accounts, the peak, and what was not counted.
pub fn report<A: Allocator, P: Page>(notes: &mut P, report: &Report<A>, uncounted: &Uncounted) {
    sums(notes, report);
    calls(notes, &report.calls);
    accounts(notes, &report.accounts);
    peak(notes, &report.peak);
    say_uncounted(notes, uncounted, report.gaps.is_some());
}

fn sums<A: Allocator, P: Page>(notes: &mut P, report: &Report<A>) {
    let summary = &report.summary;
    count(notes, "Report: ", summary.packets, " packet");
    if let Some(gaps) = report.gaps {
        count(notes, ", ", u64::from(gaps), " gap");
    }
    count(notes, ", ", summary.findings, " finding");
    count(notes, ", ", summary.calls, " call");
    count(notes, "; counted: ", summary.octets, " octet");
    count(notes, " in ", summary.segments, " segment");
}

fn calls<A: Allocator, P: Page>(notes: &mut P, calls: &[CallRecord<A>]) {
    let mut number: u64 = 0;
    for record in calls {
        number = number.saturating_add(1);
        notes.next_line();
        call(notes, number, record);
        settings(notes, &record.settings);
    }
}

fn call<A: Allocator, P: Page>(notes: &mut P, number: u64, call: &CallRecord<A>) {
    say_number(notes, "Call ", number);
    notes.say(if call.out { ", outgoing" } else { ", incoming" });
    say_number(notes, " on logical channel ", u64::from(call.channel));
    notes.say(": called ");
    address(notes, &call.called);
    notes.say(", calling ");
    address(notes, &call.calling);
    say_number(notes, "; opened by packet ", u64::from(call.opened));
    match call.up {
        Some(packet) => say_number(notes, ", up with ", u64::from(packet)),
        None => notes.say(", never up"),
    }
    ended(notes, call.ended, call.how);
    count(notes, "; from the DTE ", call.data_t, " data packet");
    count(notes, " with ", call.oct_t, " octet");
    count(notes, ", from the DCE ", call.data_n, " data packet");
    count(notes, " with ", call.oct_n, " octet");
    count(notes, "; ", call.segments, " segment");
}

fn ended<P: Page>(notes: &mut P, ended: Option<u32>, how: Option<How>) {
    let Some(packet) = ended else {
        notes.say(", open at the end");
        return;
    };
    if how == Some(How::Gap) {
        say_number(notes, ", ended before ", u64::from(packet));
        notes.say(": its end was not recorded");
        return;
    }
    say_number(notes, ", ended with ", u64::from(packet));
    notes.say(match how {
        Some(How::T) => " by the DTE",
        Some(How::N) => " by the DCE",
        Some(How::Collision) => " by a call collision",
        Some(How::Restart) => " by a restart",
        _ => "",
    })
}

fn settings<P: Page>(notes: &mut P, settings: &[SettingRecord]) {
    for record in settings {
        notes.next_line();
        notes.say("  ");
        setting(notes, record.pad, record.parameter, record.entry);
    }
}

fn accounts<P: Page>(notes: &mut P, accounts: &[Account]) {
    for account in accounts {
        notes.next_line();
        notes.say("Account ");
        address(notes, &account.address);
        count(notes, ": ", account.calls, " call");
        count(notes, ", ", account.segments, " segment");
    }
}

fn peak<P: Page>(notes: &mut P, peak: &Peak) {
    notes.next_line();
    count(notes, "Peak: ", peak.count, " call");
    notes.say(" in data transfer at once");
    if let Some(packet) = peak.packet {
        say_number(notes, ", first after packet ", u64::from(packet));
    }
}
