//! What the findings of a trace add up to, after the last one.
#![tactic(auto, using(crate::proofs::ValueLemmas::these_then))]

ghost use Rattle.std.specs.Prelude.{◌≡◌, ◌≤◌, length};
ghost use Rattle.descriptions.specs.FindingLines.{AreDetails, IsFindingSums, count_of, counted, found_words, is_side, sides_words, sums_line};
ghost use Rattle.descriptions.specs.Writing.{Adds, These};

use crate::effects::reason_words;
use crate::facts::RowFacts;
use crate::finding_hosts::{HostCounts, MostFindings};
use crate::finding_words::put_words;
use crate::json::{Json, Out};
use crate::names;
use crate::prose::{Prose, count};
use crate::sentence::Sentence;
use explanations::lookup::code_row;
use line_model::finding::{Code, Finding};
use line_model::report::Report;
use line_model::state::Side;
use live_report::uncounted::{Reason, Uncounted};
use std::alloc::{AllocError, Allocator};

/// How often a side has a code.
#[derive(Clone, Copy)]
struct SideCode {
    side: Side,
    code: Code,
    count: u64,
}

/// What is kept of the findings for the end.
#[derive(Drop)]
pub struct FindingSums<A: Allocator> {
    /// The codes of each side, in the order of their first findings.
    codes: Vec<SideCode, A>,
    /// How many findings may follow from an earlier one.
    follows: u64,
    /// How many are in rows that were chosen; none where all rows are.
    chosen: Option<u64>,
    /// How often each host broke the protocol.
    hosts: HostCounts<A>,
    /// The data that was not counted.
    pub uncounted: Uncounted,
}

impl<A: Allocator + Copy> FindingSums<A> {
    /// Starts before the first row, of which all are printed or some are chosen. Allocates no memory.
    pub fn new(alloc: A, is_choice: bool) -> Self {
        FindingSums {
            codes: Vec::new(alloc),
            follows: 0,
            chosen: is_choice.then_some(0),
            hosts: HostCounts::new(alloc),
            uncounted: Uncounted::none(),
        }
    }

    /// Counts a code of a side. Fails only when memory is refused.
    fn count(&mut self, side: Side, code: Code) -> Result<(), AllocError> {
        for known in self.codes.as_mut_slice() {
            if known.side == side && known.code == code {
                known.count = known.count.saturating_add(1);
                return Ok(());
            }
        }
        self.codes.push(SideCode {
            side,
            code,
            count: 1,
        })?;
        Ok(())
    }

    /// Counts the finding of a row that is printed or not, if it has one; of the host that sent it, where it is known. Fails
    /// only when memory is refused.
    pub fn take(
        &mut self,
        facts: &RowFacts<'_>,
        host: Option<&[u8]>,
        is_picked: bool,
    ) -> Result<(), AllocError> {
        let Some(finding) = facts.last.finding else {
            return Ok(());
        };
        if facts.earlier.follows.is_some() {
            self.follows = self.follows.saturating_add(1);
        }
        if let Some(chosen) = self.chosen {
            if is_picked {
                self.chosen = Some(chosen.saturating_add(1));
            }
        }
        if let Some(address) = host {
            self.hosts.take(address)?;
        }
        self.count(finding.side, finding.code)
    }
}

/// Whether a side is this one.
fn is_side(side: Side, other: Side) -> bool
    ensures { result ≡ is_side side other }
{
    match side {
        Side::T => match other {
            Side::T => true,
            Side::N => false,
        },
        Side::N => match other {
            Side::T => false,
            Side::N => true,
        },
    }
}

/// Returns how many findings are of a side.
fn count_of(side: Side, findings: &[Finding]) -> usize
    ensures count { result ≡ count_of side findings.now }
    ensures few { result ≤ length findings.now }
{
    let mut number: usize = 0;
    for finding in findings {
        if is_side(side, finding.side) {
            number += 1;
        }
    }
    number
}

/// Writes a number and the name of what it counts, which is plural except after 1.
fn put_counted<O: Out>(json: &mut Json<O>, number: u64, one: &str)
    ensures { Adds O.has (These (counted number one.now)) json.old.out json.new.out }
{
    if number == 1 {
        json.raw(b"1 ");
        json.raw(one.as_bytes());
    } else {
        json.number(number);
        json.raw(b" ");
        json.raw(one.as_bytes());
        json.raw(b"s");
    }
}

/// Writes how many findings there are.
fn put_found<O: Out>(json: &mut Json<O>, all: u64)
    ensures { Adds O.has (These (found_words all)) json.old.out json.new.out }
{
    if all == 0 {
        json.raw(b"no findings");
    } else {
        put_counted(json, all, "finding");
    }
}

/// Writes how many findings are of each side, if there are any.
fn put_sides<O: Out>(json: &mut Json<O>, all: u64, of_dte: u64, of_dce: u64)
    ensures { Adds O.has (These (sides_words all of_dte of_dce)) json.old.out json.new.out }
{
    if all == 0 {
        return;
    }
    json.raw(b": ");
    json.number(of_dte);
    json.raw(b" by the DTE, ");
    json.number(of_dce);
    json.raw(b" by the DCE");
}

/// Writes the line of the sums.
fn put_sums<O: Out, A: Allocator>(json: &mut Json<O>, report: &Report<A>)
    ensures { Adds O.has (These (sums_line report.now)) json.old.out json.new.out }
{
    let findings = report.findings.as_slice();
    let all = findings.len() as u64;
    put_found(json, all);
    json.raw(b" in ");
    put_counted(json, report.summary.packets, "packet");
    json.raw(b" and ");
    put_counted(json, report.summary.calls, "call");
    put_sides(
        json,
        all,
        count_of(Side::T, findings) as u64,
        count_of(Side::N, findings) as u64,
    );
    json.raw(b"\n");
}

/// What a line after the sums is about.
#[derive(Clone, Copy)]
enum Detail {
    /// How many findings are in the rows that were chosen.
    Chosen,
    /// The codes of a side.
    Codes(Side),
    /// A host, by its place among those with the most findings.
    Host(usize),
    /// The hosts after those.
    OtherHosts,
    /// How many findings may follow from an earlier one.
    Follows,
    /// Where packets may be missing.
    Gaps,
    /// Data that was not counted.
    Uncounted(Reason),
}

/// The lines after the sums, in the order in which they are written.
const DETAILS: [Detail; 22] = [
    Detail::Chosen,
    Detail::Codes(Side::T),
    Detail::Codes(Side::N),
    Detail::Host(0),
    Detail::Host(1),
    Detail::Host(2),
    Detail::Host(3),
    Detail::Host(4),
    Detail::Host(5),
    Detail::Host(6),
    Detail::Host(7),
    Detail::Host(8),
    Detail::Host(9),
    Detail::OtherHosts,
    Detail::Follows,
    Detail::Gaps,
    Detail::Uncounted(Reason::Finding),
    Detail::Uncounted(Reason::Owed),
    Detail::Uncounted(Reason::NotInTransfer),
    Detail::Uncounted(Reason::Discarded),
    Detail::Uncounted(Reason::Unknown),
    Detail::Uncounted(Reason::Restart),
];

/// The most codes of a side that are named.
const NAMED_CODES: u64 = 6;

/// Writes how often something was.
fn say_times(out: &mut Sentence, number: u64) {
    match number {
        1 => out.say("once"),
        2 => out.say("twice"),
        number => {
            out.number(number);
            out.say(" times");
        }
    }
}

/// Writes a code with its name.
fn say_code(out: &mut Sentence, code: Code) {
    out.say("code ");
    match code {
        Code::Number(number) => out.number(u64::from(number)),
        Code::Pad(_) => {}
    }
    if let Some(row) = code_row(code) {
        if let Code::Pad(_) = code {
            out.say(row.word);
        }
        out.say(" (");
        out.say(row.name);
        out.say(")");
    }
}

/// Writes how often a side broke the protocol, and by which codes.
fn say_side(out: &mut Sentence, side: Side, codes: &[SideCode]) {
    let mut all: u64 = 0;
    for known in codes {
        if known.side == side {
            all = all.saturating_add(known.count);
        }
    }
    if all == 0 {
        return;
    }
    out.say("The ");
    out.say(names::side(side));
    out.say(" broke the protocol ");
    say_times(out, all);
    say_codes(out, side, codes, all);
}

/// Writes the codes of a side that has as many findings: the first ones by name, and how many findings have others.
fn say_codes(out: &mut Sentence, side: Side, codes: &[SideCode], all: u64) {
    let mut named: u64 = 0;
    let mut left = all;
    for known in codes {
        if known.side == side && named < NAMED_CODES {
            out.say(if known.count == all {
                ","
            } else if named == 0 {
                ": "
            } else {
                ", "
            });
            if known.count != all {
                say_times(out, known.count);
            }
            out.say(" with ");
            say_code(out, known.code);
            named = named.saturating_add(1);
            left = left.saturating_sub(known.count);
        }
    }
    if left != 0 {
        out.say(", ");
        say_times(out, left);
        out.say(" with other codes");
    }
}

/// Writes how often one of the hosts with the most findings broke the protocol.
fn say_host(out: &mut Sentence, most: &MostFindings, place: usize) {
    if let Some(Some(host)) = most.hosts.get(place) {
        host.say(out);
        out.say(" broke the protocol ");
        say_times(out, host.count);
    }
}

/// Writes how many further hosts broke the protocol.
fn say_other_hosts(out: &mut Sentence, others: u64) {
    if others != 0 {
        count(out, "", others, " further host");
        out.say(" broke the protocol");
    }
}

/// Writes how many findings are in the rows that were chosen.
fn say_chosen(out: &mut Sentence, chosen: Option<u64>) {
    if let Some(number) = chosen {
        count(out, "In the chosen rows: ", number, " finding");
    }
}

/// Writes how many findings may follow from an earlier one.
fn say_follows(out: &mut Sentence, number: u64) {
    if number != 0 {
        count(out, "", number, " finding");
        out.say(" may follow from an earlier one");
    }
}

/// Writes at how many places packets may be missing.
fn say_gaps(out: &mut Sentence, number: u32) {
    if number != 0 {
        count(
            out,
            "Not recorded: packets may be missing at ",
            u64::from(number),
            " gap",
        );
    }
}

/// Writes how much data was not counted for a reason.
fn say_left_out(out: &mut Sentence, uncounted: &Uncounted, reason: Reason, has_gaps: bool) {
    let amount = uncounted.amount(reason);
    if amount.packets != 0 {
        out.say("Not counted (");
        out.say(reason_words(reason, has_gaps));
        count(out, "): ", amount.packets, " data packet");
        count(out, " with ", amount.octets, " octet");
    }
}

/// Writes a line after the sums; nothing where there is nothing to say.
fn say_detail<A: Allocator>(
    out: &mut Sentence,
    detail: Detail,
    report: &Report<A>,
    sums: &FindingSums<A>,
    most: &MostFindings,
) {
    match detail {
        Detail::Chosen => say_chosen(out, sums.chosen),
        Detail::Codes(side) => say_side(out, side, sums.codes.as_slice()),
        Detail::Host(place) => say_host(out, most, place),
        Detail::OtherHosts => say_other_hosts(out, most.others),
        Detail::Follows => say_follows(out, sums.follows),
        Detail::Gaps => say_gaps(out, report.gaps.unwrap_or(0)),
        Detail::Uncounted(reason) => {
            say_left_out(out, &sums.uncounted, reason, report.gaps.is_some());
        }
    }
}

/// Writes a line after the sums, if it has words.
fn put_detail<O: Out>(json: &mut Json<O>, words: &[u8])
    ensures { Adds O.has AreDetails json.old.out json.new.out }
{
    if !words.is_empty() {
        json.raw(b"  ");
        put_words(json, words);
        json.raw(b"\n");
    }
}

/// Writes the lines after the sums.
fn put_details<O: Out, A: Allocator + Copy>(
    json: &mut Json<O>,
    report: &Report<A>,
    sums: &FindingSums<A>,
)
    ensures { Adds O.has AreDetails json.old.out json.new.out }
{
    let most = sums.hosts.most();
    for detail in &DETAILS {
        let mut words = Sentence::new();
        say_detail(&mut words, *detail, report, sums, &most);
        put_detail(json, words.as_bytes());
    }
}

/// Writes what the findings of a report add up to.
pub fn put_finding_sums<O: Out, A: Allocator + Copy>(
    json: &mut Json<O>,
    report: &Report<A>,
    sums: &FindingSums<A>,
)
    ensures { Adds O.has (IsFindingSums report.now) json.old.out json.new.out }
{
    put_sums(json, report);
    put_details(json, report, sums);
}
