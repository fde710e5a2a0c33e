//! Fast path: the objects of data with Q 0 and of receive ready, in d1 and without a finding.

ghost use Rattle.std.specs.Prelude.{◌≡◌, ℕ, ◌++◌, ◌∷◌, [], List, IfSome, None, Some, codes, false};
ghost use Rattle.std.specs.Bool.{OnTrue};
ghost use Rattle.line_model.specs.observer.Calls.{all_lengths};
ghost use Rattle.line_model.specs.observer.Report.{side_word};
ghost use Rattle.line_model.specs.declared.packet.Packet.TheVariants.{Channel as OfChannel};
ghost use Rattle.line_model.specs.packets.Says.{gap_of};
ghost use Rattle.descriptions.specs.Facts.{IsFateOf};
ghost use Rattle.descriptions.specs.Follows.{is_renewing};
ghost use Rattle.descriptions.specs.Lines.{Puts, PutsForm};
ghost use Rattle.descriptions.specs.Members.{IsFurther, IsText, IsValue, call_member, call_word};
ghost use Rattle.descriptions.specs.RowObjects.{counted_word, named_channel};
ghost use Rattle.descriptions.specs.RowCalls.{AreQuiet};
ghost use Rattle.descriptions.specs.CommonObjects.{IsCommonObject, amount_word, is_quiet, is_settled, common_head};

use crate::facts::{Fate, is_adrift};
use crate::line_room::LineRoom;
use call_accounts::so_far::segments_in;
use channel_run::status_word::{bit, state_in};
use data_transfer::packed::FlowWord;
use line_model::event::{Event, What};
use line_model::packet::{DataHeader, Packet, PacketKind};
use line_model::state::{ChannelState, DState, Side};
use live_report::judged_row::{Judge, JudgedRow};

/// A row on a logical channel, and what its object says of it.
#[derive(Clone, Copy)]
pub struct CommonRow<'a> {
    /// The row.
    pub row: &'a JudgedRow,
    /// The events of its channel.
    pub events: &'a [Event],
    /// Its epoch: the time between two restarts.
    pub epoch: u32,
    /// The call that is open on its channel, or 0.
    pub call: u32,
    /// The hex digits of its octets, as its line has them.
    pub digits: &'a [u8],
}

/// The bit of a channel's word that is set where the DCE owes an indication.
const OWED: u32 = 5;

/// Whether a channel is in d1, the DCE owes no indication, and no gap left its state open, by its word.
#[inline(always)]
fn is_settled(word: &FlowWord) -> bool
    ensures { result ≡ is_settled word.now }
{
    let owner_bits = word.owner_bits();
    state_in(owner_bits) == ChannelState::Transfer(DState::D1)
        && !bit(owner_bits, OWED)
        && !is_adrift(word)
}

/// Whether a row found nothing and left its channel in d1, where the DCE owed no indication before and after it.
#[inline(always)]
fn is_quiet(row: &JudgedRow) -> bool
    ensures { result ≡ is_quiet row.now }
{
    match &row.judge {
        Judge::Restart { .. } => false,
        Judge::Channel { before, after, .. } => {
            row.finding.is_none() && is_settled(before) && is_settled(after)
        }
    }
}

/// The members from the call of a data packet to its digits.
const TO_DATA_DIGITS: &[u8] =
    b",\"begins\":false,\"up\":false,\"ends\":[],\"not_counted\":null,\"time\":null,\"type\":\"data\",\"hex\":\"";

/// The members from the call of a receive ready to its digits.
const TO_READY_DIGITS: &[u8] =
    b",\"begins\":false,\"up\":false,\"ends\":[],\"not_counted\":null,\"time\":null,\"type\":\"rr\",\"hex\":\"";

/// The members of the M bit and the D bit of data with Q 0, up to its octets.
fn bit_members(header: &DataHeader) -> &'static [u8]
    ensures { (value : List ℕ) → IsValue value → IsFurther (result.now ++ value) }
{
    match (header.more, header.delivery) {
        (false, false) => b",\"more\":false,\"qualified\":false,\"delivery\":false,\"octets\":",
        (false, true) => b",\"more\":false,\"qualified\":false,\"delivery\":true,\"octets\":",
        (true, false) => b",\"more\":true,\"qualified\":false,\"delivery\":false,\"octets\":",
        (true, true) => b",\"more\":true,\"qualified\":false,\"delivery\":true,\"octets\":",
    }
}

/// Puts the members of a data packet after its call.
fn put_data(line: &mut LineRoom, header: &DataHeader, octets: u32, digits: &[u8])
    ensures { IsText digits.now → PutsForm IsFurther line.old line.new }
{
    line.number(u64::from(octets));
    line.put(bit_members(header));
    line.number(u64::from(header.receive));
    line.put(b",\"receive\":");
    line.number(u64::from(header.send));
    line.put(b"\",\"send\":");
    line.put(digits);
    line.put(TO_DATA_DIGITS);
}

/// Puts the members of a receive ready after its call.
fn put_ready(line: &mut LineRoom, receive: u8, digits: &[u8])
    ensures { IsText digits.now → PutsForm IsFurther line.old line.new }
{
    line.number(u64::from(receive));
    line.put(b"\",\"receive\":");
    line.put(digits);
    line.put(TO_READY_DIGITS);
}

/// Puts the members after the call of a row, if it is data with Q 0 that was counted, or a receive ready.
#[inline(always)]
fn put_packet(line: &mut LineRoom, kind: &PacketKind, fate: Fate, digits: &[u8]) -> bool
    ensures members { OnTrue result (IsText digits.now → PutsForm IsFurther line.old line.new) }
    ensures packet { OnTrue result ((k : ℕ) → gap_of (OfChannel k kind.now) ≡ None) }
    ensures renews { OnTrue result ((k : ℕ) → is_renewing (OfChannel k kind.now) ≡ false) }
{
    match (kind, fate) {
        (PacketKind::Data(Some(header)), Fate::Counted { octets, .. }) if !header.qualified => {
            put_data(line, header, octets, digits);
            true
        }
        (PacketKind::Rr(Some(receive)), Fate::NoData) => {
            put_ready(line, *receive, digits);
            true
        }
        _ => false,
    }
}

/// Puts the number of a call, or null.
fn put_call(line: &mut LineRoom, call: u32)
    ensures { Puts (call_word call) line.old line.new }
{
    match call {
        0 => line.put(b"null"),
        call => line.number(u64::from(call)),
    }
}

/// Puts the member of a call.
fn put_call_member(line: &mut LineRoom, call: u32)
    ensures { Puts (call_member call) line.old line.new }
{
    put_call(line, call);
    line.put(b",\"call\":");
}

/// Puts what was counted, or null.
fn put_counted(line: &mut LineRoom, fate: Fate)
    ensures { (lengths : List ℕ) → IsFateOf lengths fate
        → Puts (counted_word lengths) line.old line.new }
{
    match fate {
        Fate::Counted { octets, segments } => {
            line.put(b"}");
            line.number(segments);
            line.put(b",\"segments\":");
            line.number(u64::from(octets));
            line.put(b"{\"octets\":");
        }
        _ => line.put(b"null"),
    }
}

/// The side of a row, up to its channel.
fn side_member(side: Side) -> &'static [u8]
    ensures { result.now ≡ codes ",\"side\":\"" ++ (side_word side ++ codes "\",\"channel\":") }
{
    match side {
        Side::T => b",\"side\":\"T\",\"channel\":",
        Side::N => b",\"side\":\"N\",\"channel\":",
    }
}

/// Puts the beginning of the object of a row.
fn put_head(line: &mut LineRoom, common: &CommonRow<'_>, channel: u16, fate: Fate)
    ensures { (lengths : List ℕ) → IsFateOf lengths fate
        → named_channel common.now.row.now.packet ≡ Some channel
        → Puts (common_head common.now.row.now common.now.epoch lengths) line.old line.new }
{
    line.put(b",\"owed\":false,\"finding\":null");
    line.number(u64::from(common.epoch));
    line.put(b",\"epoch\":");
    put_counted(line, fate);
    line.put(b",\"before\":\"d1\",\"after\":\"d1\",\"counted\":");
    line.number(u64::from(channel));
    line.put(side_member(common.row.side));
    line.number(u64::from(common.row.number));
    line.put(b"{\"line\":\"row\",\"packet\":");
}

/// What became of the data of a row that found nothing and has these events; none where one of them is no data.
fn common_fate(events: &[Event]) -> Option<Fate>
    ensures counted { IfSome result (λ fate. IsFateOf (all_lengths events.now) fate) }
    ensures quiet { IfSome result (λ fate. AreQuiet events.now) }
{
    match events {
        [] => Some(Fate::NoData),
        [event] => match event.what {
            What::Data { octets, .. } => Some(Fate::Counted {
                octets,
                segments: segments_in(event),
            }),
            _ => None,
        },
        _ => None,
    }
}

/// Fast path: writes the object of a common row into a room, in place of what it has. Returns `None` where the row is
/// another, or its object finds no room.
#[inline(always)]
pub fn common_object<'r>(room: &'r mut LineRoom, common: &CommonRow<'_>) -> Option<&'r [u8]>
    ensures { IfSome result (λ object. IsText common.now.digits.now
        → IsCommonObject common.now.row.now common.now.epoch common.now.call
        common.now.events.now object.now) }
{
    let Packet::Channel { channel, kind } = &common.row.packet else {
        return None;
    };
    if !is_quiet(common.row) {
        return None;
    }
    let Some(fate) = common_fate(common.events) else {
        return None;
    };
    room.clear();
    room.put(b"}\n");
    let is_common = put_packet(room, kind, fate, common.digits);
    if !is_common {
        return None;
    }
    put_call_member(room, common.call);
    put_head(room, common, *channel, fate);
    room.line()
}
