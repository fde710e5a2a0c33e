//! The header of a pcap file.

ghost use Rattle.std.specs.Prelude.{◌≡◌, ◌≤◌, [], ℕ, List, IfOk, OnOk, Some, length};
ghost use Rattle.capture_files.specs.CaptureFiles.{records_of};
ghost use Rattle.capture_files.specs.PcapFiles.{pcap_left};
ghost use Rattle.capture_files.specs.PcapHeaders.{IsHeader, check_of, first_fitting, fitted, form_by, form_in, headers_of};
ghost use Rattle.capture_files.specs.Windows.{Advances, still};

use crate::numbers::read_four;
use crate::pcap::{PcapForm, RecordHeader};
use crate::pcap_reader::Pcap;
use crate::pcap_search::SEARCHED;
use crate::refusal::Refusal;
use crate::window::Window;
use line_model::fault::Fault;
use streams::room_source::RoomSource;

/// How many octets the header has.
const HEADER: usize = 24;
/// How many octets a record may always have, and at most (profile).
const LARGEST: u32 = 262_144;

const MOST: u32 = 1 << 24;

/// Returns the headers of records that files of a form may have, its own first: the others are of old forms with the same
/// magic number.
fn headers_of(own: RecordHeader, is_nano: bool) -> [RecordHeader; 3]
    ensures { result ≡ headers_of own is_nano }
{
    match own {
        RecordHeader::Plain if !is_nano => [own, RecordHeader::Modified, RecordHeader::Nokia],
        RecordHeader::Modified => [own, RecordHeader::Suse, own],
        _ => [own, own, own],
    }
}

/// Returns how many octets of check sequence frames have: where bit 26 is set, the highest four bits count them in pairs.
fn check_of(network: u32) -> u32
    ensures { result ≡ check_of network }
{
    if network / 0x400_0000 % 2 == 1 {
        network / 0x1000_0000 * 2
    } else {
        0
    }
}

/// Returns what the records of a file have in common, by what its magic number says and by the rest of its header.
fn form_by(is_big: bool, is_nano: bool, records: RecordHeader, header: &[u8]) -> PcapForm
    requires { 24 ≤ length header.now }
    ensures { result ≡ form_by is_big is_nano records header.now }
{
    let network = read_four(is_big, header, 20);
    PcapForm {
        is_big,
        is_nano,
        header: records,
        link: (network % 0x1_0000) as u16,
        check: check_of(network),
        largest: read_four(is_big, header, 16).max(LARGEST).min(MOST),
    }
}

/// Returns what the records of a file have in common, by its header; `None` where it is no header.
fn form_in(header: &[u8]) -> Option<PcapForm>
    requires { 24 ≤ length header.now }
    ensures { result ≡ form_in header.now }
{
    match read_four(true, header, 0) {
        0xA1B2_C3D4 => Some(form_by(true, false, RecordHeader::Plain, header)),
        0xD4C3_B2A1 => Some(form_by(false, false, RecordHeader::Plain, header)),
        0xA1B2_3C4D => Some(form_by(true, true, RecordHeader::Plain, header)),
        0x4D3C_B2A1 => Some(form_by(false, true, RecordHeader::Plain, header)),
        0xA1B2_CD34 => Some(form_by(true, false, RecordHeader::Modified, header)),
        0x34CD_B2A1 => Some(form_by(false, false, RecordHeader::Modified, header)),
        _ => None,
    }
}

/// Returns the first form with whose headers the records at the front follow each other, else the first one. `octets` are
/// all of the file where `is_end` says so.
fn fitting(form: PcapForm, headers: &[RecordHeader], octets: &[u8], is_end: bool) -> PcapForm
    ensures form { (header : RecordHeader) × (result ≡ record form { header = header }) }
    ensures first { result ≡ first_fitting form headers.now octets.now is_end }
{
    for header in headers {
        let tried = PcapForm {
            header: *header,
            ..form
        };
        if tried.is_record(octets, 0, None, is_end) {
            return tried;
        }
    }
    form
}

/// Consumes the header of a pcap file. Fails where the file ends inside of it.
fn take_header<S: RoomSource>(window: &mut Window, source: &mut S) -> Result<(), Refusal>
    ensures length { OnOk result (length window.new.last ≡ 24) }
    ensures passes { OnOk result (Advances window.old (S.left source.old) window.new (S.left source.new) window.new.last) }
{
    window.fill(source, HEADER)?;
    if window.len() < HEADER {
        return Err(Refusal::HeaderCut(window.len()));
    }
    window.take(HEADER);
    Ok(())
}

/// Returns the form with the header of records that the first ones have, as far as more of the file may be read before its
/// first frame is known.
fn fit<S: RoomSource>(
    window: &mut Window,
    source: &mut S,
    form: PcapForm,
    may_wait: bool,
) -> Result<PcapForm, Fault>
    ensures form { IfOk result (λ f. (header : RecordHeader) × (f ≡ record form { header = header })) }
    ensures fitted { IfOk result (λ f. (file : List ℕ) → still window.old.ahead (S.left source.old) ≡ Some file
        → f ≡ fitted may_wait form file) }
    ensures passes { Advances window.old (S.left source.old) window.new (S.left source.new) [] }
{
    if !may_wait {
        return Ok(form);
    }
    window.fill(source, SEARCHED)?;
    let there = window.len().min(SEARCHED);
    let octets = &window.ahead()[..there];
    let headers = headers_of(form.header, form.is_nano);
    Ok(fitting(form, &headers, octets, there < SEARCHED))
}

/// Consumes the header of a pcap file, and returns the reader of its records; frames are counted on from `number`.
/// `may_wait` says whether more of the file may be read before its first frame is known: then records of old forms are
/// recognised.
pub(crate) fn open_pcap<S: RoomSource>(
    window: &mut Window,
    source: &mut S,
    may_wait: bool,
    number: u64,
) -> Result<Pcap, Refusal>
    ensures opened { IfOk result (λ pcap. (header : List ℕ) × IsHeader header pcap.form × (length header ≡ 24)
        × Advances window.old (S.left source.old) window.new (S.left source.new) header) }
    ensures number { IfOk result (λ pcap. pcap.number ≡ number) }
    ensures records { IfOk result (λ pcap. (file : List ℕ) → still window.old.ahead (S.left source.old) ≡ Some file
        → pcap_left pcap (still window.new.ahead (S.left source.new)) ≡ records_of may_wait number file) }
{
    take_header(window, source)?;
    let Some(form) = form_in(window.last()) else {
        return Err(Refusal::Unknown);
    };
    Ok(Pcap {
        form: fit(window, source, form, may_wait)?,
        number,
        offset: HEADER as u64,
        seconds: None,
        search: None,
    })
}
