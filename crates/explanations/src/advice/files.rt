//! Files that are not traces, by their first bytes.

use crate::advice::line::split_line;
use crate::advice::sentence::quoting_sentence;
use line_model::device::LastLine;
use memchr::memmem;
use std::alloc::{AllocError, Global};

/// What a file is that begins with some bytes, and what to do with it.
struct FileForm {
    magic: &'static [u8],
    sentence: &'static str,
}

const CAPTURE: &str =
    "This is a capture: x25scan FILE prints its report, and x25page FILE shows it.";

const SNIFFER: &str =
    "This is a Sniffer file: editcap -F pcapng FILE OUT.pcapng, of Wireshark, turns it into one that x25page reads.";

const NETXRAY: &str =
    "This is a NetXRay file: editcap -F pcapng FILE OUT.pcapng, of Wireshark, turns it into one that x25page reads.";

const NETWORK_MONITOR: &str =
    "This is a Network Monitor file: editcap -F pcapng FILE OUT.pcapng, of Wireshark, turns it into one that x25page reads.";

const IXIA: &str =
    "This is an IXIA file: editcap -F pcapng FILE OUT.pcapng, of Wireshark, turns it into one that x25page reads.";

const UTF16: &str = "The text is UTF-16: iconv -f UTF-16 -t ASCII FILE | x25scan reads it.";

const FORMS: [FileForm; 25] = [
    FileForm {
        magic: b"\xef\xbb\xbf",
        sentence: "The text begins with a byte order mark: tail -c +4 FILE | x25scan reads it.",
    },
    FileForm {
        magic: b"\xff\xfe",
        sentence: UTF16,
    },
    FileForm {
        magic: b"\xfe\xff",
        sentence: UTF16,
    },
    FileForm {
        magic: b"\x1f\x8b",
        sentence: "This is a gzip file: gzip -dc FILE | x25scan reads what is in it.",
    },
    FileForm {
        magic: b"\x28\xb5\x2f\xfd",
        sentence: "This is a zstd file: zstd -dc FILE | x25scan reads what is in it.",
    },
    FileForm {
        magic: b"\xfd7zXZ\x00",
        sentence: "This is an xz file: xz -dc FILE | x25scan reads what is in it.",
    },
    FileForm {
        magic: b"BZh",
        sentence: "This is a bzip2 file: bzip2 -dc FILE | x25scan reads what is in it.",
    },
    FileForm {
        magic: b"\x04\x22\x4d\x18",
        sentence: "This is an lz4 file: lz4 -dc FILE | x25scan reads what is in it.",
    },
    FileForm {
        magic: b"PK\x03\x04",
        sentence: "This is a zip file: unzip -p FILE | x25scan reads what is in it.",
    },
    FileForm {
        magic: b"\xd4\xc3\xb2\xa1",
        sentence: CAPTURE,
    },
    FileForm {
        magic: b"\xa1\xb2\xc3\xd4",
        sentence: CAPTURE,
    },
    FileForm {
        magic: b"\x4d\x3c\xb2\xa1",
        sentence: CAPTURE,
    },
    FileForm {
        magic: b"\xa1\xb2\x3c\x4d",
        sentence: CAPTURE,
    },
    FileForm {
        magic: b"\xa1\xb2\xcd\x34",
        sentence: CAPTURE,
    },
    FileForm {
        magic: b"\x34\xcd\xb2\xa1",
        sentence: CAPTURE,
    },
    FileForm {
        magic: b"\x0a\x0d\x0d\x0a",
        sentence: CAPTURE,
    },
    FileForm {
        magic: b"snoop\x00\x00\x00",
        sentence: CAPTURE,
    },
    FileForm {
        magic: b"TRSNIFF data",
        sentence: SNIFFER,
    },
    FileForm {
        magic: b"XCP\x00",
        sentence: NETXRAY,
    },
    FileForm {
        magic: b"RTSS",
        sentence: NETWORK_MONITOR,
    },
    FileForm {
        magic: b"GMBU",
        sentence: NETWORK_MONITOR,
    },
    FileForm {
        magic: b"\x1c\x00\x01\xac",
        sentence: IXIA,
    },
    FileForm {
        magic: b"\xac\x01\x00\x1c",
        sentence: IXIA,
    },
    FileForm {
        magic: b"\x1c\x00\x01\xab",
        sentence: IXIA,
    },
    FileForm {
        magic: b"\xab\x01\x00\x1c",
        sentence: IXIA,
    },
];

/// Returns what the input is, and what to do with it, where its first bytes are those of another kind of file: a byte
/// order mark, UTF-16, a compressed file, a capture in pcap (also the modified form, of either byte order), pcapng or
/// snoop, or a capture in a form that Wireshark converts into one of these.
pub fn file_advice(first: &[u8]) -> Option<&'static str> {
    for form in FORMS.as_slice() {
        if first.starts_with(form.magic) {
            return Some(form.sentence);
        }
    }
    None
}

/// Whether the words of a line are like a header or a row of a trace.
fn is_like_trace(words: &[u8]) -> bool {
    match words {
        [b'0'..=b'9', ..] | [b'X' | b'x', b'2', b'5', ..] => true,
        _ => memmem::find(words, b"MOD ").is_some(),
    }
}

/// Returns that the input is not a trace, and how it begins, where its first line that is neither a comment nor blank
/// is neither a header nor a row: the refused line, or one after it. Fails only when memory is refused.
pub fn other_text_advice(
    alloc: Global,
    refused: LastLine<'_>,
) -> Result<Option<String>, AllocError> {
    let (first, _) = split_line(refused.first);
    let mut begin = first.trim_ascii();
    for line in refused.text.split(|byte| *byte == b'\n') {
        let words = line.trim_ascii();
        if begin.is_empty() {
            begin = words;
        }
        if !words.is_empty() && !line.starts_with(b"#") {
            return if is_like_trace(words) {
                Ok(None)
            } else {
                quoting_sentence(
                    alloc,
                    "This is no trace: it begins with ",
                    begin,
                    "; x25trace reads captures.",
                )
            };
        }
    }
    Ok(None)
}
