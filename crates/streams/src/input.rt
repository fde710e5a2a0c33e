//! Where the program reads its trace.

ghost use Rattle.std.specs.Prelude.{◌≡◌, ◌⊎◌, ℕ, List, Option, None, Some, IfErr, OnOk, OnErr, option_map};
ghost use Rattle.streams.specs.OpenFaults.{IsByItsReason};

use crate::progress::ShowProgress;
use crate::room_source::RoomSource;
use line_model::device::LastLine;
use std::io;
use std::io::ErrorKind;
use thiserror::Error;

/// Why a capture has no trace (profile).
#[derive(Clone, Copy, Debug, PartialEq, Eq, Error)]
pub enum CaptureFault {
    /// The file is damaged before its first frame.
    #[error("the capture is damaged before its first frame")]
    Damaged,
    /// It has no packet of X.25.
    #[error("the capture has no packet of X.25")]
    NoPacket,
    /// Its frames are datagrams of IP, and none has a packet of XOT.
    #[error("the capture has IP alone, and no packet of XOT")]
    Internet,
    /// The link type of its frames is not known.
    #[error("the link type of the capture is unknown")]
    UnknownLink,
    /// Its packets are of two kinds: of LAPB, of XOT, or without either.
    #[error("the capture has packets of two kinds of link")]
    TwoCarriers,
    /// Packets were recorded on several interfaces.
    #[error("the capture has packets of several interfaces")]
    SeveralInterfaces,
    /// It comes from a pipe.
    #[error("a capture is read twice, and a pipe only once")]
    Piped,
}

/// Why a trace could not be opened by its name (profile).
#[derive(Clone, Copy, Debug, Error)]
pub enum OpenFault {
    /// There is no file of this name.
    #[error("no such file")]
    Missing,
    /// The program may not read it.
    #[error("permission denied")]
    Denied,
    /// The name is that of a directory.
    #[error("it is a directory")]
    Directory,
    /// The system refused it for another reason.
    #[error("the system refuses it")]
    Refused,
    /// It is a capture that has no trace.
    #[error("{0}")]
    Capture(CaptureFault),
}

/// A trace that could not be opened.
#[derive(Clone, Copy)]
pub struct OpenRefusal {
    /// Why.
    pub fault: OpenFault,
    /// The system's error; none of a capture.
    pub reason: Option<io::Error>,
}

impl OpenRefusal {
    /// Returns the refusal of a file that the system refuses for this reason.
    pub fn by_system(reason: io::Error) -> OpenRefusal
        ensures { IsByItsReason result }
    {
        let fault = match reason.kind() {
            ErrorKind::NotFound | ErrorKind::NotADirectory => OpenFault::Missing,
            ErrorKind::PermissionDenied => OpenFault::Denied,
            ErrorKind::IsADirectory => OpenFault::Directory,
            _ => OpenFault::Refused,
        };
        OpenRefusal {
            fault,
            reason: Some(reason),
        }
    }

    /// Returns the refusal of a capture.
    pub fn of_capture(fault: CaptureFault) -> OpenRefusal
        ensures reason { IsByItsReason result }
        ensures fault { result.fault ≡ OpenFault.Capture fault }
    {
        OpenRefusal {
            fault: OpenFault::Capture(fault),
            reason: None,
        }
    }
}

/// A source that begins as standard input, and becomes the trace that is opened by its name.
pub trait Input: RoomSource {
    /// The bytes of the trace of a name, where it shows them.
    ghost named: { Self → List ℕ → Option (List ℕ) };

    /// The name of the opened trace; none where it is standard input, or where memory for the name was refused.
    ghost name_of: { Self → Option (List ℕ) };

    /// Opens the trace of this name in place of standard input. Fails where the system refuses it, and nothing has
    /// changed then.
    fn open(&mut self, name: &str) -> Result<(), OpenRefusal>
        ensures opened { OnOk result (Self.left self.new ≡ named self.old name.now) }
        ensures name { OnOk result ((name_of self.new ≡ Some name.now) ⊎ (name_of self.new ≡ None)) }
        ensures calls { Self.calls self.new ≡ Self.calls self.old }
        ensures failures { Self.failures self.new ≡ Self.failures self.old }
        ensures refused { OnErr result (self.new ≡ self.old) }
        // The fault is that of the system's reason.
        ensures reason { IfErr result IsByItsReason };

    /// Returns the name of the opened trace; none where it is standard input, or where memory for the name was refused.
    fn name(&self) -> Option<&str>
        ensures { option_map (λ name. name.now) result ≡ name_of self.now };

    /// Returns the system's error of the last read that failed; none where there was none.
    fn failure(&self) -> Option<io::Error>;

    /// Returns the last line that it was given back; none where there was none, or where memory was refused.
    fn last_line(&self) -> Option<LastLine<'_>>;

    /// Sets when progress is printed.
    fn show_progress(&mut self, when: ShowProgress)
        ensures left { Self.left self.new ≡ Self.left self.old }
        ensures name { name_of self.new ≡ name_of self.old }
        ensures calls { Self.calls self.new ≡ Self.calls self.old }
        ensures failures { Self.failures self.new ≡ Self.failures self.old };

    /// Returns whether the writer for progress is a terminal.
    fn shows_terminal(&self) -> bool;

    /// Returns whether packets are known to be missing from the opened trace.
    fn lacks_packets(&self) -> bool;

    /// Returns the lines that name the circuits of the opened trace, each with its end, where they were known before it was
    /// read.
    fn circuits(&self) -> &[u8];
}
