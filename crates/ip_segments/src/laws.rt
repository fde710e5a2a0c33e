//! What fragments make, against the fragments themselves, and datagrams in carriers.

ghost use Rattle.std.specs.Prelude.{ℕ, ◌<◌, ◌≤◌, List, [], IfOk, length};
ghost use Rattle.capture_model.specs.Views.{Payload as AnyPayload};
ghost use Rattle.capture_model.specs.declared.kind.LinkKind.{LinkKind as AnyKind};
ghost use Rattle.ip_segments.specs.Carriers.{in_datagram, in_frame};
ghost use Rattle.ip_segments.specs.Datagrams.{Datagram as AnyDatagram};
ghost use Rattle.ip_segments.specs.FirstCopies.{IsMadeOf, Part, gathered, kept};
ghost use Rattle.ip_segments.specs.Fragments.{added};
ghost use Rattle.ip_segments.specs.Gathering.{begun, whole};
ghost use Rattle.ip_segments.specs.Parts.{IsPart};
ghost use Rattle.ip_segments.specs.declared.datagram.Fragment.{Fragment as AnyFragment};
ghost use Rattle.ip_segments.specs.declared.gathered.Gathered.{Gathered as AnyGathered};

/// Fragments that are added one after the other make a datagram where each octet came that it has up to the end of its
/// last fragment. Each of its octets is that of the first fragment that has it. Of fragments at one place the first counts.
pub fn octets_are_first_copies()
    ensures { (parts : List Part) (frame identification : ℕ) (d : AnyDatagram)
        → IsMadeOf (kept [] parts) (whole (gathered parts (begun frame identification d))) }
{}

/// At most 64 datagrams wait.
pub fn few_datagrams_wait()
    ensures { (frame : ℕ) (f : AnyFragment) (d : AnyDatagram) (gs : List AnyGathered) → length gs ≤ 64
        → length (added frame f d gs).waiting ≤ 64 }
{}

/// A datagram in a carrier is a part of what carries it. It is in at most eight carriers of its link, and each further one
/// leaves room for fewer.
pub fn datagrams_are_parts()
    ensures frame { (kind : AnyKind) (p : AnyPayload) → IfOk (in_frame kind p) (λ i. IsPart p i.payload × (i.left ≤ 8)) }
    ensures datagram { (left protocol : ℕ) (p : AnyPayload) → IfOk (in_datagram left protocol p) (λ i. IsPart p i.payload × (i.left < left)) }
{}
