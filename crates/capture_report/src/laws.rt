//! Theorems about the definitions alone.

ghost use Rattle.capture_report.specs.Laws.{CaptureLaw, CircuitHeaderLaw, CircuitRowsLaw, FileLaw, ItemsLaw, LineFramesLaw, NoCircuitLaw, NumberLaw, PipeLaw, PlainLaw, RowsLaw, TextLaw, XotFramesLaw};

/// The observer reads the text of rows, after that of a header, as these rows: with the numbers of the page, each packet
/// with its side and its octets, each gap with its channel. Its report is that of one observer over them.
pub fn text_is_read()
    ensures text { TextLaw }
    ensures numbers { NumberLaw }
    ensures capture { CaptureLaw }
{}

/// Each row of a line has a packet of at most 4,200 octets, or is a gap of a channel from 1 to 4,095 or of all. So has
/// each row of circuits, whatever interface they have, where octets, numbers and times are in the ranges of their types.
pub fn rows_have_packets()
    ensures lines { RowsLaw }
    ensures circuits { CircuitRowsLaw }
{}

/// What a capture of XOT has in its order are the items of a recording of its segments, and gaps between them. Where no
/// frame has a datagram there is no circuit.
pub fn items_are_of_segments()
    ensures items { ItemsLaw }
    ensures none { NoCircuitLaw }
{}

/// Where the trace of an undamaged pcap or pcapng file has no fault, the observer reads it as the rows of the capture,
/// under the interface of what is given and what was seen. Where no number of it is given there is always one.
pub fn file_is_read()
    ensures read { FileLaw }
    ensures header { PlainLaw }
    ensures circuits { CircuitHeaderLaw }
{}

/// Where the trace of a line that is read once, from an undamaged pcap or pcapng file in a pipe, has no fault, the observer
/// reads it as the rows of the line as they are noticed, under the interface of what is given.
pub fn pipe_is_read()
    ensures { PipeLaw }
{}

/// Each frame of a capture is read, or is left out for one reason: the counts of both are those of all frames.
pub fn each_frame_counts_once()
    ensures lines { LineFramesLaw }
    ensures xot { XotFramesLaw }
{}
