//! The texts of the program's help and of its version, from which the manual page and the completions are made too.

/// The version of the program, and the logic that proved it, whose identity `rt version` prints last.
pub const VERSION: &str = "x25scan 1.0.0\nproved with Rattle, logic dac8208d650f15bf\n";

/// What the program does, its words with examples, the exit statuses, and the documents.
pub const HELP: &str = "\
Reports what an observer of an X.25 interface finds in a trace or a capture: which side broke the protocol, the calls, the settings of their PADs, the accounts and the sums

Usage: x25scan [OPTIONS] [FILE]...

Arguments:
  [FILE]...  The trace, or a capture of a line or of XOT (pcap, pcapng), and the captures that follow it, which are read as one; - or no file: standard input, a trace or, with the whole header, a capture of a line

Options:
      --workers <N>       Scan with this many worker threads, 1 to 64 (default: 4)
      --alone             Scan in one thread: slower, with less memory
      --follow            Print findings while the trace is read, in one thread
      --json              Print the report as JSON lines, an object for each line and each circuit of a capture
      --annotate          Print the trace again, with comments that say what its rows are and did
      --findings          Print a line for each finding, in words, and then who broke the protocol how often
      --rows              Print a JSON object for each row, and then those of the report
      --calls             Print a table of the report's calls as CSV, or with --json an object for each
      --trace             Print the text of the trace alone: of a capture, with the times and frames of its packets,
                          and with status 1 where some may be missing
      --channel <N>       Annotate only the rows of this logical channel; with --findings or --rows, print only those
      --call <N>          Annotate only the rows of this call of the report; with --findings or --rows, print only those
      --try-headers       Print how each window and packet size explains the rows, best first
      --progress          Print each second on standard error how far the reading is
      --notes             Print on standard error how much data was not counted, and why, in one thread
      --explain [<WORD>]  Explain a word or a line that is printed, or list all words, and scan nothing
  -h, --help              Print help
  -V, --version           Print the version, and the kit that proved the program

Options of captures:
      --mod <N>           The modulus of packets, 8 or 128; numbers that are not given are estimated
      --win <N>           The default window, 1 to 127
      --size <N>          The default packet size, a power of two from 16 to 4096
      --pvc <N>           The last permanent logical channel
      --svc <N>           The last logical channel
      --in <N>            The last logical channel for incoming calls
      --two <N>           The last two-way logical channel
      --out <N>           The last logical channel for outgoing calls
      --join              The recording began in the middle, so no logical channel is known
      --no-join           All logical channels were fresh when it began
      --as <KIND>         What frames of unknown link types hold: ethernet, sll, sll2, ip, lapb, lapb-dir, hdlc, x25 or x25-dir
      --only <CARRIER>    Read only packets in LAPB (lapb), packets without it (x25) or packets in XOT (xot)
      --interface <N>     Read only this interface of a pcapng file, or this device of cooked frames of version 2
      --port <N>          The TCP port of XOT (default: 1998)
      --lapb-modulo <N>   How LAPB counts its frames, 8 or 128, where SABM and SABME don't say it
      --swap              Exchange the sides: the recording host, the end with the commands of the DTE, or the host that opened a connection is the DCE
      --dte <ADDRESS>     Read only the XOT connections of this host, such as 192.0.2.1 or 2001:db8::1, which is their DTE (default: the host that opened each)

Examples:
  x25scan day.trace                     print the report of a trace
  x25scan --alone < day.trace           read standard input, in one thread
  tail -n +1 -F line.trace | x25scan --follow
                                        follow a recording while it grows
  x25scan --findings day.trace          print a line for each finding, in words
  x25scan --json day.trace              print an object for each line of the report
  x25scan --rows --call 7 day.trace     print an object for each row of call 7
  x25scan --calls day.trace > calls.csv write a table of the calls for a spreadsheet
  x25scan --annotate --call 7 day.trace print the trace, with comments on the rows of call 7
  x25scan --try-headers day.trace       print which window and packet size explain the rows best
  x25scan --win 2 --size 128 day.pcap   read a capture, under a header with these numbers
  x25scan --trace day.pcap > day.trace  write the trace of a capture
  x25scan day.pcap0 day.pcap1           read captures that follow each other as one
  x25scan --port 2000 day.pcap          read a capture of XOT on another TCP port
  x25scan --explain 22                  explain a word of the report or of a refusal
  x25scan --explain 'P(S)'              explain a term, such as window, gap or T21
  x25scan --explain 'F 5 T d1 1'        explain each word of a line of the report

Exit status:
  0   no findings; or help, the version or an explanation was asked for
  1   findings; with --trace, packets of the capture may be missing
  2   the trace was refused by a faulty line
  3   another fault: memory, a thread, opening, reading or writing
  64  the command line is wrong

/usr/share/doc/x25scan/REPORT.md describes the lines of the report, TRACE.md the text of a
trace, and CODES.md all that --explain prints.
";
