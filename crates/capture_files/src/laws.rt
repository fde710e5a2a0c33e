//! Theorems about the definitions alone.

ghost use Rattle.capture_files.specs.PcapFiles.{RecordsLaw};
ghost use Rattle.capture_files.specs.PcapngFiles.{BlocksLaw};
ghost use Rattle.capture_files.specs.WorkedBlocks.{WorkedBlocks};
ghost use Rattle.capture_files.specs.WorkedFile.{WorkedFile};

/// The records that a pcap file has are those that its octets are, one behind the other.
pub fn pcap_records()
    ensures { RecordsLaw }
{}

/// The records that a pcapng file has are those that its blocks give, one behind the other.
pub fn pcapng_records()
    ensures { BlocksLaw }
{}

/// A worked file has its two frames.
pub fn worked_file()
    ensures { WorkedFile }
{}

/// A worked file of blocks has a frame in each of its two sections.
pub fn worked_blocks()
    ensures { WorkedBlocks }
{}
