//! Why frames, or octets of a file, gave no rows.

ghost use Rattle.std.specs.Prelude.{◌≡◌};
ghost use Rattle.capture_model.specs.Reasons.{is_damage};

/// Why a frame, a block or octets of a capture gave no rows.
#[derive(Clone, Copy)]
pub enum Reason {
    /// A block of a pcapng file of this type, which holds no frame.
    OtherBlock(u32),
    /// The frame was recorded on this interface, which the choice of interfaces does not name.
    OtherInterface(u32),
    /// The frame is of another protocol.
    OtherProtocol,
    /// The packet came by another carrier than the one that was chosen.
    OtherCarrier,
    /// A LAPB frame that carries no packet.
    LinkFrame,
    /// A LAPB I frame that repeats one.
    RepeatedFrame,
    /// A LAPB I frame out of sequence.
    UntakenFrame,
    /// This word of an X.25 device of Linux: the link came up (1), went down (2), or its parameters (3).
    DeviceWord(u8),
    /// The file is damaged.
    BadFile(FileDamage),
    /// The capture says that this number of frames was dropped.
    Dropped(u64),
    /// The link type is not known.
    UnknownLink(u16),
    /// The headers of the frame are cut or contradict themselves.
    BadHeader,
    /// The recorder kept only the first octets of a packet.
    CutPacket,
    /// Nothing shows which side sent the packet.
    NoSide,
    /// The frame check sequence of a LAPB frame is wrong (X.25 clause 2.2.7).
    BadCheckSequence,
    /// The address of a LAPB frame is neither 01 nor 03 (X.25 clause 2.4.2).
    OtherAddress(u8),
    /// This number of LAPB I frames was not recorded.
    LostFrames(u64),
    /// The packet has more than 4,200 octets (profile).
    LongPacket,
}

/// What is wrong with a file, and where.
#[derive(Clone, Copy)]
pub struct FileDamage {
    /// The offset in the file, where the damaged record or block begins.
    pub offset: u64,
    /// What is wrong.
    pub fault: FileFault,
}

/// What is wrong with a file.
#[derive(Clone, Copy)]
pub enum FileFault {
    /// The file ends inside of the header of a record or a block.
    HeaderCut {
        /// How many octets of it are there.
        octets: u32,
    },
    /// The file ends inside of a record.
    RecordCut {
        /// The number of its frame.
        frame: u64,
        /// How many octets of the frame are there.
        octets: u32,
        /// How many the record says.
        kept: u32,
    },
    /// A record cannot be so long. Reading went on where records follow each other again.
    RecordLong {
        /// How many octets it says.
        kept: u32,
        /// How many octets of the file were passed over.
        passed: u64,
    },
    /// A block cannot have this length. Reading went on at a whole block of a known type.
    BlockLength {
        /// The type of the block.
        kind: u32,
        /// Its length.
        length: u32,
        /// How many octets of the file were passed over.
        passed: u64,
    },
    /// The two lengths of a block differ.
    LengthsDiffer {
        /// The one before its body, which was used.
        first: u32,
        /// The one after its body.
        second: u32,
    },
    /// The file ends inside of a block.
    BlockCut {
        /// How many octets of it are there.
        octets: u32,
        /// How many there are by its length.
        length: u32,
    },
    /// The block of a frame is too short for its type.
    BlockShort {
        /// The number of the frame.
        frame: u64,
    },
    /// The interface of a frame was not described before.
    InterfaceUnknown {
        /// The number of the frame.
        frame: u64,
        /// The number of the interface in its section.
        interface: u32,
    },
    /// A block has fewer octets of its frame than it says.
    FrameCut {
        /// The number of the frame.
        frame: u64,
        /// How many octets are there.
        octets: u32,
        /// How many the block says.
        kept: u32,
    },
    /// A section describes more than 65,536 interfaces (profile).
    InterfacesMany,
}

impl Reason {
    /// Returns whether packets may be missing for it. What is left out by a choice, or holds no packet, is no damage.
    pub fn is_damage(self) -> bool
        ensures { result ≡ is_damage self }
    {
        !matches!(
            self,
            Reason::OtherBlock(_)
                | Reason::OtherInterface(_)
                | Reason::OtherProtocol
                | Reason::OtherCarrier
                | Reason::LinkFrame
                | Reason::RepeatedFrame
                | Reason::UntakenFrame
                | Reason::DeviceWord(_)
        )
    }
}
