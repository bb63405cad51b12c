//! The report on an image that is not sound, with a line of text for each fault.
ghost use Rattle.std.specs.Prelude.{◌≡◌};
ghost use Rattle.ods_check.specs.Lines.{fault_of, file_in as file_in_fault, first_file as first_of, second_file as second_of};

use ods_mount::MountFault;
use thiserror::Error;

/// The reason why the index of a volume is bad. A lower home block is at a lower location than the home block in force, and would be used instead
/// of it.
#[derive(Clone, Copy, Debug, PartialEq, Eq, Error)]
pub enum IndexFault {
    /// INDEXF.SYS is shorter than the boot block, the home block, the index bitmap and 16 headers.
    #[error("INDEXF.SYS is too short")]
    TooShort,
    /// The first VBN of INDEXF.SYS that is not at the LBN of its block of the index bitmap or its header. Only the first 16 headers are checked.
    #[error("VBN {0} of INDEXF.SYS is not where the home block says")]
    Misplaced(u32),
    /// The home block is at this LBN, which is neither VBN 1 nor VBN 2 of INDEXF.SYS.
    #[error("the home block, LBN {0}, is not VBN 1 or 2 of INDEXF.SYS")]
    OtherHome(u32),
    /// A lower home block could be written into this LBN, which is free.
    #[error("a lower home block could be written into LBN {0}, which is free")]
    FreePlace(u32),
    /// A lower home block could be written into this LBN, which this file holds.
    #[error("a lower home block could be written into LBN {0}, which file {1} holds")]
    HeldPlace(u32, u16),
}

/// A line in the list of all faults.
#[derive(Clone, Copy, Debug, PartialEq, Eq, Error)]
pub enum FaultLine {
    /// A fault as the mount reports it.
    #[error("{0}")]
    Plain(MountFault),
    /// Two files that share blocks, or one file that holds blocks twice. The third number is the LBN of the first such block in the first file. The
    /// fourth is the number of these blocks, each counted once.
    #[error("DoublyUsed {0} {1} {2} ({3} {unit})", unit = unit_of(*.3))]
    Shared(u16, u16, u32, u32),
    /// The index is bad, for this reason.
    #[error("BadIndex: {0}")]
    Index(IndexFault),
}

impl FaultLine {
    /// Returns the fault as the mount reports it.
    pub fn fault(&self) -> MountFault
        ensures { result ≡ fault_of self.now }
    {
        match self {
            FaultLine::Plain(fault) => *fault,
            FaultLine::Shared(one, other, lbn, _) => MountFault::DoublyUsed(*one, *other, *lbn),
            FaultLine::Index(_) => MountFault::BadIndex,
        }
    }

    /// Returns the file that the line is about, if any; the first one of two.
    pub fn first_file(&self) -> Option<u16>
        ensures { result ≡ first_of self.now }
    {
        match self {
            FaultLine::Plain(fault) => file_in(fault),
            FaultLine::Shared(one, _, _, _) => Some(*one),
            FaultLine::Index(IndexFault::HeldPlace(_, number)) => Some(*number),
            FaultLine::Index(_) => None,
        }
    }

    /// Returns the other file that the line is about, if it is about two.
    pub fn second_file(&self) -> Option<u16>
        ensures { result ≡ second_of self.now }
    {
        match self {
            FaultLine::Shared(one, other, _, _) if *one != *other => Some(*other),
            _ => None,
        }
    }
}

/// Returns the file that a fault of a mount is about, if any; the first one of two.
pub fn file_in(fault: &MountFault) -> Option<u16>
    ensures { result ≡ file_in_fault fault.now }
{
    match fault {
        MountFault::NoHome => None,
        MountFault::UnsupportedMap(number) => Some(*number),
        MountFault::BadChain(number) => Some(*number),
        MountFault::OutsideVolume(number, _) => Some(*number),
        MountFault::BadIndex => None,
        MountFault::BadStorageMap => None,
        MountFault::BadMaster => None,
        MountFault::DoublyUsed(one, _, _) => Some(*one),
        MountFault::MarkedFree(number, _) => Some(*number),
        MountFault::BadDirectory(number) => Some(*number),
        MountFault::DuplicateName(number) => Some(*number),
        MountFault::NoMemory => None,
    }
}

/// The word behind a number of blocks.
fn unit_of(blocks: u32) -> &'static str {
    if blocks == 1 { "block" } else { "blocks" }
}
