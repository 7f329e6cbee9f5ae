// The position list file: a writer from a list of positions to bytes, a reader back, and the byte count that a list
// needs. Nothing here knows of searching. Each call judges its whole input before it stores anything, so a refusal
// leaves every buffer as it was.
#![tactic(auto)]

mod number;
mod reader;
mod writer;

ghost use Rattle.std.specs.Prelude.{◌≡◌};
ghost use Rattle.positions.specs.Promise.{write_refusal, read_refusal};

pub use reader::read;
pub use writer::{rises, size, write};

// Positions are below 2^30.
const LIMIT: u32 = 1073741824;

// Why a list is not written.
#[derive(Clone, Copy, PartialEq, Eq, Debug)]
pub enum WriteRefusal {
    // The positions do not rise strictly, or one is 2^30 or more.
    ListNotRising,
    // The target has fewer bytes than the list needs.
    TargetTooShort,
}

impl WriteRefusal {
    // Document 01's number of the refusal, which C is told.
    pub fn number(self) -> u32
        ensures { result ≡ write_refusal self }
    {
        match self {
            WriteRefusal::ListNotRising => 8,
            WriteRefusal::TargetTooShort => 9,
        }
    }
}

// Why a file is not read.
#[derive(Clone, Copy, PartialEq, Eq, Debug)]
pub enum ReadRefusal {
    // The file ends early.
    FileEndsEarly,
    // A number is not in the fewest groups.
    NumberNotShortest,
    // A number or a position is too large.
    NumberTooLarge,
    // Bytes are left over.
    BytesLeftOver,
    // There are fewer cells than the count, and the file is good.
    CellsMissing,
}

impl ReadRefusal {
    // Document 01's number of the refusal, which C is told.
    pub fn number(self) -> u32
        ensures { result ≡ read_refusal self }
    {
        match self {
            ReadRefusal::FileEndsEarly => 10,
            ReadRefusal::NumberNotShortest => 11,
            ReadRefusal::NumberTooLarge => 12,
            ReadRefusal::BytesLeftOver => 13,
            ReadRefusal::CellsMissing => 14,
        }
    }
}
