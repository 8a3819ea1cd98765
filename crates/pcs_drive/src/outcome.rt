// How a command ended.
ghost use Rattle.std.specs.Prelude.{◌≡◌};

use pcs_io::{BadHeader, CapFault, InFault, Kind};

/// How a command ended whose words were accepted.
#[derive(Clone, Copy, Debug, PartialEq, Eq)]
pub enum Outcome {
    Done,
    ReadFault,
    WriteFault,
    NoMemory,
    /// The line of this number, counted from 1, is refused.
    BadLine { number: u64, kind: Kind },
    /// The header of the capture is wrong or cut.
    BadHeader(BadHeader),
    /// A column of the line of this number, counted from 1, leaves too little room for the groups.
    TooTight { frame: u64 },
    /// The capture ends so many octets behind its last whole beat.
    Cut { rest: u8 },
    /// The capture ended before its lanes were aligned.
    NotAligned,
    /// The input has as many octets as may be taken, or more.
    TooLong,
}

impl From<InFault> for Outcome {
    ghost use Rattle.pcs_drive.specs.Outcomes.{outcome_of};

    ghost from_gives = { λ fault outcome. outcome ≡ outcome_of fault };

    fn from(fault: InFault) -> Outcome {
        match fault {
            InFault::Read => Outcome::ReadFault,
            InFault::BadLine { number, kind } => Outcome::BadLine { number, kind },
            InFault::TooLong => Outcome::TooLong,
        }
    }
}

impl From<CapFault> for Outcome {
    ghost use Rattle.pcs_drive.specs.Outcomes.{outcome_of_capture};

    ghost from_gives = { λ fault outcome. outcome ≡ outcome_of_capture fault };

    fn from(fault: CapFault) -> Outcome {
        match fault {
            CapFault::Read => Outcome::ReadFault,
            CapFault::BadHeader(bad) => Outcome::BadHeader(bad),
            CapFault::TooLong => Outcome::TooLong,
        }
    }
}
