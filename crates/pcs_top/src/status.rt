ghost use Rattle.std.specs.Prelude.{◌≡◌};
ghost use Rattle.pcs_top.specs.Statuses.{number_of};

use crate::Cause;
use pcap_frames::RecordKind;
use pcs_drive::Outcome;
use pcs_io::{BadHeader, Kind};
use pcs_late::PcapOutcome;

/// How a run ended.
#[derive(Clone, Copy, Debug, PartialEq, Eq)]
pub enum Status {
    Done,
    /// The words of the command line are refused.
    Usage(Cause),
    ReadFault,
    WriteFault,
    NoMemory,
    /// The line of this number, counted from 1, is refused.
    BadLine { number: u64, kind: Kind },
    /// The header of the capture is wrong or cut.
    BadHeader(BadHeader),
    /// A column of the line of this number, counted from 1, leaves too little room for the groups.
    TooTight { frame: u64 },
    /// The capture ends so many octets behind its last whole beat.
    Cut { rest: u8 },
    /// The capture ended before its lanes were aligned.
    NotAligned,
    /// The input has as many octets as may be taken, or more.
    TooLong,
    /// The line on the notes couldn't be written whole. The number is that of the status that
    /// would have stood.
    NotesFault { instead: u8 },
    /// The record of this number of a pcap file, counted from 1, is refused.
    BadRecord { number: u64, kind: RecordKind },
}

impl Status {
    /// The program's exit status.
    pub fn number(&self) -> u8
        ensures { result ≡ number_of self.now }
    {
        match self {
            Status::Done => 0,
            Status::Usage(_) => 2,
            Status::ReadFault => 3,
            Status::WriteFault => 4,
            Status::NoMemory => 5,
            Status::BadLine { .. } => 6,
            Status::BadHeader(_) => 7,
            Status::TooTight { .. } => 8,
            Status::Cut { .. } => 9,
            Status::NotAligned => 10,
            Status::TooLong => 11,
            Status::NotesFault { .. } => 12,
            Status::BadRecord { .. } => 13,
        }
    }
}

impl From<Outcome> for Status {
    ghost use Rattle.pcs_top.specs.Statuses.{status_of};

    ghost from_gives = { λ outcome status. status ≡ status_of outcome };

    fn from(outcome: Outcome) -> Status {
        match outcome {
            Outcome::Done => Status::Done,
            Outcome::ReadFault => Status::ReadFault,
            Outcome::WriteFault => Status::WriteFault,
            Outcome::NoMemory => Status::NoMemory,
            Outcome::BadLine { number, kind } => Status::BadLine { number, kind },
            Outcome::BadHeader(bad) => Status::BadHeader(bad),
            Outcome::TooTight { frame } => Status::TooTight { frame },
            Outcome::Cut { rest } => Status::Cut { rest },
            Outcome::NotAligned => Status::NotAligned,
            Outcome::TooLong => Status::TooLong,
        }
    }
}

impl From<PcapOutcome> for Status {
    ghost use Rattle.pcs_top.specs.Statuses.{status_of_pcap};

    ghost from_gives = { λ outcome status. status ≡ status_of_pcap outcome };

    fn from(outcome: PcapOutcome) -> Status {
        match outcome {
            PcapOutcome::Usual(outcome) => Status::from(outcome),
            PcapOutcome::BadRecord { number, kind } => Status::BadRecord { number, kind },
        }
    }
}
