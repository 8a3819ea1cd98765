// How `pcap` ended.
ghost use Rattle.std.specs.Prelude.{◌≡◌};

use pcap_frames::{PcapFault, RecordKind};
use pcs_drive::Outcome;

/// How `pcap` ended, whose words were accepted.
#[derive(Clone, Copy, Debug, PartialEq, Eq)]
pub enum PcapOutcome {
    /// As other commands end.
    Usual(Outcome),
    /// The record of this number, counted from 1, is refused.
    BadRecord { number: u64, kind: RecordKind },
}

impl From<PcapFault> for PcapOutcome {
    ghost use Rattle.pcs_late.specs.Unpacking.{outcome_of_pcap};

    ghost from_gives = { λ fault outcome. outcome ≡ outcome_of_pcap fault };

    fn from(fault: PcapFault) -> PcapOutcome {
        match fault {
            PcapFault::Read => PcapOutcome::Usual(Outcome::ReadFault),
            PcapFault::BadHeader(bad) => PcapOutcome::Usual(Outcome::BadHeader(bad)),
            PcapFault::BadRecord { number, kind } => PcapOutcome::BadRecord { number, kind },
            PcapFault::TooLong => PcapOutcome::Usual(Outcome::TooLong),
        }
    }
}
