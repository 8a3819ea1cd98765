// Packet captures in and out.
ghost use Rattle.pcs_drive.specs.Seen.{seen};
ghost use Rattle.pcs_late.specs.PcapCommand.{PcapAnswers};

use crate::PcapOutcome;
use crate::packer::pcap_write_opened;
use crate::unpacker::pcap_opened;
use pcap_frames::PcapReader;
use pcs_drive::{LIMIT, Outcome};
use pcs_io::{Sink, Source, TextLines};
use std::alloc::Global;

/// Reads a pcap file and writes for each record a frame line with this gap. Where `short` is set,
/// records of cut frames are frames too. Where `write` is set, reads frame text and writes a pcap
/// file; the gap and `short` have no effect then.
pub fn pcap<R: Source, W: Sink>(
    alloc: Global,
    gap: u32,
    short: bool,
    write: bool,
    source: &mut R,
    sink: &mut W,
) -> PcapOutcome
    ensures { PcapAnswers gap short write
        (seen R.told R.ended R.faults W.held W.faults source.old source.new sink.old sink.new) result }
{
    if write {
        return match TextLines::open(alloc, LIMIT) {
            Ok(mut lines) => PcapOutcome::Usual(pcap_write_opened(&mut lines, source, sink)),
            Err(_) => PcapOutcome::Usual(Outcome::NoMemory),
        };
    }
    match PcapReader::open(alloc, LIMIT, short) {
        Ok(mut reader) => pcap_opened(&mut reader, gap, source, sink),
        Err(_) => PcapOutcome::Usual(Outcome::NoMemory),
    }
}
