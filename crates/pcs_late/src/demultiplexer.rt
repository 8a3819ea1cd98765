// Levels become a capture.
ghost use Rattle.std.specs.Prelude.{◌≡◌};
ghost use Rattle.pcs_io.specs.Headers.{header2_octets};
ghost use Rattle.pcs_io.specs.LevelsHeaders.{IsLevelsHeader};
ghost use Rattle.pcs_drive.specs.Seen.{seen};
ghost use Rattle.pcs_drive.specs.CaptureCommand.{FromLevels};
ghost use Rattle.pcs_late.specs.Demultiplexing.{demultiplexed};

use pcs_drive::{Outcome, Output, Task, drive, open_levels};
use pcs_io::{Failed, Header, LevelsHeader, Sink, Source, write_header2};
use pma_link::Demux;
use std::alloc::Global;

/// Reads a file of levels and writes the capture that they carry, in version 2, with their period and
/// skew. Bit j of the phase tells whether the stream of level lane j is read from its bit 1 on.
pub fn demux<R: Source, W: Sink>(alloc: Global, phase: u8, source: &mut R, sink: &mut W) -> Outcome
    ensures { FromLevels (demultiplexed phase)
        (seen R.told R.ended R.faults W.held W.faults source.old source.new sink.old sink.new) result }
{
    match open_levels(alloc, source) {
        Ok((mut beats, header)) => {
            let mut output = Output::holding(&header_of(&header));
            let mut task = Demuxing {
                demux: Demux::new(header.precode, phase),
            };
            drive(&mut beats, &mut task, &mut output, source, sink)
        }
        Err(outcome) => outcome,
    }
}

// The header of the capture that levels carry.
fn header_of(header: &LevelsHeader) -> [u8; 32]
    requires { IsLevelsHeader header.now }
    ensures { result ≡ header2_octets header.now.period header.now.skew }
{
    write_header2(&Header {
        version: 2,
        period: header.period,
        skew: header.skew,
    })
}

// Each level beat brings the beat before its own, and the end the last one.
#[derive(Drop)]
struct Demuxing {
    demux: Demux,
}

impl Task for Demuxing {
    ghost use Rattle.std.specs.Prelude.{◌≡◌, ℕ, false};
    ghost use Rattle.pcs_late.specs.Demultiplexing.{IsDemultiplexing};

    ghost Keeps = { λ x text beats. IsDemultiplexing x.demux text beats };

    ghost IsReady = { λ x. x.demux.finished ≡ false };

    ghost taken = { λ x. 0 };

    fn take<W: Sink>(
        &mut self,
        beat: [u8; 16],
        output: &mut Output,
        sink: &mut W,
    ) -> Result<(), Failed> {
        match self.demux.beat(beat) {
            Some(given) => output.put(sink, &given),
            None => Ok(()),
        }
    }

    fn finish<W: Sink>(&mut self, output: &mut Output, sink: &mut W) -> Result<bool, Failed> {
        if let Some(last) = self.demux.finish() {
            output.put(sink, &last)?;
        }
        Ok(true)
    }
}
