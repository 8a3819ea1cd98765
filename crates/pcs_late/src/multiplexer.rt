// A capture becomes levels.
ghost use Rattle.std.specs.Prelude.{◌≡◌};
ghost use Rattle.pcs_io.specs.Headers.{IsInRange};
ghost use Rattle.pcs_io.specs.LevelsHeaders.{levels_header_octets};
ghost use Rattle.pcs_drive.specs.Seen.{seen};
ghost use Rattle.pcs_drive.specs.CaptureCommand.{FromCapture};
ghost use Rattle.pcs_late.specs.Multiplexing.{multiplexed};

use pcs_drive::{Outcome, Output, Task, drive, open_capture};
use pcs_io::{Failed, Header, LevelsHeader, Sink, Source, write_levels_header};
use pma_link::Mux;
use std::alloc::Global;

/// Reads a capture and writes its levels, precoded or not, under a header with its period and skew.
pub fn mux<R: Source, W: Sink>(
    alloc: Global,
    precode: bool,
    source: &mut R,
    sink: &mut W,
) -> Outcome
    ensures { FromCapture (multiplexed precode)
        (seen R.told R.ended R.faults W.held W.faults source.old source.new sink.old sink.new) result }
{
    match open_capture(alloc, source) {
        Ok((mut beats, header)) => {
            let mut output = Output::holding(&header_of(&header, precode));
            let mut task = Muxing {
                mux: Mux::new(precode),
            };
            drive(&mut beats, &mut task, &mut output, source, sink)
        }
        Err(outcome) => outcome,
    }
}

// The header of the levels of a capture.
fn header_of(header: &Header, precode: bool) -> [u8; 32]
    requires { IsInRange header.now }
    ensures { result ≡ levels_header_octets precode header.now.period header.now.skew }
{
    write_levels_header(&LevelsHeader {
        precode,
        period: header.period,
        skew: header.skew,
    })
}

// Each beat becomes a level beat.
#[derive(Drop)]
struct Muxing {
    mux: Mux,
}

impl Task for Muxing {
    ghost use Rattle.std.specs.Prelude.{◌≡◌, ℕ, ⊤};
    ghost use Rattle.pcs_late.specs.Multiplexing.{IsMultiplexing};

    ghost Keeps = { λ x text beats. IsMultiplexing x.mux text beats };

    ghost IsReady = { λ x. ⊤ };

    ghost taken = { λ x. 0 };

    fn take<W: Sink>(
        &mut self,
        beat: [u8; 16],
        output: &mut Output,
        sink: &mut W,
    ) -> Result<(), Failed> {
        let levels = self.mux.beat(beat);
        output.put(sink, &levels)
    }

    fn finish<W: Sink>(&mut self, output: &mut Output, sink: &mut W) -> Result<bool, Failed> {
        Ok(true)
    }
}
