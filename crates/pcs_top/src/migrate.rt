// Captures of either version become captures of version 2.
ghost use Rattle.std.specs.Prelude.{◌≡◌};
ghost use Rattle.pcs_io.specs.Headers.{IsInRange};
ghost use Rattle.pcs_drive.specs.Seen.{seen};
ghost use Rattle.pcs_drive.specs.CaptureCommand.{FromCapture};
ghost use Rattle.pcs_top.specs.Migrating.{migrated, migrated_header};

use pcs_drive::{Outcome, Output, Task, drive, open_capture};
use pcs_io::{Failed, Header, Sink, Source, write_header2};
use std::alloc::Global;

/// Reads a capture and writes it in version 2, with the smaller of this skew and its own.
pub fn migrate<R: Source, W: Sink>(
    alloc: Global,
    skew: u32,
    source: &mut R,
    sink: &mut W,
) -> Outcome
    ensures { FromCapture (migrated skew)
        (seen R.told R.ended R.faults W.held W.faults source.old source.new sink.old sink.new) result }
{
    match open_capture(alloc, source) {
        Ok((mut beats, header)) => {
            let mut output = Output::holding(&header_of(&header, skew));
            drive(&mut beats, &mut Copying, &mut output, source, sink)
        }
        Err(outcome) => outcome,
    }
}

// The header with the smaller of this skew and its own.
fn header_of(header: &Header, skew: u32) -> [u8; 32]
    requires { IsInRange header.now }
    ensures { result ≡ migrated_header skew header.now }
{
    write_header2(&Header {
        version: 2,
        period: header.period,
        skew: skew.min(header.skew),
    })
}

// The beats stay as they are.
#[derive(Drop)]
struct Copying;

impl Task for Copying {
    ghost use Rattle.std.specs.Prelude.{◌≡◌, ℕ, ⊤};
    ghost use Rattle.pcs_io.specs.declared.header.Header.{Header as HeaderValue};
    ghost use Rattle.pcs_top.specs.Migrating.{migrated};

    ghost Keeps = { λ x text beats. (skew : ℕ) × (header : HeaderValue) × (text ≡ migrated skew header) };

    ghost IsReady = { λ x. ⊤ };

    ghost taken = { λ x. 0 };

    fn take<W: Sink>(
        &mut self,
        beat: [u8; 16],
        output: &mut Output,
        sink: &mut W,
    ) -> Result<(), Failed> {
        output.put(sink, &beat)
    }

    fn take_all<W: Sink>(
        &mut self,
        octets: &[u8],
        output: &mut Output,
        sink: &mut W,
    ) -> Result<(), Failed> {
        output.put(sink, octets)
    }

    fn finish<W: Sink>(&mut self, output: &mut Output, sink: &mut W) -> Result<bool, Failed> {
        Ok(true)
    }
}
