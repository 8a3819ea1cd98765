// A pcap file becomes frame lines.
ghost use Rattle.std.specs.Prelude.{◌≡◌, ◌≤◌, [], decimal, length, OnOk, OnErr};
ghost use Rattle.pcs_io.specs.Faults.{HasCause};
ghost use Rattle.pcs_drive.specs.Seen.{seen};
ghost use Rattle.pcs_drive.specs.Writing.{Puts, BreaksOff, BreaksOffBefore, Extends};
ghost use Rattle.pcs_late.specs.Unpacking.{IsOpened, Unpacked, Unpacks, frame_line};

use crate::PcapOutcome;
use itoa::Buffer;
use pcap_frames::PcapReader;
use pcs_drive::{Outcome, Output};
use pcs_io::{Failed, Sink, Source};

/// Reads a pcap file and writes for each record a frame line with this gap, by a reader that was
/// opened and had no other call. It takes no memory.
pub fn pcap_opened<R: Source, W: Sink>(
    reader: &mut PcapReader,
    gap: u32,
    source: &mut R,
    sink: &mut W,
) -> PcapOutcome
    requires { IsOpened reader.old reader.old.short }
    ensures { Unpacked gap reader.old.short
        (seen R.told R.ended R.faults W.held W.faults source.old source.new sink.old sink.new) result }
{
    let mut output = Output::new();
    match convert(reader, gap, &mut output, source, sink) {
        Ok(outcome) => outcome,
        Err(Failed) => PcapOutcome::Usual(Outcome::WriteFault),
    }
}

// Reads the header and the records and gathers their text, which is written before the source is
// read again and at the end. `Failed` comes where a write failed.
fn convert<R: Source, W: Sink>(
    reader: &mut PcapReader,
    gap: u32,
    output: &mut Output,
    source: &mut R,
    sink: &mut W,
) -> Result<PcapOutcome, Failed>
    requires opened { IsOpened reader.old reader.old.short }
    requires empty { output.old ≡ [] }
    ensures { Unpacks gap reader.old.short
        (seen R.told R.ended R.faults W.held W.faults source.old source.new sink.old sink.new) result }
{
    match reader.header(source) {
        Ok(()) => {}
        Err(fault) => return Ok(PcapOutcome::from(fault)),
    }
    loop {
        output.release(sink, reader.holds_record())?;
        match reader.next(source) {
            Ok(Some(frame)) => put_frame_line(output, sink, gap, frame)?,
            Ok(None) => {
                output.flush(sink)?;
                return Ok(PcapOutcome::Usual(Outcome::Done));
            }
            Err(fault) => {
                output.flush(sink)?;
                return Ok(PcapOutcome::from(fault));
            }
        }
    }
}

// Puts the digits of a gap.
fn put_gap<W: Sink>(output: &mut Output, sink: &mut W, gap: u32) -> Result<(), Failed>
    ensures ok { OnOk result (Puts (W.held sink.old) output.old (decimal gap) (W.held sink.new) output.new) }
    ensures err { OnErr result (BreaksOffBefore (W.held sink.old) output.old (W.held sink.new)) }
    ensures cause { HasCause (W.faults sink.old) (W.faults sink.new) result }
    ensures grows { Extends (W.held sink.old) (W.held sink.new) result }
{
    output.put(sink, Buffer::new().format(gap).as_bytes())
}

// Puts the frame line of a frame with this gap.
fn put_frame_line<W: Sink>(
    output: &mut Output,
    sink: &mut W,
    gap: u32,
    frame: &[u8],
) -> Result<(), Failed>
    requires { length frame.now ≤ 16384 }
    ensures ok { OnOk result (Puts (W.held sink.old) output.old (frame_line gap frame.now) (W.held sink.new) output.new) }
    ensures err { OnErr result (BreaksOff (W.held sink.old) output.old (frame_line gap frame.now) (W.held sink.new)) }
    ensures cause { HasCause (W.faults sink.old) (W.faults sink.new) result }
    ensures grows { Extends (W.held sink.old) (W.held sink.new) result }
{
    put_gap(output, sink, gap)?;
    output.put(sink, b" ")?;
    output.put_hex_line(sink, frame)?;
    Ok(())
}
