// Frame text becomes a pcap file.
ghost use Rattle.std.specs.Prelude.{◌≡◌, ◌≤◌, ◌^◌, [], length, OnOk, OnErr};
ghost use Rattle.pcap_frames.specs.Pcap.{record_octets};
ghost use Rattle.pcs_io.specs.Faults.{HasCause};
ghost use Rattle.pcs_io.specs.Histories.{Stands, opened};
ghost use Rattle.pcs_io.specs.TextLines.{text_line_at};
ghost use Rattle.pcs_drive.specs.Seen.{seen};
ghost use Rattle.pcs_drive.specs.Writing.{Puts, BreaksOff, Extends};
ghost use Rattle.pcs_late.specs.Packing.{Packed};

use pcap_frames::{pcap_header, record_header};
use pcs_drive::{LineTask, Outcome, Output, drive_lines};
use pcs_io::{Failed, Sink, Source, TextLines, TextParser, put_all};

/// Writes the header of a pcap file, and then reads frame text and writes a record for each line, by
/// a reader that was opened and had no other call. It takes no memory.
pub fn pcap_write_opened<R: Source, W: Sink>(
    lines: &mut TextLines,
    source: &mut R,
    sink: &mut W,
) -> Outcome
    requires { Stands text_line_at lines.old (opened (2 ^ 40)) }
    ensures { Packed (seen R.told R.ended R.faults W.held W.faults source.old source.new sink.old sink.new) result }
{
    if let Err(Failed) = put_all(sink, &pcap_header()) {
        return Outcome::WriteFault;
    }
    let mut output = Output::new();
    drive_lines(&mut lines.reader, &mut Packing, &mut output, source, sink)
}

// The record of each frame.
#[derive(Drop)]
struct Packing;

impl LineTask<TextParser> for Packing {
    ghost use Rattle.std.specs.Prelude.{⊤};
    ghost use Rattle.pcs_drive.specs.LineTasks.{by_lines};
    ghost use Rattle.pcs_io.specs.LineEnds.{text_lines_end};
    ghost use Rattle.pcs_io.specs.TextLines.{TextParserState};
    ghost use Rattle.pcs_late.specs.Packing.{records_text};

    ghost text = { by_lines (λ (parser : TextParserState). parser.frame) records_text };

    ghost ends = { text_lines_end };

    ghost Keeps = { λ x parsers. ⊤ };

    fn put_line<W: Sink>(
        &mut self,
        parser: &TextParser,
        output: &mut Output,
        sink: &mut W,
    ) -> Result<(), Failed> {
        put_record(output, sink, parser.frame())
    }
}

// Puts the record of a frame.
fn put_record<W: Sink>(output: &mut Output, sink: &mut W, frame: &[u8]) -> Result<(), Failed>
    requires { length frame.now ≤ 16384 }
    ensures ok { OnOk result (Puts (W.held sink.old) output.old (record_octets frame.now) (W.held sink.new) output.new) }
    ensures err { OnErr result (BreaksOff (W.held sink.old) output.old (record_octets frame.now) (W.held sink.new)) }
    ensures cause { HasCause (W.faults sink.old) (W.faults sink.new) result }
    ensures grows { Extends (W.held sink.old) (W.held sink.new) result }
{
    output.put(sink, &record_header(frame.len() as u32))?;
    output.put(sink, frame)?;
    Ok(())
}
