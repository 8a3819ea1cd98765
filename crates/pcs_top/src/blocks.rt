// Frame lines become block lines.
ghost use Rattle.std.specs.Prelude.{◌≡◌, ◌≤◌, ◌^◌, [], length, OnOk, OnErr};
ghost use Rattle.pcs_io.specs.Faults.{HasCause};
ghost use Rattle.pcs_io.specs.FrameLines.{frame_line_at};
ghost use Rattle.pcs_io.specs.Histories.{Stands, opened};
ghost use Rattle.pcs_drive.specs.Seen.{seen};
ghost use Rattle.pcs_drive.specs.LineCommand.{Converted, OrNoMemory};
ghost use Rattle.pcs_top.specs.Texts.{block_line, block_text, column_text};
ghost use Rattle.pcs_drive.specs.Writing.{Puts, BreaksOff, Extends};
ghost use Rattle.pcs_io.specs.FrameAnswers.{said, FitsLine};
ghost use Rattle.pcs_top.specs.LineColumns.{columns_of_line};
ghost use Rattle.mac_columns.specs.Columns.{columns_of, columns_of_set};

use block66::{Block, encode};
use mac_columns::{FrameColumns, SetColumns};
use pcs_drive::{LIMIT, LineTask, Outcome, Output, drive_lines};
use pcs_io::{Failed, FrameParser, Line, Lines, Sink, Source};
use std::alloc::Global;

// The octets of a block line.
const LINE: usize = 20;

/// Reads frame lines and writes their block lines.
pub fn blocks<R: Source, W: Sink>(alloc: Global, source: &mut R, sink: &mut W) -> Outcome
    ensures { OrNoMemory (Converted frame_line_at block_text)
        (seen R.told R.ended R.faults W.held W.faults source.old source.new sink.old sink.new) result }
{
    match Lines::open(alloc, LIMIT) {
        Ok(mut lines) => blocks_opened(&mut lines, source, sink),
        Err(_) => Outcome::NoMemory,
    }
}

/// The same with a reader that was opened and had no other call. It takes no memory.
pub fn blocks_opened<R: Source, W: Sink>(lines: &mut Lines, source: &mut R, sink: &mut W) -> Outcome
    requires { Stands frame_line_at lines.old (opened (2 ^ 40)) }
    ensures { Converted frame_line_at block_text
        (seen R.told R.ended R.faults W.held W.faults source.old source.new sink.old sink.new) result }
{
    let mut output = Output::new();
    drive_lines(&mut lines.reader, &mut Blocking, &mut output, source, sink)
}

// The block lines of each line's columns.
#[derive(Drop)]
struct Blocking;

impl LineTask<FrameParser> for Blocking {
    ghost use Rattle.std.specs.Prelude.{⊤};
    ghost use Rattle.pcs_drive.specs.LineTasks.{by_lines};
    ghost use Rattle.pcs_io.specs.FrameStages.{FrameParserState};
    ghost use Rattle.pcs_io.specs.LineEnds.{frame_lines_end};
    ghost use Rattle.pcs_top.specs.Texts.{block_text};

    ghost text = { by_lines (λ (parser : FrameParserState). parser.line) block_text };

    ghost Keeps = { λ x parsers. ⊤ };

    fn put_line<W: Sink>(
        &mut self,
        parser: &FrameParser,
        output: &mut Output,
        sink: &mut W,
    ) -> Result<(), Failed> {
        put_line(output, sink, parser.line())
    }

    ghost ends = { frame_lines_end };
}

// Puts the block lines of a line's columns.
fn put_line<W: Sink>(output: &mut Output, sink: &mut W, line: Line<'_>) -> Result<(), Failed>
    requires { FitsLine line }
    ensures ok { OnOk result (Puts (W.held sink.old) output.old (column_text (columns_of_line (said line.entry))) (W.held sink.new) output.new) }
    ensures err { OnErr result (BreaksOff (W.held sink.old) output.old (column_text (columns_of_line (said line.entry))) (W.held sink.new)) }
    ensures cause { HasCause (W.faults sink.old) (W.faults sink.new) result }
    ensures grows { Extends (W.held sink.old) (W.held sink.new) result }
{
    match line {
        Line::Frame { gap, frame } => put_frame(output, sink, frame, gap),
        Line::Set { gap, octets } => put_set(output, sink, octets, gap),
    }
}

// Puts the block lines of a frame and its gap.
fn put_frame<W: Sink>(
    output: &mut Output,
    sink: &mut W,
    frame: &[u8],
    gap: u32,
) -> Result<(), Failed>
    requires { length frame.now ≤ 16384 }
    ensures ok { OnOk result (Puts (W.held sink.old) output.old (column_text (columns_of frame.now gap)) (W.held sink.new) output.new) }
    ensures err { OnErr result (BreaksOff (W.held sink.old) output.old (column_text (columns_of frame.now gap)) (W.held sink.new)) }
    ensures cause { HasCause (W.faults sink.old) (W.faults sink.new) result }
    ensures grows { Extends (W.held sink.old) (W.held sink.new) result }
{
    output.make_room(sink, LINE * (2 + frame.len() / 8 + gap as usize))?;
    let mut columns = FrameColumns::new(frame, gap);
    while let Some(column) = columns.next() {
        output.put(sink, &line_of(&encode(&column)))?;
    }
    Ok(())
}

// Puts the block lines of an ordered set and its gap.
fn put_set<W: Sink>(
    output: &mut Output,
    sink: &mut W,
    octets: [u8; 3],
    gap: u32,
) -> Result<(), Failed>
    ensures ok { OnOk result (Puts (W.held sink.old) output.old (column_text (columns_of_set octets gap)) (W.held sink.new) output.new) }
    ensures err { OnErr result (BreaksOff (W.held sink.old) output.old (column_text (columns_of_set octets gap)) (W.held sink.new)) }
    ensures cause { HasCause (W.faults sink.old) (W.faults sink.new) result }
    ensures grows { Extends (W.held sink.old) (W.held sink.new) result }
{
    output.make_room(sink, LINE * (1 + gap as usize))?;
    let mut columns = SetColumns::new(octets, gap);
    while let Some(column) = columns.next() {
        output.put(sink, &line_of(&encode(&column)))?;
    }
    Ok(())
}

/// The line of a block.
#[inline]
pub fn line_of(block: &Block) -> [u8; LINE]
    ensures { result ≡ block_line block.now }
{
    let mut line = [b'\n'; LINE];
    line[..3].copy_from_slice(if block.control { b"10 " } else { b"01 " });
    hex::encode_to_slice(block.payload.to_le_bytes(), &mut line[3..19]).unwrap();
    line
}
