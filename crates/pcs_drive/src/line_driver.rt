// The loop of a command over lines.
ghost use Rattle.std.specs.Prelude.{◌^◌, [], ℕ, List, Option};
ghost use Rattle.pcs_io.specs.Histories.{Stands, opened};
ghost use Rattle.pcs_drive.specs.LineCommand.{Converted, Converts};
ghost use Rattle.pcs_drive.specs.LineTasks.{IsTextOf};
ghost use Rattle.pcs_drive.specs.Seen.{seen, since};
ghost use Rattle.pcs_drive.specs.Writing.{Wrote};

use crate::{LineTask, Outcome, Output};
use pcs_io::{Failed, Parser, Reader, Sink, Source};

/// Reads lines, by a reader that was opened and had no other call, and writes what the task makes of
/// them. The text so far is written before the source is read again and at the end. No memory is
/// taken.
pub fn drive_lines<P: Parser + Drop, T: LineTask<P>, R: Source, W: Sink>(
    reader: &mut Reader<P>,
    task: &mut T,
    output: &mut Output,
    source: &mut R,
    sink: &mut W,
) -> Outcome
    requires opened { Stands P.line_at reader.old (opened (2 ^ 40)) }
    requires none_taken { T.Keeps task.old [] }
    ensures { (text_of : List P.Item → List ℕ) (start : Option (List ℕ)) → IsTextOf T.text P.line text_of
        → Wrote start (W.held sink.old) (text_of []) output.old
        → Converted P.line_at text_of
        (since start (seen R.told R.ended R.faults W.held W.faults source.old source.new sink.old sink.new)) result }
{
    match convert_lines(reader, task, output, source, sink) {
        Ok(outcome) => outcome,
        Err(Failed) => Outcome::WriteFault,
    }
}

// The same. `Failed` comes where a write failed.
fn convert_lines<P: Parser + Drop, T: LineTask<P>, R: Source, W: Sink>(
    reader: &mut Reader<P>,
    task: &mut T,
    output: &mut Output,
    source: &mut R,
    sink: &mut W,
) -> Result<Outcome, Failed>
    requires opened { Stands P.line_at reader.old (opened (2 ^ 40)) }
    requires none_taken { T.Keeps task.old [] }
    ensures { (text_of : List P.Item → List ℕ) (start : Option (List ℕ)) → IsTextOf T.text P.line text_of
        → Wrote start (W.held sink.old) (text_of []) output.old
        → Converts P.line_at text_of
        (since start (seen R.told R.ended R.faults W.held W.faults source.old source.new sink.old sink.new)) result }
{
    loop {
        output.release(sink, reader.holds_line())?;
        match reader.next(source) {
            Ok(true) => task.put_line(reader.parser(), output, sink)?,
            Ok(false) => {
                output.flush(sink)?;
                return Ok(Outcome::Done);
            }
            Err(fault) => {
                output.flush(sink)?;
                return Ok(Outcome::from(fault));
            }
        }
    }
}
