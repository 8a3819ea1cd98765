// The loop of a command over the beats of a file.
ghost use Rattle.std.specs.Prelude.{◌≡◌, ◌≤◌, ◌+◌, ◌^◌, [], ℕ, List, Option, IsSome};
ghost use Rattle.pcs_io.specs.Captures.{History, header_read};
ghost use Rattle.pcs_io.specs.Histories.{octets_ahead};
ghost use Rattle.pcs_io.specs.declared.header.Header.{Header};
ghost use Rattle.pcs_io.specs.declared.levels_header.LevelsHeader.{LevelsHeader};
ghost use Rattle.pcs_drive.specs.Seen.{seen, since};
ghost use Rattle.pcs_drive.specs.Tasks.{HasPut};
ghost use Rattle.pcs_drive.specs.CaptureCommand.{BeatsText, HasHeader, HasLevelsHeader, HasHeaderBy, FromBeats, FromLevelBeats, FromBeatsOrBy, outcome_at_end};
ghost use Rattle.pcs_drive.specs.FileKinds.{FileKind, HeaderOf, at_of, front_of};

use crate::{Outcome, Output, Task};
use pcs_io::{BeatIn, Beats, Failed, Sink, Source};

/// Reads the beats of a file whose header was read, and writes what the task makes of them. The
/// text so far is written before the source is read again and at the end. No memory is taken.
pub fn drive<T: Task, R: Source, W: Sink>(
    beats: &mut Beats,
    task: &mut T,
    output: &mut Output,
    source: &mut R,
    sink: &mut W,
) -> Outcome
    requires header { IsSome (header_read beats.old.front) }
    requires ready { T.IsReady task.old }
    requires room { T.taken task.old + octets_ahead beats.old.reader ≤ 2 ^ 40 }
    ensures captures { (h : History) (header : Header) (text : BeatsText) (start : Option (List ℕ)) → HasHeader beats.old h header
        → HasPut T.Keeps task.old text [] start (W.held sink.old) output.old
        → FromBeats text h.octets h.limit header
        (since start (seen R.told R.ended R.faults W.held W.faults source.old source.new sink.old sink.new)) result }
    ensures levels { (h : History) (header : LevelsHeader) (text : BeatsText) (start : Option (List ℕ)) → HasLevelsHeader beats.old h header
        → HasPut T.Keeps task.old text [] start (W.held sink.old) output.old
        → FromLevelBeats text h.octets h.limit header
        (since start (seen R.told R.ended R.faults W.held W.faults source.old source.new sink.old sink.new)) result }
{
    match convert(beats, task, output, source, sink) {
        Ok(outcome) => outcome,
        Err(Failed) => Outcome::WriteFault,
    }
}

// The same, for both kinds of files. `Failed` comes where a write failed.
fn convert<T: Task, R: Source, W: Sink>(
    beats: &mut Beats,
    task: &mut T,
    output: &mut Output,
    source: &mut R,
    sink: &mut W,
) -> Result<Outcome, Failed>
    requires header { IsSome (header_read beats.old.front) }
    requires ready { T.IsReady task.old }
    requires room { T.taken task.old + octets_ahead beats.old.reader ≤ 2 ^ 40 }
    ensures { (kind : FileKind) (h : History) (header : HeaderOf kind) (text : BeatsText) (start : Option (List ℕ))
        → HasHeaderBy (at_of kind) (front_of kind) beats.old h header
        → HasPut T.Keeps task.old text [] start (W.held sink.old) output.old
        → FromBeatsOrBy (at_of kind) text h.octets h.limit header
        (since start (seen R.told R.ended R.faults W.held W.faults source.old source.new sink.old sink.new)) result }
{
    loop {
        task.take_all(beats.held(), output, sink)?;
        beats.pass();
        output.flush(sink)?;
        match beats.next(source) {
            Ok(BeatIn::Beat(beat)) => task.take(beat, output, sink)?,
            Ok(BeatIn::End { rest }) => {
                let aligned = task.finish(output, sink)?;
                output.flush(sink)?;
                return Ok(outcome_at_end(rest, aligned));
            }
            Err(fault) => {
                output.flush(sink)?;
                return Ok(Outcome::from(fault));
            }
        }
    }
}

// The outcome where the input ends, by the octets behind its last whole beat.
fn outcome_at_end(rest: u8, aligned: bool) -> Outcome
    ensures { result ≡ outcome_at_end rest aligned }
{
    if rest > 0 {
        return Outcome::Cut { rest };
    }
    if !aligned {
        return Outcome::NotAligned;
    }
    Outcome::Done
}
