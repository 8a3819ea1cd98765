// A capture becomes the block lines of its columns.
ghost use Rattle.std.specs.Prelude.{◌∷◌, replicate, OnOk, OnErr};
ghost use Rattle.mac_columns.specs.declared.column.Column.TheVariants as kind;
ghost use Rattle.pcs_io.specs.Faults.{HasCause};
ghost use Rattle.pcs_drive.specs.Seen.{seen};
ghost use Rattle.pcs_drive.specs.CaptureCommand.{FromCapture};
ghost use Rattle.pcs_drive.specs.Writing.{Puts, BreaksOff, Extends};
ghost use Rattle.pcs_top.specs.ColumnTexts.{columned};
ghost use Rattle.pcs_top.specs.Texts.{column_text};

use crate::blocks::line_of;
use crate::listening::Listening;
use crate::teller::Teller;
use block66::encode;
use mac_columns::Column;
use pcs_drive::{Outcome, Output, drive, open_capture};
use pcs_io::{Failed, Sink, Source};
use pcs_receive::{Event, Receiver, Want};
use rate_match::Refill;
use std::alloc::Global;

/// Reads a capture and writes the block line of each of its columns, with the idles that the groups
/// displaced. It allows for a skew of `limit` bits, or for that of the capture where that is smaller.
pub fn columns<R: Source, W: Sink>(
    alloc: Global,
    limit: u32,
    source: &mut R,
    sink: &mut W,
) -> Outcome
    ensures { FromCapture (columned limit)
        (seen R.told R.ended R.faults W.held W.faults source.old source.new sink.old sink.new) result }
{
    match open_capture(alloc, source) {
        Ok((mut beats, header)) => {
            let skew = limit.min(header.skew);
            match Receiver::open(alloc, header.period, skew, Want::Columns) {
                Ok(mut receiver) => {
                    let refill = Refill::new();
                    let mut listening = Listening::new(&mut receiver, ColumnLines { refill });
                    let mut output = Output::new();
                    drive(&mut beats, &mut listening, &mut output, source, sink)
                }
                Err(_) => Outcome::NoMemory,
            }
        }
        Err(outcome) => outcome,
    }
}

// Each column is told by its line and those of the idles behind it, and other events by nothing.
#[derive(Drop)]
struct ColumnLines {
    refill: Refill,
}

impl Teller for ColumnLines {
    ghost use Rattle.std.specs.Prelude.{◌≡◌};
    ghost use Rattle.rate_match.specs.Refilling.{RefillStands};
    ghost use Rattle.pcs_top.specs.ColumnTexts.{calls_of, told_columns};

    ghost Keeps = { λ x text es. (text ≡ told_columns) × RefillStands x.refill (calls_of es) };

    ghost weight = { λ x. x.refill };

    fn tell<W: Sink>(
        &mut self,
        event: &Event,
        receiver: &Receiver,
        output: &mut Output,
        sink: &mut W,
    ) -> Result<(), Failed> {
        match event {
            Event::Group => {
                self.refill.group();
                Ok(())
            }
            Event::Column(column) => self.tell_column(column, receiver, output, sink),
            _ => Ok(()),
        }
    }

    fn tell_column<W: Sink>(
        &mut self,
        column: &Column,
        receiver: &Receiver,
        output: &mut Output,
        sink: &mut W,
    ) -> Result<(), Failed> {
        let idles = self.refill.take(column);
        put_column(output, sink, column, idles)
    }

    fn finish<W: Sink>(&mut self, output: &mut Output, sink: &mut W) -> Result<(), Failed> {
        Ok(())
    }
}

// Puts the line of a column, and of so many idles behind it.
fn put_column<W: Sink>(
    output: &mut Output,
    sink: &mut W,
    column: &Column,
    idles: u64,
) -> Result<(), Failed>
    ensures ok { OnOk result (Puts (W.held sink.old) output.old (column_text (column.now ∷ replicate idles kind.Idle)) (W.held sink.new) output.new) }
    ensures err { OnErr result (BreaksOff (W.held sink.old) output.old (column_text (column.now ∷ replicate idles kind.Idle)) (W.held sink.new)) }
    ensures cause { HasCause (W.faults sink.old) (W.faults sink.new) result }
    ensures grows { Extends (W.held sink.old) (W.held sink.new) result }
{
    output.put(sink, &line_of(&encode(column)))?;
    put_idles(output, sink, idles)?;
    Ok(())
}

// Puts the lines of so many idles.
fn put_idles<W: Sink>(output: &mut Output, sink: &mut W, count: u64) -> Result<(), Failed>
    ensures ok { OnOk result (Puts (W.held sink.old) output.old (column_text (replicate count kind.Idle)) (W.held sink.new) output.new) }
    ensures err { OnErr result (BreaksOff (W.held sink.old) output.old (column_text (replicate count kind.Idle)) (W.held sink.new)) }
    ensures cause { HasCause (W.faults sink.old) (W.faults sink.new) result }
    ensures grows { Extends (W.held sink.old) (W.held sink.new) result }
{
    let line = line_of(&encode(&Column::Idle));
    for i in 0..count {
        output.put(sink, &line)?;
    }
    Ok(())
}
