// A capture becomes a report: a line for each event, and at the end a line for each watcher.
ghost use Rattle.std.specs.Prelude.{◌≡◌, List, map, vec_capacity};
ghost use Rattle.pcs_watch.specs.Watching.{seen as watched, stays, told, told_all};
ghost use Rattle.pcs_receive.specs.Events.{Event as EventValue};
ghost use Rattle.pcs_receive.specs.Hearings.{IsAnswer};
ghost use Rattle.pcs_drive.specs.Seen.{seen};
ghost use Rattle.pcs_drive.specs.CaptureCommand.{FromCapture};
ghost use Rattle.pcs_top.specs.Reporting.{reported, told_event};

use crate::event_lines::line_of;
use crate::listening::Listening;
use crate::tallies::put_tallies;
use crate::teller::Teller;
use mac_columns::Column;
use pcs_drive::{Outcome, Output, drive, open_capture};
use pcs_io::{Failed, Sink, Source};
use pcs_receive::{Event, Receiver, Want};
use pcs_watch::{Report, Stay, Watcher};
use std::alloc::Global;

/// Reads a capture and writes its report. It allows for a skew of `limit` bits, or for that of the
/// capture where that is smaller.
pub fn report<R: Source, W: Sink>(
    alloc: Global,
    limit: u32,
    watchers: Vec<Box<dyn Watcher>>,
    source: &mut R,
    sink: &mut W,
) -> Outcome
    ensures { FromCapture (reported (map (watched label tally after leaves) watchers.items) limit)
        (seen R.told R.ended R.faults W.held W.faults source.old source.new sink.old sink.new) result }
{
    match open_capture(alloc, source) {
        Ok((mut beats, header)) => {
            let skew = limit.min(header.skew);
            match Receiver::open(alloc, header.period, skew, Want::Frames) {
                Ok(mut receiver) => {
                    let mut listening = Listening::new(&mut receiver, ReportLines { watchers });
                    let mut output = Output::new();
                    drive(&mut beats, &mut listening, &mut output, source, sink)
                }
                Err(_) => Outcome::NoMemory,
            }
        }
        Err(outcome) => outcome,
    }
}

// Each event is told by its line, and each report to the watchers.
#[derive(Drop)]
struct ReportLines {
    watchers: Vec<Box<dyn Watcher>>,
}

impl Teller for ReportLines {
    ghost use Rattle.pcs_watch.specs.Watching.{Seen, left_after};
    ghost use Rattle.pcs_top.specs.Reporting.{told_report, reports_of};

    ghost Keeps = { λ x text es. (first : List Seen) × (text ≡ told_report first)
        × (map (λ w. watched (Watcher-box w).label (Watcher-box w).tally (Watcher-box w).after (Watcher-box w).leaves w.value) x.watchers.items
        ≡ left_after (reports_of es) first) };

    ghost weight = { λ x. 0 };

    fn tell<W: Sink>(
        &mut self,
        event: &Event,
        receiver: &Receiver,
        output: &mut Output,
        sink: &mut W,
    ) -> Result<(), Failed> {
        tell_event(&mut self.watchers, event);
        let line = line_of(event, receiver);
        output.put(sink, line.as_bytes())
    }

    fn tell_column<W: Sink>(
        &mut self,
        column: &Column,
        receiver: &Receiver,
        output: &mut Output,
        sink: &mut W,
    ) -> Result<(), Failed> {
        self.tell(&Event::Column(*column), receiver, output, sink)
    }

    fn finish<W: Sink>(&mut self, output: &mut Output, sink: &mut W) -> Result<(), Failed> {
        put_tallies(output, sink, &self.watchers)
    }
}

// Tells the watchers of a report, and of no other event.
fn tell_event(watchers: &mut Vec<Box<dyn Watcher>>, event: &Event)
    ensures { (told : EventValue) → IsAnswer event.now told
        → map (watched label tally after leaves) watchers.new.items
        ≡ told_event told (map (watched label tally after leaves) watchers.old.items) }
{
    if let Event::Report(report) = event {
        tell_all(watchers, report);
    }
}

// Tells each watcher once, in order, and drops those that leave, as `pcs_watch::tell_all` does: a call
// of another crate that may change the boxes in a list would leave this crate's promises open.
fn tell_all(watchers: &mut Vec<Box<dyn Watcher>>, report: &Report)
    ensures told { map (watched label tally after leaves) watchers.new.items
        ≡ told_all report.now (map (watched label tally after leaves) watchers.old.items) }
    ensures room { vec_capacity watchers.new ≡ vec_capacity watchers.old }
{
    watchers.retain_mut(
        |watcher: &mut Box<dyn Watcher>| -> bool
            ensures { (watched label tally after leaves watcher.exit.now ≡ told report.entry.now (watched label tally after leaves watcher.entry.now))
                × (result ≡ stays (watched label tally after leaves watcher.exit.now)) }
        { tell_one(watcher, report) },
    );
}

// Tells one watcher, and answers whether it stays.
fn tell_one(watcher: &mut Box<dyn Watcher>, report: &Report) -> bool
    ensures told { watched label tally after leaves watcher.new ≡ told report.now (watched label tally after leaves watcher.old) }
    ensures stays { result ≡ stays (watched label tally after leaves watcher.new) }
{
    watcher.tell(report) == Stay::Stay
}
