// The lines of watchers.
ghost use Rattle.std.specs.Prelude.{◌≡◌, ◌++◌, ◌<◌, ◌^◌, OnOk, OnErr, List, map, codes, decimal, length, slice_get};
ghost use Rattle.pcs_io.specs.Faults.{HasCause};
ghost use Rattle.pcs_watch.specs.Watching.{seen};
ghost use Rattle.pcs_drive.specs.Writing.{Puts, BreaksOff, Extends};
ghost use Rattle.pcs_top.specs.Reporting.{numbers_text, tally_line, tally_text};

use itoa::Buffer;
use pcs_drive::Output;
use pcs_io::{Failed, Sink};
use pcs_watch::Watcher;

/// Puts a line for each watcher, in order.
pub fn put_tallies<W: Sink>(
    output: &mut Output,
    sink: &mut W,
    watchers: &[Box<dyn Watcher>],
) -> Result<(), Failed>
    ensures ok { OnOk result (Puts (W.held sink.old) output.old (tally_text (map (seen label tally after leaves) watchers.now))
        (W.held sink.new) output.new) }
    ensures err { OnErr result (BreaksOff (W.held sink.old) output.old (tally_text (map (seen label tally after leaves) watchers.now))
        (W.held sink.new)) }
    ensures cause { HasCause (W.faults sink.old) (W.faults sink.new) result }
    ensures grows { Extends (W.held sink.old) (W.held sink.new) result }
{
    for i in 0..watchers.len() {
        put_tally(output, sink, &watchers[i])?;
    }
    Ok(())
}

// Puts the line of a watcher.
fn put_tally<W: Sink>(
    output: &mut Output,
    sink: &mut W,
    watcher: &Box<dyn Watcher>,
) -> Result<(), Failed>
    ensures ok { OnOk result (Puts (W.held sink.old) output.old (tally_line (seen label tally after leaves watcher.now)) (W.held sink.new) output.new) }
    ensures err { OnErr result (BreaksOff (W.held sink.old) output.old (tally_line (seen label tally after leaves watcher.now)) (W.held sink.new)) }
    ensures cause { HasCause (W.faults sink.old) (W.faults sink.new) result }
    ensures grows { Extends (W.held sink.old) (W.held sink.new) result }
{
    output.put(sink, b"tally ")?;
    output.put_long(sink, name_of(watcher))?;
    put_numbers(output, sink, watcher)?;
    output.put(sink, b"\n")?;
    Ok(())
}

// Puts a space and a number for each number of the tally.
fn put_numbers<W: Sink>(
    output: &mut Output,
    sink: &mut W,
    watcher: &Box<dyn Watcher>,
) -> Result<(), Failed>
    ensures ok { OnOk result (Puts (W.held sink.old) output.old (numbers_text (tally watcher.now)) (W.held sink.new) output.new) }
    ensures err { OnErr result (BreaksOff (W.held sink.old) output.old (numbers_text (tally watcher.now)) (W.held sink.new)) }
    ensures cause { HasCause (W.faults sink.old) (W.faults sink.new) result }
    ensures grows { Extends (W.held sink.old) (W.held sink.new) result }
{
    let mut i = 0;
    while let Some(number) = number_of(watcher, i) {
        put_number(output, sink, number)?;
        i += 1;
    }
    Ok(())
}

// Puts a space and the number.
fn put_number<W: Sink>(output: &mut Output, sink: &mut W, number: u64) -> Result<(), Failed>
    ensures ok { OnOk result (Puts (W.held sink.old) output.old (codes " " ++ decimal number) (W.held sink.new) output.new) }
    ensures err { OnErr result (BreaksOff (W.held sink.old) output.old (codes " " ++ decimal number) (W.held sink.new)) }
    ensures cause { HasCause (W.faults sink.old) (W.faults sink.new) result }
    ensures grows { Extends (W.held sink.old) (W.held sink.new) result }
{
    output.put(sink, b" ")?;
    output.put(sink, Buffer::new().format(number).as_bytes())?;
    Ok(())
}

fn name_of(watcher: &Box<dyn Watcher>) -> &[u8]
    ensures { result.now ≡ label watcher.now }
{
    watcher.name().as_bytes()
}

fn number_of(watcher: &Box<dyn Watcher>, i: usize) -> Option<u64>
    ensures number { result ≡ slice_get (tally watcher.now) i }
    ensures count { length (tally watcher.now) < 2 ^ 64 }
{
    watcher.number(i)
}
