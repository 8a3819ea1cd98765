// Frame lines become a capture.
ghost use Rattle.std.specs.Prelude.{◌≡◌, ◌<◌, ◌≤◌, ◌+◌, ◌-◌, ◌^◌, ◌∷◌, ◌++◌, [], ℕ, List, Option, length, reverse, true, false, IfOk, OnOk, OnErr, IfErr, IsErrOf};
ghost use Rattle.mac_columns.specs.declared.column.Column.{Column};
ghost use Rattle.mac_columns.specs.Columns.{columns_of, columns_of_set};
ghost use Rattle.rate_match.specs.Kept.{debt};
ghost use Rattle.pcs_io.specs.Faults.{HasCause, Rose};
ghost use Rattle.pcs_io.specs.Octets.{AppendsFront};
ghost use Rattle.pcs_io.specs.FrameLines.{frame_line_at};
ghost use Rattle.pcs_io.specs.FrameAnswers.{said, FitsLine};
ghost use Rattle.pcs_top.specs.LineColumns.{columns_of_line};
ghost use Rattle.pcs_io.specs.Histories.{Stands as ReaderStands, opened};
ghost use Rattle.pcs_send.specs.Transmission.{idles, begun_columns, carried, pair_beats};
ghost use Rattle.pcs_send.specs.Histories.{Sending, sending, end_column, after_take};
ghost use Rattle.pcs_send.specs.Holding.{Stands, is_ready};
ghost use Rattle.pcs_words.specs.declared.command.EncodeOptions.{EncodeOptions};
ghost use Rattle.pcs_top.specs.declared.encode.Halt.TheVariants as Halt;
ghost use Rattle.pcs_drive.specs.LineCommand.{OrNoMemory};
ghost use Rattle.pcs_drive.specs.Seen.{seen, since};
ghost use Rattle.pcs_top.specs.Captures.{capture_octets, form_header, begun_octets, sent_octets};
ghost use Rattle.pcs_top.specs.Encoding.{Encoded, Encodes};
ghost use Rattle.pcs_top.specs.Sending.{HasSent, HasPut, ColumnHalts, LineHalts, with_pairs, filled_columns, AreWhole};
ghost use Rattle.pcs_words.specs.Commands.{IsEncode};
ghost use Rattle.pcs_drive.specs.Writing.{Puts, BreaksOffBefore, Wrote, Extends};

use crate::idle_pairs::{put_idle_pair, put_idle_pairs, put_pair};
use mac_columns::{Column, FrameColumns, SetColumns};
use pcs_drive::{LIMIT, Outcome, Output};
use pcs_io::{Failed, Header, Line, Lines, Sink, Source, most_skew, write_header, write_header2};
use pcs_send::{Put, Sender, TooTight};
use pcs_words::EncodeOptions;
use std::alloc::Global;

/// Why no further column is put: the debt would pass its limit, or a write failed.
#[derive(Clone, Copy, Debug, PartialEq, Eq)]
pub enum Halt {
    TooTight,
    Failed,
}

impl From<TooTight> for Halt {
    ghost from_gives = { λ refusal halt. halt ≡ Halt.TooTight };

    fn from(_refusal: TooTight) -> Halt {
        Halt::TooTight
    }
}

impl From<Failed> for Halt {
    ghost from_gives = { λ failure halt. halt ≡ Halt.Failed };

    fn from(_failure: Failed) -> Halt {
        Halt::Failed
    }
}

// Puts a column of the input, and the beats of the pair that it fills.
fn put_column<W: Sink>(
    column: Column,
    sender: &mut Sender,
    output: &mut Output,
    sink: &mut W,
) -> Result<(), Halt>
    requires waits { is_ready sender.old ≡ false }
    ensures waits { OnOk result (is_ready sender.new ≡ false) }
    ensures ok { OnOk result ((o : EncodeOptions) (cs : List Column) (start : Option (List ℕ))
        → HasPut sender.old o cs start (W.held sink.old) output.old
        → HasPut sender.new o (cs ++ column ∷ []) start (W.held sink.new) output.new) }
    ensures err { IfErr result (λ halt. (o : EncodeOptions) (cs : List Column) (start : Option (List ℕ))
        → HasPut sender.old o cs start (W.held sink.old) output.old
        → ColumnHalts o cs column start (W.held sink.new) output.new halt) }
    ensures later { W.faults sink.old ≤ W.faults sink.new }
    ensures failed { IsErrOf result Halt.Failed → Rose (W.faults sink.old) (W.faults sink.new) }
    ensures grows { Extends (W.held sink.old) (W.held sink.new) result }
{
    match sender.put(column)? {
        Put::More => {}
        Put::PairReady => put_pair(sender, output, sink)?,
    }
    Ok(())
}

// Puts the columns of a line.
fn put_line<W: Sink>(
    line: Line<'_>,
    sender: &mut Sender,
    output: &mut Output,
    sink: &mut W,
) -> Result<(), Halt>
    requires fits { FitsLine line }
    requires waits { is_ready sender.old ≡ false }
    ensures waits { OnOk result (is_ready sender.new ≡ false) }
    ensures ok { OnOk result ((o : EncodeOptions) (cs : List Column) (start : Option (List ℕ))
        → HasPut sender.old o cs start (W.held sink.old) output.old
        → HasPut sender.new o (cs ++ columns_of_line (said line.entry)) start (W.held sink.new) output.new) }
    ensures err { IfErr result (λ halt. (o : EncodeOptions) (cs : List Column) (start : Option (List ℕ))
        → HasPut sender.old o cs start (W.held sink.old) output.old
        → LineHalts o cs (columns_of_line (said line.entry)) start (W.held sink.new) output.new halt) }
    ensures later { W.faults sink.old ≤ W.faults sink.new }
    ensures failed { IsErrOf result Halt.Failed → Rose (W.faults sink.old) (W.faults sink.new) }
    ensures grows { Extends (W.held sink.old) (W.held sink.new) result }
{
    match line {
        Line::Frame { gap, frame } => put_frame(frame, gap, sender, output, sink),
        Line::Set { gap, octets } => put_set(octets, gap, sender, output, sink),
    }
}

// Puts the columns of a frame and its gap.
fn put_frame<W: Sink>(
    frame: &[u8],
    gap: u32,
    sender: &mut Sender,
    output: &mut Output,
    sink: &mut W,
) -> Result<(), Halt>
    requires small { length frame.now ≤ 16384 }
    requires waits { is_ready sender.old ≡ false }
    ensures waits { OnOk result (is_ready sender.new ≡ false) }
    ensures ok { OnOk result ((o : EncodeOptions) (cs : List Column) (start : Option (List ℕ))
        → HasPut sender.old o cs start (W.held sink.old) output.old
        → HasPut sender.new o (cs ++ columns_of frame.now gap) start (W.held sink.new) output.new) }
    ensures err { IfErr result (λ halt. (o : EncodeOptions) (cs : List Column) (start : Option (List ℕ))
        → HasPut sender.old o cs start (W.held sink.old) output.old
        → LineHalts o cs (columns_of frame.now gap) start (W.held sink.new) output.new halt) }
    ensures later { W.faults sink.old ≤ W.faults sink.new }
    ensures failed { IsErrOf result Halt.Failed → Rose (W.faults sink.old) (W.faults sink.new) }
    ensures grows { Extends (W.held sink.old) (W.held sink.new) result }
{
    let mut columns = FrameColumns::new(frame, gap);
    while let Some(column) = columns.next() {
        put_column(column, sender, output, sink)?;
    }
    Ok(())
}

// Puts the columns of an ordered set and its gap.
fn put_set<W: Sink>(
    octets: [u8; 3],
    gap: u32,
    sender: &mut Sender,
    output: &mut Output,
    sink: &mut W,
) -> Result<(), Halt>
    requires waits { is_ready sender.old ≡ false }
    ensures waits { OnOk result (is_ready sender.new ≡ false) }
    ensures ok { OnOk result ((o : EncodeOptions) (cs : List Column) (start : Option (List ℕ))
        → HasPut sender.old o cs start (W.held sink.old) output.old
        → HasPut sender.new o (cs ++ columns_of_set octets gap) start (W.held sink.new) output.new) }
    ensures err { IfErr result (λ halt. (o : EncodeOptions) (cs : List Column) (start : Option (List ℕ))
        → HasPut sender.old o cs start (W.held sink.old) output.old
        → LineHalts o cs (columns_of_set octets gap) start (W.held sink.new) output.new halt) }
    ensures later { W.faults sink.old ≤ W.faults sink.new }
    ensures failed { IsErrOf result Halt.Failed → Rose (W.faults sink.old) (W.faults sink.new) }
    ensures grows { Extends (W.held sink.old) (W.held sink.new) result }
{
    let mut columns = SetColumns::new(octets, gap);
    while let Some(column) = columns.next() {
        put_column(column, sender, output, sink)?;
    }
    Ok(())
}

// Puts the header. In form 2 its skew is the greatest that the period allows.
fn put_header<W: Sink>(
    options: &EncodeOptions,
    output: &mut Output,
    sink: &mut W,
) -> Result<(), Failed>
    requires { IsEncode options.now }
    ensures ok { OnOk result (Puts (W.held sink.old) output.old (form_header options.now.form options.now.period) (W.held sink.new) output.new) }
    ensures err { OnErr result (BreaksOffBefore (W.held sink.old) output.old (W.held sink.new)) }
    ensures cause { HasCause (W.faults sink.old) (W.faults sink.new) result }
{
    let period = options.period;
    let skew = most_skew(period);
    if options.form == 1 {
        let header = Header {
            version: 1,
            period,
            skew,
        };
        return output.put(sink, &write_header(&header));
    }
    let header = Header {
        version: 2,
        period,
        skew,
    };
    output.put(sink, &write_header2(&header))
}

// Puts the header and the lead.
fn begin<W: Sink>(
    options: &EncodeOptions,
    sender: &mut Sender,
    output: &mut Output,
    sink: &mut W,
) -> Result<(), Failed>
    requires ranges { IsEncode options.now }
    requires waits { is_ready sender.old ≡ false }
    requires made { Stands sender.old (sending options.now.period) }
    ensures waits { OnOk result (is_ready sender.new ≡ false) }
    ensures ok { OnOk result ((start : Option (List ℕ)) → Wrote start (W.held sink.old) [] output.old
        → HasPut sender.new options.now [] start (W.held sink.new) output.new) }
    ensures err { OnErr result ((start : Option (List ℕ)) → Wrote start (W.held sink.old) [] output.old
        → AppendsFront start (W.held sink.new) (begun_octets options.now [])) }
    ensures cause { HasCause (W.faults sink.old) (W.faults sink.new) result }
{
    put_header(options, output, sink)?;
    put_idle_pairs(sender, output, sink, options.lead * options.period)
}

// Fills the last pair begun, if there is one, and puts it.
fn fill_last<W: Sink>(sender: &mut Sender, output: &mut Output, sink: &mut W) -> Result<(), Failed>
    requires waits { is_ready sender.old ≡ false }
    ensures waits { OnOk result (is_ready sender.new ≡ false) }
    ensures ok { OnOk result ((o : EncodeOptions) (cs : List Column) (start : Option (List ℕ))
        → HasPut sender.old o cs start (W.held sink.old) output.old
        → HasSent sender.new o.form o.period (filled_columns o cs) (debt o.period (reverse cs)) start (W.held sink.new) output.new) }
    ensures err { OnErr result ((o : EncodeOptions) (cs : List Column) (start : Option (List ℕ))
        → HasPut sender.old o cs start (W.held sink.old) output.old
        → AppendsFront start (W.held sink.new) (capture_octets o.form o.period (carried o.period (filled_columns o cs)))) }
    ensures cause { HasCause (W.faults sink.old) (W.faults sink.new) result }
    ensures grows { Extends (W.held sink.old) (W.held sink.new) result }
{
    if !sender.begun() {
        return Ok(());
    }
    put_idle_pair(sender, output, sink)
}

// Fills the last pair begun, and puts the tail.
fn finish<W: Sink>(
    options: &EncodeOptions,
    sender: &mut Sender,
    output: &mut Output,
    sink: &mut W,
) -> Result<(), Failed>
    requires ranges { IsEncode options.now }
    requires waits { is_ready sender.old ≡ false }
    ensures ok { OnOk result ((cs : List Column) (start : Option (List ℕ))
        → HasPut sender.old options.now cs start (W.held sink.old) output.old
        → Wrote start (W.held sink.new) (sent_octets options.now cs) output.new) }
    ensures err { OnErr result ((cs : List Column) (start : Option (List ℕ))
        → HasPut sender.old options.now cs start (W.held sink.old) output.old
        → AppendsFront start (W.held sink.new) (sent_octets options.now cs)) }
    ensures cause { HasCause (W.faults sink.old) (W.faults sink.new) result }
    ensures grows { Extends (W.held sink.old) (W.held sink.new) result }
{
    fill_last(sender, output, sink)?;
    put_idle_pairs(sender, output, sink, options.tail * options.period)
}

// Reads lines and puts their columns. What is put is written before the source is read again and at
// the end. `Failed` comes where a write failed.
fn put_lines<R: Source, W: Sink>(
    options: &EncodeOptions,
    lines: &mut Lines,
    sender: &mut Sender,
    output: &mut Output,
    source: &mut R,
    sink: &mut W,
) -> Result<Outcome, Failed>
    requires ranges { IsEncode options.now }
    requires opened { ReaderStands frame_line_at lines.old (opened (2 ^ 40)) }
    requires waits { is_ready sender.old ≡ false }
    requires written { output.old ≡ [] }
    ensures { (start : Option (List ℕ)) → HasPut sender.old options.now [] start (W.held sink.old) output.old
        → Encodes options.now (since start
        (seen R.told R.ended R.faults W.held W.faults source.old source.new sink.old sink.new)) result }
{
    loop {
        output.release(sink, lines.holds_line())?;
        match lines.next(source) {
            Ok(Some(line)) => match put_line(line, sender, output, sink) {
                Ok(()) => {}
                Err(Halt::Failed) => return Err(Failed),
                Err(Halt::TooTight) => {
                    output.flush(sink)?;
                    return Ok(Outcome::TooTight {
                        frame: lines.answered(),
                    });
                }
            },
            Ok(None) => {
                finish(options, sender, output, sink)?;
                output.flush(sink)?;
                return Ok(Outcome::Done);
            }
            Err(fault) => {
                output.flush(sink)?;
                return Ok(Outcome::from(fault));
            }
        }
    }
}

// Puts the header and the lead, which are written before the source is read, and what the lines
// come to.
fn transmit<R: Source, W: Sink>(
    options: &EncodeOptions,
    lines: &mut Lines,
    output: &mut Output,
    source: &mut R,
    sink: &mut W,
) -> Result<Outcome, Failed>
    requires ranges { IsEncode options.now }
    requires opened { ReaderStands frame_line_at lines.old (opened (2 ^ 40)) }
    requires empty { output.old ≡ [] }
    ensures { Encodes options.now
        (seen R.told R.ended R.faults W.held W.faults source.old source.new sink.old sink.new) result }
{
    let mut sender = Sender::new(options.period);
    begin(options, &mut sender, output, sink)?;
    output.flush(sink)?;
    put_lines(options, lines, &mut sender, output, source, sink)
}

/// Reads frame lines and writes the capture of their transmission.
pub fn encode<R: Source, W: Sink>(
    alloc: Global,
    options: &EncodeOptions,
    source: &mut R,
    sink: &mut W,
) -> Outcome
    requires { IsEncode options.now }
    ensures { OrNoMemory (Encoded options.now)
        (seen R.told R.ended R.faults W.held W.faults source.old source.new sink.old sink.new) result }
{
    match Lines::open(alloc, LIMIT) {
        Ok(mut lines) => encode_opened(options, &mut lines, source, sink),
        Err(_) => Outcome::NoMemory,
    }
}

/// The same with a reader that was opened and had no other call. It takes no memory.
pub fn encode_opened<R: Source, W: Sink>(
    options: &EncodeOptions,
    lines: &mut Lines,
    source: &mut R,
    sink: &mut W,
) -> Outcome
    requires ranges { IsEncode options.now }
    requires opened { ReaderStands frame_line_at lines.old (opened (2 ^ 40)) }
    ensures { Encoded options.now
        (seen R.told R.ended R.faults W.held W.faults source.old source.new sink.old sink.new) result }
{
    let mut output = Output::new();
    match transmit(options, lines, &mut output, source, sink) {
        Ok(outcome) => outcome,
        Err(Failed) => Outcome::WriteFault,
    }
}
