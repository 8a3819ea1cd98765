// Symbol lines are coded and corrected.
ghost use Rattle.std.specs.Prelude.{◌≡◌, ◌^◌, ◌++◌, ◌∷◌, [], OnOk, OnErr};
ghost use Rattle.pcs_io.specs.Faults.{HasCause};
ghost use Rattle.pcs_io.specs.Histories.{Stands, opened};
ghost use Rattle.pcs_io.specs.SymbolAnswers.{AreSymbols};
ghost use Rattle.pcs_io.specs.SymbolLines.{symbol_line_at};
ghost use Rattle.pcs_drive.specs.Seen.{seen};
ghost use Rattle.pcs_drive.specs.LineCommand.{Converted, OrNoMemory};
ghost use Rattle.pcs_drive.specs.Writing.{Puts, BreaksOffBefore, Extends};
ghost use Rattle.pcs_late.specs.Kr.{answer_text, kr_text};

use crate::kr_text::text_of;
use pcs_drive::{LIMIT, LineTask, Outcome, Output, drive_lines};
use pcs_io::{Failed, Sink, Source, SymbolLines, SymbolParser};
use std::alloc::Global;

/// Reads symbol lines, and writes the codeword of each message and the codeword near each word.
pub fn kr<R: Source, W: Sink>(alloc: Global, source: &mut R, sink: &mut W) -> Outcome
    ensures { OrNoMemory (Converted symbol_line_at kr_text)
        (seen R.told R.ended R.faults W.held W.faults source.old source.new sink.old sink.new) result }
{
    match SymbolLines::open(alloc, LIMIT) {
        Ok(mut lines) => kr_opened(&mut lines, source, sink),
        Err(_) => Outcome::NoMemory,
    }
}

/// The same with a reader that was opened and had no other call. It takes no memory.
pub fn kr_opened<R: Source, W: Sink>(
    lines: &mut SymbolLines,
    source: &mut R,
    sink: &mut W,
) -> Outcome
    requires { Stands symbol_line_at lines.old (opened (2 ^ 40)) }
    ensures { Converted symbol_line_at kr_text
        (seen R.told R.ended R.faults W.held W.faults source.old source.new sink.old sink.new) result }
{
    let mut output = Output::new();
    drive_lines(&mut lines.reader, &mut Answering, &mut output, source, sink)
}

// The answer to each line.
#[derive(Drop)]
struct Answering;

impl LineTask<SymbolParser> for Answering {
    ghost use Rattle.std.specs.Prelude.{⊤};
    ghost use Rattle.pcs_drive.specs.LineTasks.{by_lines};
    ghost use Rattle.pcs_io.specs.LineEnds.{symbol_lines_end};
    ghost use Rattle.pcs_io.specs.SymbolLines.{SymbolParserState};
    ghost use Rattle.pcs_late.specs.Kr.{kr_text};

    ghost text = { by_lines (λ (parser : SymbolParserState). parser.numbers) kr_text };

    ghost ends = { symbol_lines_end };

    ghost Keeps = { λ x parsers. ⊤ };

    fn put_line<W: Sink>(
        &mut self,
        parser: &SymbolParser,
        output: &mut Output,
        sink: &mut W,
    ) -> Result<(), Failed> {
        put_line(output, sink, parser.symbols())
    }
}

// Puts the answer to a line.
fn put_line<W: Sink>(output: &mut Output, sink: &mut W, symbols: &[u16]) -> Result<(), Failed>
    requires { AreSymbols symbols.now }
    ensures ok { OnOk result (Puts (W.held sink.old) output.old (answer_text symbols.now ++ 10 ∷ []) (W.held sink.new) output.new) }
    ensures err { OnErr result (BreaksOffBefore (W.held sink.old) output.old (W.held sink.new)) }
    ensures cause { HasCause (W.faults sink.old) (W.faults sink.new) result }
    ensures grows { Extends (W.held sink.old) (W.held sink.new) result }
{
    output.put(sink, text_of(symbols).as_slice())
}
