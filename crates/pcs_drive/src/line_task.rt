// What a command makes of lines.
ghost use Rattle.std.specs.Prelude.{ℕ, List, OnOk, OnErr};
ghost use Rattle.pcs_io.specs.Faults.{HasCause};
ghost use Rattle.pcs_io.specs.LineEnds.{EndsAtNewline};
ghost use Rattle.pcs_drive.specs.LineTasks.{TakesLine, PutsLine, BreaksAtLine};
ghost use Rattle.pcs_drive.specs.Writing.{Extends};

use crate::Output;
use pcs_io::{Failed, Parser, Sink};

/// What a command makes of lines. A line is handed over as the parser that has it, whose own method
/// lends it.
pub trait LineTask<P: Parser> {
    /// The text of the lines that these parsers had.
    ghost text: { List P → List ℕ };

    /// It has taken the lines that these parsers had.
    ghost Keeps: { Self → List P → Type 0 };

    /// Takes the line that the parser read last, and puts the text that it brings.
    fn put_line<W: Sink>(
        &mut self,
        parser: &P,
        output: &mut Output,
        sink: &mut W,
    ) -> Result<(), Failed>
        ensures taken { OnOk result (TakesLine Keeps self.old self.new parser.now) }
        ensures ok { OnOk result (PutsLine Keeps text self.old parser.now (W.held sink.old) output.old (W.held sink.new) output.new) }
        ensures err { OnErr result (BreaksAtLine Keeps text self.old parser.now (W.held sink.old) output.old (W.held sink.new)) }
        ensures cause { HasCause (W.faults sink.old) (W.faults sink.new) result }
        ensures grows { Extends (W.held sink.old) (W.held sink.new) result };

    /// No line goes on after a newline.
    ghost ends: { EndsAtNewline P.line_at };
}
