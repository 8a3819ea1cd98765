// The reader of symbol lines.
ghost use Rattle.std.specs.Prelude.{◌≡◌, ◌≤◌, ◌⊎◌, IfOk, IsErrOf, IsTrue, Contains, ◌↔◌};
ghost use Rattle.pcs_io.specs.Faults.{Rose};

use crate::reader::{Reader, Standing};
use crate::symbol_parser::SymbolParser;
use crate::{InFault, Source};
use std::alloc::{AllocError, Global};
use std::marker::Model;

/// The symbols of a line, 514 or 528 numbers below 1024, in the order of the line.
#[derive(Clone, Copy, Debug)]
pub struct SymbolLine<'a> {
    pub symbols: &'a [u16],
}

/// A reader of symbol lines: 514 or 528 symbols, each three hexadecimal digits of either case, and
/// a newline. It owns all the memory that it needs.
#[derive(Drop)]
pub struct SymbolLines {
    pub reader: Reader<SymbolParser>,
}

impl Model for SymbolLines {
    ghost use Rattle.pcs_io.specs.Histories.{ReaderState};
    ghost use Rattle.pcs_io.specs.SymbolLines.{SymbolParserState};

    ghost Value = { ReaderState SymbolParserState };

    ghost view = { λ s. s.reader };
}

impl SymbolLines {
    ghost use Rattle.std.specs.Borrow.{sem};
    ghost use Rattle.std.specs.Io.BufRead.{Rests};
    ghost use Rattle.pcs_io.specs.contracts.symbol_lines.SymbolLines.{the_row};
    ghost use Rattle.pcs_io.specs.SymbolLines.{symbol_line_at};
    ghost use Rattle.pcs_io.specs.SymbolAnswers.{content, FitsSymbols};
    ghost use Rattle.pcs_io.specs.Histories.{Nexts, Stands, opened};

    /// A reader that takes at most `limit` octets.
    pub fn open(alloc: Global, limit: u64) -> Result<Self, AllocError>
        ensures { IfOk result (λ lines. Stands symbol_line_at lines (opened limit)) }
    {
        Ok(SymbolLines {
            reader: Reader::open(alloc, limit, SymbolParser::open(alloc)?)?,
        })
    }

    /// The next line, or `None` at the end of the input between two lines. After the end or a
    /// fault every further call answers the same and reads nothing.
    pub fn next<S: Source>(&mut self, source: &mut S) -> Result<Option<SymbolLine<'_>>, InFault>
        ensures* answers { sem 𝓛 (Rests the_row self.entry (λ new.
            Nexts symbol_line_at self.old new (S.told source.old) (S.told source.new) (S.ended source.new) (content result))) }
        ensures fits { FitsSymbols result }
        ensures later { S.faults source.old ≤ S.faults source.new }
        ensures read { IsErrOf result InFault.Read → (Rose (S.faults source.old) (S.faults source.new)) ⊎ (self.old.standing ≡ Standing.Failed InFault.Read) }
    {
        if !self.reader.next(source)? {
            return Ok(None);
        }
        Ok(Some(SymbolLine {
            symbols: self.reader.parser().symbols(),
        }))
    }

    /// Whether a newline stands among the octets that were taken and are not answered, so that
    /// `next` needs no further one.
    pub fn holds_line(&self) -> bool
        ensures { IsTrue result ↔ Contains self.now.buffer.unused 10 }
    {
        self.reader.holds_line()
    }
}
