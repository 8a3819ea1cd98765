// The reader of lines, for any grammar.
ghost use Rattle.std.specs.Prelude.{◌≡◌, ◌<◌, ◌≤◌, ◌+◌, ◌-◌, ◌^◌, ◌⊎◌, length, drop, true, false, IfOk, IsErrOf, IsTrue, Contains, ◌↔◌, MatchResult, Ok};
ghost use Rattle.pcs_io.specs.Faults.{HasCause, Rose};
ghost use Rattle.pcs_io.specs.Reading.{Finds, FailsOpen, IsReadOpen, Stepped};
ghost use Rattle.pcs_io.specs.Advancing.{FindsLine};

use crate::input_buffer::{Fill, InputBuffer};
use crate::parser::{Parser, Step};
use crate::{Failed, InFault, Kind, Source};
use memchr::memchr;
use std::alloc::{AllocError, Global};
use std::marker::Model;

/// Whether a reader goes on, or answers the end or a fault for ever.
#[derive(Clone, Copy)]
pub enum Standing {
    Going,
    Ended,
    Failed(InFault),
}

/// A reader of the lines of a grammar.
#[derive(Drop)]
pub struct Reader<P: Parser + Drop> {
    input: InputBuffer,
    parser: P,
    lines: u64,
    standing: Standing,
}

impl<P: Parser + Drop> Model for Reader<P> {
    ghost use Rattle.std.specs.Prelude.{◌≡◌, ◌≤◌, ◌<◌, ◌^◌, ◌+◌, length};
    ghost use Rattle.pcs_io.specs.Histories.{ReaderState};

    ghost Value = { ReaderState P };

    ghost view = { λ s. record { buffer = s.input; parser = s.parser; lines = s.lines; standing = s.standing } };

    ghost invariant = { λ s. (s.lines + length s.input.unused ≤ s.input.taken) × (s.input.taken ≤ s.input.limit) × (s.input.limit < 2 ^ 64) };
}

impl<P: Parser + Drop> Reader<P> {
    ghost use Rattle.pcs_io.specs.Histories.{ReaderState, Stands, Nexts, answer_of, opened, octets_ahead};
    ghost use Rattle.pcs_io.specs.Advancing.{Calls};

    pub fn open(alloc: Global, limit: u64, parser: P) -> Result<Self, AllocError>
        ensures { IfOk result (λ reader. Stands P.line_at reader (opened limit)) }
    {
        Ok(Reader {
            input: InputBuffer::open(alloc, limit)?,
            parser,
            lines: 0,
            standing: Standing::Going,
        })
    }

    /// The parser, which has the line that was read last.
    #[inline]
    pub fn parser(&self) -> &P
        ensures { result.now ≡ self.now.parser }
    {
        &self.parser
    }

    /// Whether a newline stands among the octets that were taken and are not answered.
    pub fn holds_line(&self) -> bool
        ensures { IsTrue result ↔ Contains self.now.buffer.unused 10 }
    {
        memchr(b'\n', self.input.unused()).is_some()
    }

    /// Whether so many octets were taken and are not answered.
    pub fn holds(&self, count: usize) -> bool
        ensures { IsTrue result ↔ (count ≤ length self.now.buffer.unused) }
    {
        count <= self.input.unused().len()
    }

    /// The octets that were taken and are not answered.
    pub fn unused(&self) -> &[u8]
        ensures octets { result.now ≡ self.now.buffer.unused }
        ensures within { length result.now ≤ 65536 }
    {
        self.input.unused()
    }

    /// What was taken and what may still be answered is no more than the limit, and what waits fits
    /// the buffer.
    #[inline]
    pub fn stays_within(&self)
        ensures taken { self.now.buffer.taken ≤ self.now.buffer.limit }
        ensures limit { octets_ahead self.now ≤ self.now.buffer.limit }
        ensures buffer { length self.now.buffer.unused ≤ 65536 }
    {
        let _unused = self.input.unused();
    }

    /// Answers the first octets at once, as so many lines.
    pub fn pass(&mut self, octets: usize, lines: u64)
        requires within { octets ≤ length self.old.buffer.unused }
        requires lines { lines ≤ octets }
        ensures { self.new ≡ record self.old {
          buffer = record self.old.buffer { unused = drop octets self.old.buffer.unused };
          lines = self.old.lines + lines;
        } }
    {
        self.input.advance(octets);
        self.lines += lines;
    }

    /// How many octets were taken.
    pub fn taken(&self) -> u64
        ensures { result ≡ self.now.buffer.taken }
    {
        self.input.taken()
    }

    /// How many lines were answered.
    pub fn answered(&self) -> u64
        ensures { result ≡ self.now.lines }
    {
        self.lines
    }

    /// Reads the next line, and answers whether there is one. It takes no memory.
    pub fn next<S: Source>(&mut self, source: &mut S) -> Result<bool, InFault>
        ensures nexts { Nexts P.line_at self.old self.new (S.told source.old) (S.told source.new) (S.ended source.new) (answer_of result (P.line self.new.parser)) }
        ensures going { result ≡ Ok true → self.new.standing ≡ Standing.Going }
        ensures later { S.faults source.old ≤ S.faults source.new }
        ensures read { IsErrOf result InFault.Read → (Rose (S.faults source.old) (S.faults source.new)) ⊎ (self.old.standing ≡ Standing.Failed InFault.Read) }
    {
        let answer = self.advance(source);
        self.stays_within();
        answer
    }

    // The same, by its state alone.
    fn advance<S: Source>(&mut self, source: &mut S) -> Result<bool, InFault>
        ensures calls { Calls P.line_at self.old.standing self.old self.new (S.told source.old) (S.told source.new) (S.ended source.new) (P.line self.new.parser) result }
        ensures asks { IsReadOpen P.line_at self.old.buffer.unused (S.told source.old) (S.told source.new) }
        ensures later { S.faults source.old ≤ S.faults source.new }
        ensures read { IsErrOf result InFault.Read → (Rose (S.faults source.old) (S.faults source.new)) ⊎ (self.old.standing ≡ Standing.Failed InFault.Read) }
    {
        match self.standing {
            Standing::Going => {}
            Standing::Ended => return Ok(false),
            Standing::Failed(fault) => return Err(fault),
        }
        match next_line(&mut self.input, &mut self.parser, self.lines, source) {
            Ok(true) => {
                self.lines += 1;
                Ok(true)
            }
            Ok(false) => {
                self.standing = Standing::Ended;
                Ok(false)
            }
            Err(fault) => {
                self.standing = Standing::Failed(fault);
                Err(fault)
            }
        }
    }
}

// Reads the line after these many: at once where it is whole in the buffer.
fn next_line<P: Parser, S: Source>(
    input: &mut InputBuffer,
    parser: &mut P,
    lines: u64,
    source: &mut S,
) -> Result<bool, InFault>
    requires taken { input.old.taken ≤ input.old.limit }
    requires limit { input.old.limit < 2 ^ 64 }
    requires lines { lines + length input.old.unused ≤ input.old.taken }
    ensures answers { FindsLine P.line_at lines input.old input.new (S.told source.old) (S.told source.new) (S.ended source.new) (P.line parser.new) result }
    ensures asks { IsReadOpen P.line_at input.old.unused (S.told source.old) (S.told source.new) }
    ensures taken { input.new.taken ≤ input.new.limit }
    ensures later { S.faults source.old ≤ S.faults source.new }
    ensures read { IsErrOf result InFault.Read → Rose (S.faults source.old) (S.faults source.new) }
{
    if let Some(used) = parser.quick(input.unused()) {
        input.advance(used);
        return Ok(true);
    }
    match read_line(input, parser, source) {
        Ok(Found::Whole) => Ok(true),
        Ok(Found::Refuse(kind)) => Err(bad_line(lines, kind)),
        Ok(Found::Cut) => Err(bad_line(lines, Kind::NoEnd)),
        Ok(Found::End) => Ok(false),
        Ok(Found::Limit) => Err(InFault::TooLong),
        Err(_) => Err(InFault::Read),
    }
}

// The fault of the line after these many.
fn bad_line(lines: u64, kind: Kind) -> InFault
    requires { lines < 2 ^ 64 - 1 }
    ensures { result ≡ InFault.BadLine (lines + 1) kind }
{
    InFault::BadLine {
        number: lines + 1,
        kind,
    }
}

/// What reading one line finds.
#[derive(Clone, Copy)]
pub enum Found {
    Whole,
    Refuse(Kind),
    /// The input ended within the line.
    Cut,
    /// The input ended between two lines.
    End,
    Limit,
}

// Reads one line.
fn read_line<P: Parser, S: Source>(
    input: &mut InputBuffer,
    parser: &mut P,
    source: &mut S,
) -> Result<Found, Failed>
    requires taken { input.old.taken ≤ input.old.limit }
    requires few { length input.old.unused ≤ 65536 }
    ensures finds { MatchResult result
        (Finds P.line_at input.old input.new (S.told source.old) (S.told source.new) (S.ended source.new) (P.line parser.new))
        (λ _. FailsOpen P.line_at input.old input.new (S.told source.old) (S.told source.new)) }
    ensures asks { IsReadOpen P.line_at input.old.unused (S.told source.old) (S.told source.new) }
    ensures taken { input.new.taken ≤ input.new.limit }
    ensures cause { HasCause (S.faults source.old) (S.faults source.new) result }
{
    parser.restart();
    let mut begun = false;
    loop {
        match input.fill(source)? {
            Fill::Ready => match take_ready(input, parser) {
                Step::More => begun = true,
                Step::Whole => return Ok(Found::Whole),
                Step::Refuse(kind) => return Ok(Found::Refuse(kind)),
            },
            Fill::End if begun => return Ok(Found::Cut),
            Fill::End => return Ok(Found::End),
            Fill::Limit => return Ok(Found::Limit),
        }
    }
}

// Takes octets that are ready.
#[inline]
fn take_ready<P: Parser>(input: &mut InputBuffer, parser: &mut P) -> Step
    requires { 0 < length input.old.unused }
    ensures stepped { Stepped input.old input.new (P.ahead parser.old) (P.ahead parser.new) (P.line parser.new) result }
{
    let taken = parser.take(input.unused());
    input.advance(taken.used);
    taken.step
}
