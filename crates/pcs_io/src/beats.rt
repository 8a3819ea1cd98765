// The reader of captures.
ghost use Rattle.std.specs.Prelude.{◌≡◌, ◌≤◌, ◌+◌, ◌⊎◌, ◌%◌, true, ◌++◌, ◌↔◌, ℕ, List, Option, Result, length, IfOk, IsErrOf, IsTrue, IsSome};
ghost use Rattle.pcs_io.specs.Faults.{Rose};
ghost use Rattle.pcs_io.specs.Headers.{IsInRange};
ghost use Rattle.pcs_io.specs.LevelsHeaders.{IsLevelsHeader};
ghost use Rattle.pcs_io.specs.Captures.{refusal_of, is_version2, ReadsPiece, ReadsBeat, FrontReads, LevelsFrontReads};

use crate::beat_parser::BeatParser;
use crate::reader::{Reader, Standing};
use crate::{
    BadHeader, Header, InFault, LevelsHeader, Source, read_header, read_header2, read_levels_header,
};
use std::alloc::{AllocError, Global};
use std::marker::Model;
use thiserror::Error;

/// A beat: an octet for each of the sixteen lanes; or the end of the capture.
#[derive(Clone, Copy, Debug, PartialEq, Eq)]
pub enum BeatIn {
    Beat([u8; 16]),
    /// The input ended, `rest` octets behind its last whole beat.
    End { rest: u8 },
}

/// Why a reader of captures gives no header or no further beat.
#[derive(Clone, Copy, Debug, PartialEq, Eq, Error)]
pub enum CapFault {
    /// A read failed.
    #[error("read fault")]
    Read,
    /// The octets are no header, or the input ended in it.
    #[error("{0}")]
    BadHeader(BadHeader),
    /// The limit was reached, and all whole beats before it were answered.
    #[error("too long")]
    TooLong,
}

/// Whether the header was read.
#[derive(Clone, Copy)]
pub enum Front {
    Unread,
    Refused,
    Read(Header),
    ReadLevels(LevelsHeader),
}

/// A reader of captures and of files of levels: a header, and beats of sixteen octets. It owns all
/// the memory that it needs.
#[derive(Drop)]
pub struct Beats {
    reader: Reader<BeatParser>,
    front: Front,
}

impl Model for Beats {
    ghost use Rattle.std.specs.Prelude.{◌≡◌};
    ghost use Rattle.pcs_io.specs.Captures.{BeatsState};
    ghost use Rattle.pcs_io.specs.declared.beats.Front.TheVariants.{Unread};
    ghost use Rattle.pcs_io.specs.declared.reader.Standing.TheVariants.{Going};

    ghost Value = { BeatsState };

    ghost view = { λ s. record { reader = s.reader; front = s.front } };

    ghost invariant = { λ s. s.front ≡ Unread → s.reader.standing ≡ Going };
}

impl Beats {
    ghost use Rattle.pcs_io.specs.Captures.{History, Stands, Tells, TellsBy, HeaderAnswers, HeaderAnswersBy, IsReadShort, IsReadAfterBy, IsNearerEnd, Going, Passes, PassesBy, opened, header_told, header_read, whole_front, header_at, levels_header_at};
    ghost use Rattle.pcs_io.specs.Histories.{octets_ahead};
    ghost use Rattle.pcs_io.specs.declared.header.Header.{Header};
    ghost use Rattle.pcs_io.specs.declared.levels_header.LevelsHeader.{LevelsHeader};

    /// A reader that takes at most `limit` octets.
    pub fn open(alloc: Global, limit: u64) -> Result<Self, AllocError>
        ensures stands { IfOk result (λ beats. Stands beats (opened limit)) }
        ensures unread { IfOk result (λ beats. beats.front ≡ Front.Unread) }
    {
        Ok(Beats {
            reader: Reader::open(alloc, limit, BeatParser::new())?,
            front: Front::Unread,
        })
    }

    /// Reads the header: sixteen octets, and sixteen more behind the magic and the version 2. It
    /// is the first call.
    pub fn header<S: Source>(&mut self, source: &mut S) -> Result<Header, CapFault>
        requires { self.old.front ≡ Front.Unread }
        ensures answers { (h : History) → Stands self.old h → (got : List ℕ)
            × HeaderAnswers h.limit got (S.told source.old) (S.told source.new) (S.ended source.new) result
            × Stands self.new (header_told h got result) }
        ensures asks { (h : History) → Stands self.old h → IsReadShort header_at (S.told source.old) (S.told source.new) }
        ensures front { IfOk result (λ header. self.new.front ≡ Front.Read header) }
        ensures range { IfOk result IsInRange }
        ensures ahead { IfOk result (λ _. octets_ahead self.new.reader ≤ self.new.reader.buffer.limit) }
        ensures waits { IfOk result (λ _. length self.new.reader.buffer.unused ≤ 65536) }
        ensures later { S.faults source.old ≤ S.faults source.new }
        ensures read { IsErrOf result CapFault.Read → Rose (S.faults source.old) (S.faults source.new) }
    {
        self.front = Front::Refused;
        let header = read_front(&mut self.reader, source)?;
        self.reader.stays_within();
        self.front = Front::Read(header);
        Ok(header)
    }

    /// Reads the header of a file of levels: thirty-two octets. It is the first call, in place of
    /// `header`.
    pub fn levels_header<S: Source>(&mut self, source: &mut S) -> Result<LevelsHeader, CapFault>
        requires { self.old.front ≡ Front.Unread }
        ensures answers { (h : History) → Stands self.old h → (got : List ℕ)
            × HeaderAnswersBy levels_header_at h.limit got (S.told source.old) (S.told source.new) (S.ended source.new) result
            × Stands self.new (header_told h got result) }
        ensures asks { (h : History) → Stands self.old h → IsReadShort levels_header_at (S.told source.old) (S.told source.new) }
        ensures front { IfOk result (λ header. self.new.front ≡ Front.ReadLevels header) }
        ensures range { IfOk result IsLevelsHeader }
        ensures ahead { IfOk result (λ _. octets_ahead self.new.reader ≤ self.new.reader.buffer.limit) }
        ensures waits { IfOk result (λ _. length self.new.reader.buffer.unused ≤ 65536) }
        ensures later { S.faults source.old ≤ S.faults source.new }
        ensures read { IsErrOf result CapFault.Read → Rose (S.faults source.old) (S.faults source.new) }
    {
        self.front = Front::Refused;
        let header = read_levels_front(&mut self.reader, source)?;
        self.reader.stays_within();
        self.front = Front::ReadLevels(header);
        Ok(header)
    }

    /// The next beat, or the end of the input. After the end or a fault every further call answers
    /// the same and reads nothing. The header was read.
    pub fn next<S: Source>(&mut self, source: &mut S) -> Result<BeatIn, CapFault>
        requires { IsSome (header_read self.old.front) }
        ensures answers { (h : History) (header : Header) → Stands self.old h → self.old.front ≡ Front.Read header
            → Tells h.course h header self.old self.new (S.told source.old) (S.told source.new) (S.ended source.new) result }
        ensures levels { (h : History) (header : LevelsHeader) → Stands self.old h → self.old.front ≡ Front.ReadLevels header
            → TellsBy levels_header_at h.course h header self.old self.new (S.told source.old) (S.told source.new) (S.ended source.new) result }
        ensures asks { (h : History) (header : Header) → Stands self.old h → self.old.front ≡ Front.Read header → h.course ≡ Going
            → IsReadAfterBy header_at h header (S.told source.old) (S.told source.new) }
        ensures asks_levels { (h : History) (header : LevelsHeader) → Stands self.old h → self.old.front ≡ Front.ReadLevels header → h.course ≡ Going
            → IsReadAfterBy levels_header_at h header (S.told source.old) (S.told source.new) }
        ensures front { self.new.front ≡ self.old.front }
        ensures nearer { IsNearerEnd self.old self.new result }
        ensures later { S.faults source.old ≤ S.faults source.new }
        ensures read { IsErrOf result CapFault.Read → (Rose (S.faults source.old) (S.faults source.new)) ⊎ (self.old.reader.standing ≡ Standing.Failed InFault.Read) }
    {
        read_beat(&mut self.reader, source)
    }

    /// The whole beats among the octets that were taken and are not answered, one behind the other.
    pub fn held(&self) -> &[u8]
        ensures octets { result.now ≡ whole_front self.now.reader.buffer.unused }
        ensures within { length result.now ≤ 65536 }
    {
        let unused = self.reader.unused();
        &unused[..unused.len() / 16 * 16]
    }

    /// Answers all the beats that `held` lends, at once. The header was read, and neither the end
    /// nor a fault was answered.
    pub fn pass(&mut self)
        ensures passes { (h : History) (header : Header) → Stands self.old h → self.old.front ≡ Front.Read header → h.course ≡ Going
            → Passes self.old.reader.buffer.unused h header self.new }
        ensures levels { (h : History) (header : LevelsHeader) → Stands self.old h → self.old.front ≡ Front.ReadLevels header → h.course ≡ Going
            → PassesBy levels_header_at self.old.reader.buffer.unused h header self.new }
        ensures front { self.new.front ≡ self.old.front }
        ensures nearer { octets_ahead self.new.reader + length (whole_front self.old.reader.buffer.unused) ≡ octets_ahead self.old.reader }
    {
        let count = self.reader.unused().len() / 16;
        self.reader.pass(16 * count, count as u64);
    }

    /// Whether a whole beat stands among the octets that were taken and are not answered, so that
    /// `next` needs no further one.
    pub fn holds_beat(&self) -> bool
        ensures { IsTrue result ↔ (16 ≤ length self.now.reader.buffer.unused) }
    {
        self.reader.holds(16)
    }
}

// Reads the header: one piece, and a second one behind the magic and the version 2.
fn read_front<S: Source>(
    reader: &mut Reader<BeatParser>,
    source: &mut S,
) -> Result<Header, CapFault>
    requires { reader.old.standing ≡ Standing.Going }
    ensures range { IfOk result IsInRange }
    ensures answers { FrontReads reader.old reader.new (S.told source.old) (S.told source.new) (S.ended source.new) result }
    ensures later { S.faults source.old ≤ S.faults source.new }
    ensures read { IsErrOf result CapFault.Read → Rose (S.faults source.old) (S.faults source.new) }
{
    let front = read_piece(reader, source)?;
    if !is_version2(&front) {
        return settle(read_header(&front));
    }
    let behind = read_piece(reader, source)?;
    settle(read_header2(&joined(&front, &behind)))
}

// Reads the header of a file of levels: two pieces.
fn read_levels_front<S: Source>(
    reader: &mut Reader<BeatParser>,
    source: &mut S,
) -> Result<LevelsHeader, CapFault>
    requires { reader.old.standing ≡ Standing.Going }
    ensures range { IfOk result IsLevelsHeader }
    ensures answers { LevelsFrontReads reader.old reader.new (S.told source.old) (S.told source.new) (S.ended source.new) result }
    ensures later { S.faults source.old ≤ S.faults source.new }
    ensures read { IsErrOf result CapFault.Read → Rose (S.faults source.old) (S.faults source.new) }
{
    let front = read_piece(reader, source)?;
    let behind = read_piece(reader, source)?;
    match read_levels_header(&joined(&front, &behind)) {
        Ok(header) => Ok(header),
        Err(bad) => Err(CapFault::BadHeader(bad)),
    }
}

// Whether the octets begin with the magic and the version 2.
fn is_version2(octets: &[u8; 16]) -> bool
    ensures { result ≡ is_version2 octets.now }
{
    &octets[..5] == b"P4LC\x02".as_slice()
}

fn joined(front: &[u8; 16], behind: &[u8; 16]) -> [u8; 32]
    ensures { result ≡ front.now ++ behind.now }
{
    let mut octets = [0; 32];
    octets[..16].copy_from_slice(front);
    octets[16..].copy_from_slice(behind);
    octets
}

fn settle(header: Result<Header, BadHeader>) -> Result<Header, CapFault>
    requires { IfOk header IsInRange }
    ensures refusal { result ≡ refusal_of header }
    ensures range { IfOk result IsInRange }
{
    match header {
        Ok(header) => Ok(header),
        Err(bad) => Err(CapFault::BadHeader(bad)),
    }
}

// The fault of a header that ends after so many octets, of which it would have 32 at most.
fn cut_after(taken: u64) -> CapFault
    ensures { result ≡ CapFault.BadHeader (record { place = taken % 32; cut = true }) }
{
    CapFault::BadHeader(BadHeader {
        place: (taken % 32) as u8,
        cut: true,
    })
}

// Reads sixteen octets of the header.
fn read_piece<S: Source>(
    reader: &mut Reader<BeatParser>,
    source: &mut S,
) -> Result<[u8; 16], CapFault>
    ensures answers { ReadsPiece reader.old reader.new (S.told source.old) (S.told source.new) (S.ended source.new) result }
    ensures later { S.faults source.old ≤ S.faults source.new }
    ensures going { IfOk result (λ _. reader.new.standing ≡ Standing.Going) }
    ensures read { IsErrOf result CapFault.Read → (Rose (S.faults source.old) (S.faults source.new)) ⊎ (reader.old.standing ≡ Standing.Failed InFault.Read) }
{
    match reader.next(source) {
        Ok(true) => Ok(reader.parser().beat()),
        Ok(false) => Err(cut_after(reader.taken())),
        Err(InFault::BadLine { .. }) => Err(cut_after(reader.taken())),
        Err(InFault::Read) => Err(CapFault::Read),
        Err(InFault::TooLong) => Err(CapFault::TooLong),
    }
}

// Reads a beat.
fn read_beat<S: Source>(reader: &mut Reader<BeatParser>, source: &mut S) -> Result<BeatIn, CapFault>
    ensures answers { ReadsBeat reader.old reader.new (S.told source.old) (S.told source.new) (S.ended source.new) result }
    ensures later { S.faults source.old ≤ S.faults source.new }
    ensures read { IsErrOf result CapFault.Read → (Rose (S.faults source.old) (S.faults source.new)) ⊎ (reader.old.standing ≡ Standing.Failed InFault.Read) }
{
    match reader.next(source) {
        Ok(true) => Ok(BeatIn::Beat(reader.parser().beat())),
        Ok(false) => Ok(BeatIn::End { rest: 0 }),
        Err(InFault::BadLine { .. }) => Ok(BeatIn::End {
            rest: (reader.taken() % 16) as u8,
        }),
        Err(InFault::Read) => Err(CapFault::Read),
        Err(InFault::TooLong) => Err(CapFault::TooLong),
    }
}
