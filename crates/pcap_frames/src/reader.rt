// The reader of pcap files.
ghost use Rattle.std.specs.Prelude.{◌≡◌, ◌≤◌, ◌⊎◌, true, Ok, [], length, IfOk, IsErrOf, IsSome};
ghost use Rattle.pcs_io.specs.Faults.{Rose};

use crate::PcapFault;
use crate::finding::{Piece, holds_record, read_header, read_record};
use crate::number::Order;
use pcs_io::{InputBuffer, Source};
use std::alloc::{AllocError, Global};
use std::marker::Model;

/// Whether a reader goes on, or answers the end or a fault for ever.
#[derive(Clone, Copy)]
pub enum Standing {
    Going,
    Ended,
    Failed(PcapFault),
}

/// A reader of pcap files. It owns all the memory that it needs.
#[derive(Drop)]
pub struct PcapReader {
    input: InputBuffer,
    piece: Box<Piece>,
    short: bool,
    order: Option<Order>,
    records: u64,
    standing: Standing,
}

impl Model for PcapReader {
    ghost use Rattle.std.specs.Prelude.{◌≡◌, ◌≤◌, ◌<◌, ◌+◌, ◌^◌, length};
    ghost use Rattle.pcap_frames.specs.Histories.{PcapState};

    ghost Value = { PcapState };

    ghost view = { λ s. record { buffer = s.input; piece = s.piece.value.items; short = s.short; order = s.order; records = s.records; standing = s.standing } };

    ghost invariant = { λ s. (s.records + length s.input.unused ≤ s.input.taken) × (s.input.taken ≤ s.input.limit) × (s.input.limit < 2 ^ 64) };
}

impl PcapReader {
    ghost use Rattle.std.specs.Borrow.{sem};
    ghost use Rattle.std.specs.Io.BufRead.{Rests};
    ghost use Rattle.std.specs.Prelude.{ℕ, List, Option, None, Some};
    ghost use Rattle.pcap_frames.specs.contracts.reader.PcapReader.{the_row};
    ghost use Rattle.pcap_frames.specs.declared.number.Order.{Order};
    ghost use Rattle.pcap_frames.specs.Pcap.{is_over, record_at};
    ghost use Rattle.pcap_frames.specs.Finding.{IsReadOpen, IsReadShort};
    ghost use Rattle.pcap_frames.specs.Histories.{History, Stands, HeaderAnswers, Nexts, Calls, Keeps, opened, header_told, FitsFrame, answer_of, content};

    /// A reader that takes at most `limit` octets. Where `short` is set, records of cut frames are
    /// frames.
    pub fn open(alloc: Global, limit: u64, short: bool) -> Result<Self, AllocError>
        ensures stands { IfOk result (λ reader. Stands reader (opened limit short)) }
        ensures unread { IfOk result (λ reader. (reader.order ≡ None) × (reader.standing ≡ Standing.Going)) }
    {
        Ok(PcapReader {
            input: InputBuffer::open(alloc, limit)?,
            piece: Box::new(alloc, Piece::new())?,
            short,
            order: None,
            records: 0,
            standing: Standing::Going,
        })
    }

    /// Reads the header. It is the first call.
    pub fn header<S: Source>(&mut self, source: &mut S) -> Result<(), PcapFault>
        requires unread { self.old.order ≡ None }
        requires going { self.old.standing ≡ Standing.Going }
        ensures answers { (h : History) → Stands self.old h → (got : List ℕ)
            × HeaderAnswers h.limit got (S.told source.old) (S.told source.new) (S.ended source.new) result
            × Stands self.new (header_told h got result) }
        ensures asks { (h : History) → Stands self.old h → IsReadShort [] (S.told source.old) (S.told source.new) }
        ensures order { IfOk result (λ _. IsSome self.new.order) }
        ensures later { S.faults source.old ≤ S.faults source.new }
        ensures read { IsErrOf result PcapFault.Read → Rose (S.faults source.old) (S.faults source.new) }
    {
        match read_header(&mut self.input, &mut self.piece, source) {
            Ok(order) => {
                self.order = Some(order);
                Ok(())
            }
            Err(fault) => {
                self.standing = Standing::Failed(fault);
                Err(fault)
            }
        }
    }

    /// The recorded octets of the next record, or `None` at the end of the input between two
    /// records. After the end or a fault every further call answers the same and reads nothing. The
    /// header was read.
    pub fn next<S: Source>(&mut self, source: &mut S) -> Result<Option<&[u8]>, PcapFault>
        requires { IsSome self.old.order }
        ensures* answers { sem 𝓛 (Rests the_row self.entry (λ new.
            Nexts self.old new (S.told source.old) (S.told source.new) (S.ended source.new) (content result))) }
        ensures fits { FitsFrame result }
        ensures later { S.faults source.old ≤ S.faults source.new }
        ensures read { IsErrOf result PcapFault.Read → (Rose (S.faults source.old) (S.faults source.new)) ⊎ (self.old.standing ≡ Standing.Failed PcapFault.Read) }
    {
        if !self.next_record(source)? {
            return Ok(None);
        }
        Ok(Some(self.piece.as_slice()))
    }

    /// Whether a record is over or refused within the octets that were taken and are not answered, so
    /// that `next` needs no further one. The header was read.
    pub fn holds_record(&self) -> bool
        requires { IsSome self.now.order }
        ensures { (order : Order) → self.now.order ≡ Some order → result ≡ is_over (record_at order self.now.short self.now.buffer.unused) }
    {
        holds_record(self.order.unwrap(), self.short, self.input.unused())
    }

    // Reads the next record, and answers whether there is one.
    fn next_record<S: Source>(&mut self, source: &mut S) -> Result<bool, PcapFault>
        requires { IsSome self.old.order }
        ensures nexts { Nexts self.old self.new (S.told source.old) (S.told source.new) (S.ended source.new) (answer_of result self.new.piece) }
        ensures fits { result ≡ Ok true → length self.new.piece ≤ 16384 }
        ensures later { S.faults source.old ≤ S.faults source.new }
        ensures read { IsErrOf result PcapFault.Read → (Rose (S.faults source.old) (S.faults source.new)) ⊎ (self.old.standing ≡ Standing.Failed PcapFault.Read) }
    {
        self.advance(source)
    }

    // The same, by its state alone.
    fn advance<S: Source>(&mut self, source: &mut S) -> Result<bool, PcapFault>
        requires { IsSome self.old.order }
        ensures calls { (order : Order) → self.old.order ≡ Some order → Calls self.old.standing order self.old self.new (S.told source.old) (S.told source.new) (S.ended source.new) result }
        ensures asks { (order : Order) → self.old.order ≡ Some order → IsReadOpen (record_at order self.old.short) self.old.buffer.unused (S.told source.old) (S.told source.new) }
        ensures keeps { Keeps self.old self.new }
        ensures within { self.new.buffer.taken ≤ self.new.buffer.limit }
        ensures later { S.faults source.old ≤ S.faults source.new }
        ensures read { IsErrOf result PcapFault.Read → (Rose (S.faults source.old) (S.faults source.new)) ⊎ (self.old.standing ≡ Standing.Failed PcapFault.Read) }
    {
        match self.standing {
            Standing::Going => {}
            Standing::Ended => return Ok(false),
            Standing::Failed(fault) => return Err(fault),
        }
        let order = self.order.unwrap();
        match read_record(
            &mut self.input,
            &mut self.piece,
            order,
            self.short,
            self.records,
            source,
        ) {
            Ok(true) => {
                self.records += 1;
                Ok(true)
            }
            Ok(false) => {
                self.standing = Standing::Ended;
                Ok(false)
            }
            Err(fault) => {
                self.standing = Standing::Failed(fault);
                Err(fault)
            }
        }
    }
}
