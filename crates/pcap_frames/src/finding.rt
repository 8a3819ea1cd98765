// The header and one record of a pcap file, read from the input.
ghost use Rattle.std.specs.Prelude.{◌≡◌, ◌<◌, ◌≤◌, ◌+◌, ◌-◌, ◌^◌, ℕ, length, IsErrOf, IfOk, MatchResult};
ghost use Rattle.pcs_io.specs.Faults.{HasCause, Rose};
ghost use Rattle.pcap_frames.specs.Pcap.{is_over, order_in, frame_length, record_at};
ghost use Rattle.pcap_frames.specs.Finding.{FindsHeader, FindsRecord, Finds, FailsOpen, IsReadOpen, IsReadShort};

use crate::number::{Order, number, order_of};
use crate::{PcapFault, RecordKind};
use arrayvec::ArrayVec;
use pcs_io::{BadHeader, Failed, Fill, InputBuffer, Source, gather};

const HEADER: usize = 24;

const RECORD_HEADER: usize = 16;

const MAX_FRAME: u32 = 16_384;

/// A header, or the recorded octets of a frame.
pub type Piece = ArrayVec<u8, 16_384>;

/// What reading one record finds.
#[derive(Clone, Copy)]
pub enum Found {
    Record,
    Refuse(RecordKind),
    /// The input ended within the record.
    Cut,
    /// The input ended between two records.
    End,
    Limit,
}

/// Reads the header, and answers the order of its numbers.
pub fn read_header<S: Source>(
    input: &mut InputBuffer,
    piece: &mut Piece,
    source: &mut S,
) -> Result<Order, PcapFault>
    requires taken { input.old.taken ≤ input.old.limit }
    ensures finds { FindsHeader input.old input.new (S.told source.old) (S.told source.new) (S.ended source.new) result }
    ensures asks { IsReadShort input.old.unused (S.told source.old) (S.told source.new) }
    ensures taken { input.new.taken ≤ input.new.limit }
    ensures limit { input.new.limit ≡ input.old.limit }
    ensures unused { (n : ℕ) → n + length input.old.unused ≤ input.old.taken → n + length input.new.unused ≤ input.new.taken }
    ensures later { S.faults source.old ≤ S.faults source.new }
    ensures read { IsErrOf result PcapFault.Read → Rose (S.faults source.old) (S.faults source.new) }
{
    match gather(input, piece, HEADER, source) {
        Ok(Fill::Ready) => match order_in(piece.as_slice()) {
            Ok(order) => Ok(order),
            Err(bad) => Err(PcapFault::BadHeader(bad)),
        },
        Ok(Fill::End) => Err(PcapFault::BadHeader(BadHeader {
            place: piece.len() as u8,
            cut: true,
        })),
        Ok(Fill::Limit) => Err(PcapFault::TooLong),
        Err(_) => Err(PcapFault::Read),
    }
}

// The order that a header tells, or the first field that is wrong.
fn order_in(octets: &[u8]) -> Result<Order, BadHeader>
    requires { 24 ≤ length octets.now }
    ensures { result ≡ order_in octets.now }
{
    let Some(order) = order_of(octets) else {
        return Err(BadHeader {
            place: 0,
            cut: false,
        });
    };
    if number(order, octets, 20) != 1 {
        return Err(BadHeader {
            place: 20,
            cut: false,
        });
    }
    Ok(order)
}

/// Reads the record after these many, with its frame in the piece, and answers whether there is
/// one.
pub fn read_record<S: Source>(
    input: &mut InputBuffer,
    piece: &mut Piece,
    order: Order,
    short: bool,
    records: u64,
    source: &mut S,
) -> Result<bool, PcapFault>
    requires taken { input.old.taken ≤ input.old.limit }
    requires limit { input.old.limit < 2 ^ 64 }
    requires records { records + length input.old.unused ≤ input.old.taken }
    ensures finds { FindsRecord (record_at order short) records input.old input.new (S.told source.old) (S.told source.new) (S.ended source.new) piece.new.items result }
    ensures asks { IsReadOpen (record_at order short) input.old.unused (S.told source.old) (S.told source.new) }
    ensures taken { input.new.taken ≤ input.new.limit }
    ensures later { S.faults source.old ≤ S.faults source.new }
    ensures read { IsErrOf result PcapFault.Read → Rose (S.faults source.old) (S.faults source.new) }
{
    match find_record(input, piece, order, short, source) {
        Ok(Found::Record) => Ok(true),
        Ok(Found::Refuse(kind)) => Err(bad_record(records, kind)),
        Ok(Found::Cut) => Err(bad_record(records, RecordKind::Ended)),
        Ok(Found::End) => Ok(false),
        Ok(Found::Limit) => Err(PcapFault::TooLong),
        Err(_) => Err(PcapFault::Read),
    }
}

// The fault of the record after these many.
fn bad_record(records: u64, kind: RecordKind) -> PcapFault
    requires { records < 2 ^ 64 - 1 }
    ensures { result ≡ PcapFault.BadRecord (records + 1) kind }
{
    PcapFault::BadRecord {
        number: records + 1,
        kind,
    }
}

// Reads one record: its header, and then its recorded octets.
fn find_record<S: Source>(
    input: &mut InputBuffer,
    piece: &mut Piece,
    order: Order,
    short: bool,
    source: &mut S,
) -> Result<Found, Failed>
    requires taken { input.old.taken ≤ input.old.limit }
    ensures finds { MatchResult result
        (Finds (record_at order short) input.old input.new (S.told source.old) (S.told source.new) (S.ended source.new) piece.new.items)
        (λ _. FailsOpen (record_at order short) input.old input.new (S.told source.old) (S.told source.new)) }
    ensures asks { IsReadOpen (record_at order short) input.old.unused (S.told source.old) (S.told source.new) }
    ensures taken { input.new.taken ≤ input.new.limit }
    ensures cause { HasCause (S.faults source.old) (S.faults source.new) result }
{
    match gather(input, piece, RECORD_HEADER, source)? {
        Fill::Ready => {}
        Fill::End if piece.is_empty() => return Ok(Found::End),
        Fill::End => return Ok(Found::Cut),
        Fill::Limit => return Ok(Found::Limit),
    }
    let count = match frame_length(order, short, piece.as_slice()) {
        Ok(count) => count,
        Err(kind) => return Ok(Found::Refuse(kind)),
    };
    match gather(input, piece, count as usize, source)? {
        Fill::Ready => Ok(Found::Record),
        Fill::End => Ok(Found::Cut),
        Fill::Limit => Ok(Found::Limit),
    }
}

// How many octets are recorded behind a record's header, or what is wrong with its lengths.
fn frame_length(order: Order, short: bool, octets: &[u8]) -> Result<u32, RecordKind>
    requires { 16 ≤ length octets.now }
    ensures length { result ≡ frame_length order short octets.now }
    ensures within { IfOk result (λ count. count ≤ 16384) }
{
    let recorded = number(order, octets, 8);
    if recorded > MAX_FRAME {
        return Err(RecordKind::Long);
    }
    if recorded < number(order, octets, 12) && !short {
        return Err(RecordKind::Cut);
    }
    Ok(recorded)
}

/// Whether a record is over or refused within these octets.
pub fn holds_record(order: Order, short: bool, octets: &[u8]) -> bool
    ensures { result ≡ is_over (record_at order short octets.now) }
{
    if octets.len() < RECORD_HEADER {
        return false;
    }
    match frame_length(order, short, octets) {
        Ok(count) => count as usize <= octets.len() - RECORD_HEADER,
        Err(_) => true,
    }
}
