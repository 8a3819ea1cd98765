// The octets of sixteen lanes that grow at paces of their own.
ghost use Rattle.std.specs.Prelude.{◌≡◌, ◌≢◌, ◌+◌, ◌-◌, ◌*◌, ◌<◌, ◌≤◌, ◌^◌, ◌++◌, ◌∷◌, [], false, if◌then◌else◌, bit_or, ℕ, List, IfOk, length, slice_index, slice_index_or, slice_set, replicate, drop};
ghost use Rattle.bit_lists.specs.Bits.{bits};
ghost use Rattle.lane_impair.specs.Holding.{Held, HoldsLane, Grows, is_at, with_row_octet, with_row};

use circular_buffer::HeapCircularBuffer;
use std::alloc::{AllocError, Global};
use std::marker::Model;

/// Rows of an octet for each of sixteen lanes. A lane's bits go into its octets of one row after the
/// other, and octets that no bit has reached are zero. Rows are taken from the front.
#[derive(Drop)]
pub(crate) struct LaneRows {
    rows: HeapCircularBuffer<[u8; 16]>,
    // The number of bits that each lane has had, and of rows that were taken.
    lengths: [u64; 16],
    given: u64,
}

impl Model for LaneRows {
    ghost use Rattle.lane_impair.specs.Holding.{Held, IsHeld};

    ghost Value = { Held };

    ghost view = { λ r. record { rows = r.rows.items; room = r.rows.capacity; lengths = r.lengths; given = r.given } };

    ghost invariant = { λ r. IsHeld r.rows.items r.lengths };
}

impl LaneRows {
    // No rows, with room for some. The lanes begin with as many zero bits as are given.
    pub(crate) fn open(
        alloc: Global,
        room: usize,
        lengths: [u64; 16],
    ) -> Result<LaneRows, AllocError>
        ensures { IfOk result (λ r. r ≡ record { rows = []; room = room; lengths = lengths; given = 0 }) }
    {
        Ok(LaneRows {
            rows: HeapCircularBuffer::with_capacity(alloc, room)?,
            lengths,
            given: 0,
        })
    }

    // How many bits each lane has had.
    #[inline]
    pub(crate) fn lengths(&self) -> &[u64; 16]
        ensures { result.now ≡ self.now.lengths }
    {
        &self.lengths
    }

    // How many rows were taken.
    #[inline]
    pub(crate) fn given(&self) -> u64
        ensures { result ≡ self.now.given }
    {
        self.given
    }

    // Puts a row of zeros behind the others. There is to be room.
    #[inline]
    pub(crate) fn push_row(&mut self)
        ensures rest { self.new ≡ record self.old { rows = self.new.rows } }
        ensures row { length self.old.rows < self.old.room → self.new.rows ≡ self.old.rows ++ replicate 16 0 ∷ [] }
    {
        self.rows.push_back([0; 16]);
    }

    // Takes the first row, which is to be there.
    #[inline]
    pub(crate) fn pop_row(&mut self) -> [u8; 16]
        requires { self.old.given + 1 < 2 ^ 64 }
        ensures row { 0 < length self.old.rows → result ≡ slice_index_or self.old.rows 0 [] }
        ensures rest { self.new ≡ record self.old { rows = drop 1 self.old.rows; given = self.old.given + 1 } }
    {
        self.given += 1;
        match self.rows.pop_front() {
            Some(row) => row,
            None => [0; 16],
        }
    }

    // Puts the low bits of a value behind those of a lane, the lowest first.
    #[inline]
    pub(crate) fn put(&mut self, lane: usize, value: u8, width: u64)
        requires lane { lane < 16 }
        requires fits { value < 2 ^ width }
        requires narrow { width ≤ 8 }
        requires room { slice_index self.old.lengths lane + 8 < 2 ^ 64 }
        ensures lane { (xs : List ℕ) → HoldsLane self.old lane xs → HoldsLane self.new lane (xs ++ bits width value) }
        ensures others { (l : ℕ) (xs : List ℕ) → l ≢ lane → HoldsLane self.old l xs → HoldsLane self.new l xs }
        ensures rows { length self.new.rows ≡ length self.old.rows }
        ensures rest { self.new ≡ record self.old { rows = self.new.rows; lengths = slice_set self.old.lengths lane (slice_index self.old.lengths lane + width) } }
    {
        let length = self.lengths[lane];
        let shift = length % 8;
        let word = (value as u16) << shift;
        self.lengths[lane] = length + width;
        self.set_bits(length / 8, lane, (word % 256) as u8);
        self.set_next_bits(length / 8 + 1, lane, (word >> 8) as u8, shift);
    }

    // The same as `set_bits`, of an octet that is 0 where no bits were shifted into it.
    #[inline]
    fn set_next_bits(&mut self, number: u64, lane: usize, octet: u8, shift: u64)
        requires lane { lane < 16 }
        requires none { shift ≡ 0 → octet ≡ 0 }
        ensures { self.new ≡ record self.old { rows = with_row_octet self.old number lane octet } }
    {
        if shift > 0 {
            self.set_bits(number, lane, octet);
        }
    }

    // Puts an octet behind each lane that has so many whole octets and no bit more.
    #[inline]
    pub(crate) fn put_group(&mut self, octets: &[u8; 16], number: u64)
        requires number { 8 * number < 2 ^ 64 }
        requires room { (l : ℕ) → slice_index self.old.lengths l + 8 < 2 ^ 64 }
        ensures grows { Grows self.old self.new (λ l. if is_at self.old.lengths number l then bits 8 (slice_index octets.now l) else []) }
        ensures others { (l : ℕ) → l < 16 → is_at self.old.lengths number l ≡ false
            → slice_index self.new.lengths l ≡ slice_index self.old.lengths l }
    {
        let row = joined(&self.row(number), octets, &self.lengths, number);
        self.set_row(number, row);
        self.lengths = longer(&self.lengths, number);
    }

    // A row, which is numbered from the first row on.
    #[inline]
    fn row(&self, number: u64) -> [u8; 16]
        ensures { self.now.given ≤ number → number - self.now.given < length self.now.rows
            → result ≡ slice_index_or self.now.rows (number - self.now.given) [] }
    {
        match self.rows.get(number.saturating_sub(self.given) as usize) {
            Some(row) => *row,
            None => [0; 16],
        }
    }

    // Puts a row in the place of one, which is numbered from the first row on. A row that was taken,
    // or isn't there, is left out.
    #[inline]
    fn set_row(&mut self, number: u64, octets: [u8; 16])
        ensures { self.new ≡ record self.old { rows = with_row self.old number octets } }
    {
        if number >= self.given {
            if let Some(row) = self.rows.get_mut((number - self.given) as usize) {
                *row = octets;
            }
        }
    }

    // Sets bits of a lane's octet in a row, which is numbered from the first row on. A row that was
    // taken, or isn't there, is left out.
    #[inline]
    fn set_bits(&mut self, number: u64, lane: usize, octet: u8)
        requires { lane < 16 }
        ensures { self.new ≡ record self.old { rows = with_row_octet self.old number lane octet } }
    {
        if number >= self.given {
            if let Some(row) = self.rows.get_mut((number - self.given) as usize) {
                row[lane] |= octet;
            }
        }
    }
}

// The bits of a row, with those of octets of the lanes that have so many whole octets.
#[inline]
fn joined(row: &[u8; 16], octets: &[u8; 16], lengths: &[u64; 16], number: u64) -> [u8; 16]
    requires { 8 * number < 2 ^ 64 }
    ensures octets { (l : ℕ) → l < 16 → slice_index result l
        ≡ (if is_at lengths.now number l then bit_or (slice_index row.now l) (slice_index octets.now l) else slice_index row.now l) }
    ensures size { length result ≡ 16 }
{
    let mut both = *row;
    for l in 0..16usize {
        if lengths[l] == 8 * number {
            both[l] |= octets[l];
        }
    }
    both
}

// The lengths of lanes, with an octet more for those that have so many whole octets.
#[inline]
fn longer(lengths: &[u64; 16], number: u64) -> [u64; 16]
    requires number { 8 * number < 2 ^ 64 }
    requires room { (l : ℕ) → slice_index lengths.now l + 8 < 2 ^ 64 }
    ensures lengths { (l : ℕ) → l < 16 → slice_index result l
        ≡ (if is_at lengths.now number l then slice_index lengths.now l + 8 else slice_index lengths.now l) }
    ensures size { length result ≡ 16 }
{
    let mut grown = *lengths;
    for l in 0..16usize {
        if lengths[l] == 8 * number {
            grown[l] += 8;
        }
    }
    grown
}
