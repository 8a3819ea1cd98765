// The aligner of sixteen lanes.
ghost use Rattle.std.specs.Prelude.{◌≡◌, ◌≤◌, ◌<◌, ◌+◌, ◌-◌, ◌*◌, ◌^◌, [], ◌&&◌, is_some, nat_lt, IfOk, IsTrue, true, false, length, slice_index_or};
ghost use Rattle.lane_deskew.specs.declared.Turn.TheVariants.{Waiting};
ghost use Rattle.lane_deskew.specs.Bound.{bound};
ghost use Rattle.lane_deskew.specs.State.{IsHeard, Stands, held_of, room_of};
ghost use Rattle.lane_deskew.specs.Turns.{Hunt, begun, take_turn, after_beat, is_pair, end_by, restart_by, rows_by};

use crate::lanes::LaneLocks;
use crate::orders::{fault_of, greatest_of, order_from};
use crate::pair::read_rows;
use crate::{Order, Turn};
use circular_buffer::HeapCircularBuffer;
use gf1024::Gf;
use std::alloc::{AllocError, Global};
use std::marker::Model;

/// Aligns sixteen lanes and gives their pairs. Contracts see it as an `Aligner`, and say by `Stands` which beats it took, from
/// where it hunts, and how the lanes were aligned.
#[derive(Drop)]
pub struct Deskew {
    skew: u64,
    lanes: LaneLocks,
    beats: u64,
    // The last beats, as many as a pair and the skew can reach back.
    kept: HeapCircularBuffer<[u8; 16]>,
    order: Option<Order>,
    given: u64,
    // The bit at which the next pair ends in the last of the lanes.
    next_end: u64,
    rows: [[Gf; 16]; 68],
    has_pair: bool,
}

impl Model for Deskew {
    ghost use Rattle.std.specs.Prelude.{◌≡◌, ◌≤◌, ◌<◌, ◌+◌, ◌*◌, ◌^◌, All, true, length, IfSome};
    ghost use Rattle.lane_deskew.specs.declared.Order.{Order};
    ghost use Rattle.lane_deskew.specs.State.{Aligner, beats_kept};

    ghost Value = { Aligner };

    ghost view = { λ d. record {
      skew = d.skew;
      lanes = d.lanes;
      beats = d.beats;
      kept = d.kept.items;
      beats_room = d.kept.capacity;
      order = d.order;
      given = d.given;
      next_end = d.next_end;
      rows = d.rows;
      has_pair = d.has_pair;
    } };

    ghost invariant = { λ d. (d.skew < 2 ^ 25) × (1 ≤ d.lanes.period) × (d.beats ≤ 2 ^ 40) × (d.lanes.fed ≤ d.beats) × (d.given ≤ d.beats)
        × (d.next_end < 2 ^ 50 + 680 * d.given) × (d.has_pair ≡ true → 680 ≤ d.next_end)
        × (d.kept.capacity ≡ beats_kept d.skew) × (length d.kept.items ≤ d.kept.capacity)
        × IfSome d.order (λ (o : Order). All (λ n. n < 2 ^ 48) o.places) };
}

impl Deskew {
    /// An aligner that took nothing, for a marker period of so many pairs and this skew limit in bits. It takes all its memory
    /// here.
    pub fn open(alloc: Global, period: u32, skew: u32) -> Result<Deskew, AllocError>
        requires period { (1 ≤ period) × (period ≤ 65536) }
        requires skew { skew < 340 * period }
        ensures stands { IfOk result (λ d. Stands d (begun period skew)) }
        ensures room { IfOk result (λ d. room_of d ≤ bound period skew) }
        ensures beats { IfOk result (λ d. d.beats ≡ 0) }
        ensures pair { IfOk result (λ d. d.has_pair ≡ false) }
    {
        let lanes = LaneLocks::open(alloc, period)?;
        let skew = skew as u64;
        let kept = HeapCircularBuffer::with_capacity(alloc, ((skew + 701) / 8) as usize)?;
        Ok(Deskew {
            skew,
            lanes,
            beats: 0,
            kept,
            order: None,
            given: 0,
            next_end: 0,
            rows: [[Gf::low(0); 16]; 68],
            has_pair: false,
        })
    }

    /// Takes a beat and tells what it brought.
    pub fn take(&mut self, beat: [u8; 16]) -> Turn
        requires { self.old.beats < 2 ^ 40 }
        ensures turn { (h : Hunt) → Stands self.old h → result ≡ take_turn h beat }
        ensures stands { (h : Hunt) → Stands self.old h → Stands self.new (after_beat h beat) }
        ensures beats { self.new.beats ≡ self.old.beats + 1 }
        ensures pair { self.new.has_pair ≡ is_pair result }
        ensures room { room_of self.new ≡ room_of self.old }
    {
        self.kept.push_back(beat);
        self.beats += 1;
        if let Some(order) = &self.order {
            if 8 * self.beats < self.next_end {
                self.has_pair = false;
                return Turn::Waiting;
            }
            read_rows(&mut self.rows, &self.kept, self.beats, order, self.given);
            self.has_pair = true;
            self.given += 1;
            self.next_end += 680;
            return Turn::Pair;
        }
        self.has_pair = false;
        self.lanes.take(&beat);
        if !self.lanes.have_found() {
            return Turn::Hunting;
        }
        self.judge(&beat)
    }

    /// Takes a beat of aligned lanes that completes no pair, so that its turn is `Waiting`, and tells whether it was one. Where it
    /// wasn't, nothing is taken.
    #[inline(always)]
    pub fn wait(&mut self, beat: [u8; 16]) -> bool
        requires { self.old.beats < 2 ^ 40 }
        ensures turn { (h : Hunt) → Stands self.old h → IsTrue result → take_turn h beat ≡ Waiting }
        ensures stands { (h : Hunt) → Stands self.old h → IsTrue result → Stands self.new (after_beat h beat) }
        ensures when { result ≡ (is_some self.old.order && nat_lt (8 * (self.old.beats + 1)) self.old.next_end) }
        ensures none { result ≡ false → self.new ≡ self.old }
        ensures beats { IsTrue result → self.new.beats ≡ self.old.beats + 1 }
        ensures pair { IsTrue result → self.new.has_pair ≡ false }
        ensures room { room_of self.new ≡ room_of self.old }
    {
        match &self.order {
            Some(_) => {}
            None => return false,
        }
        if 8 * (self.beats + 1) >= self.next_end {
            return false;
        }
        self.kept.push_back(beat);
        self.beats += 1;
        self.has_pair = false;
        true
    }

    // The turn of a hunt that took a beat. It isn't inlined where beats of aligned lanes would pay for its arrays.
    #[inline(never)]
    fn judge(&mut self, beat: &[u8; 16]) -> Turn
        requires { self.old.has_pair ≡ false }
        ensures turn { (h : Hunt) → IsHeard self.old h beat.now → result ≡ take_turn h beat.now }
        ensures stands { (h : Hunt) → IsHeard self.old h beat.now → Stands self.new (after_beat h beat.now) }
        ensures beats { self.new.beats ≡ self.old.beats }
        ensures pair { (self.new.has_pair ≡ false) × (is_pair result ≡ false) }
        ensures room { room_of self.new ≡ room_of self.old }
    {
        let Some(founds) = self.lanes.founds() else {
            return Turn::Hunting;
        };
        let order = order_from(&founds, self.lanes.marker_period(), self.skew);
        if let Some(fault) = fault_of(&order, self.skew) {
            self.lanes.restart(order.at + 120, self.beats, beat);
            return Turn::Failed(fault);
        }
        self.next_end = greatest_of(&order.places) + 680;
        self.given = 0;
        self.order = Some(order);
        Turn::Aligned(order)
    }

    /// The rows of the pair that the last beat brought, the lanes ordered by their numbers.
    pub fn pair(&self) -> &[[Gf; 16]; 68]
        requires { self.now.has_pair ≡ true }
        ensures { (h : Hunt) → Stands self.now h → result.now ≡ rows_by h h.order }
    {
        &self.rows
    }

    /// Gives up the alignment after the pair that the last beat brought, and hunts from the greatest end of that pair, which it
    /// answers.
    pub fn restart(&mut self) -> u64
        requires { self.old.has_pair ≡ true }
        ensures place { (h : Hunt) → Stands self.old h → result ≡ end_by h h.order }
        ensures stands { (h : Hunt) → Stands self.old h → Stands self.new (restart_by h h.order) }
        ensures beats { self.new.beats ≡ self.old.beats }
        ensures pair { self.new.has_pair ≡ false }
        ensures room { room_of self.new ≡ room_of self.old }
    {
        let place = self.next_end - 680;
        self.lanes.restart(place, self.beats, &last_of(&self.kept));
        self.order = None;
        self.given = 0;
        self.has_pair = false;
        self.next_end = 0;
        place
    }

    /// How many bits its rings hold, those of its locks among them.
    pub fn held(&self) -> u64
        ensures held { result ≡ held_of self.now }
        ensures within { result ≤ room_of self.now }
        ensures bound { (h : Hunt) → Stands self.now h → result ≤ bound h.heard.period h.skew }
    {
        128 * self.kept.len() as u64 + self.lanes.held()
    }
}

// The last of the kept beats.
fn last_of(kept: &HeapCircularBuffer<[u8; 16]>) -> [u8; 16]
    ensures { 0 < length kept.now.items → result ≡ slice_index_or kept.now.items (length kept.now.items - 1) [] }
{
    match kept.back() {
        Some(beat) => *beat,
        None => [0; 16],
    }
}
