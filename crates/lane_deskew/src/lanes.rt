// The locks of sixteen lanes.
ghost use Rattle.std.specs.Prelude.{◌≡◌, ◌≤◌, ◌<◌, ◌*◌, ◌+◌, ◌-◌, ◌^◌, [], ◌∷◌, ◌++◌, false, None, ℕ, length, slice_index_or, IfOk, IfSome, All};
ghost use Rattle.circular_buffer.specs.Buffer.{keep_last};
ghost use Rattle.pcs_bits.specs.Captures.{Capture, longer};
ghost use Rattle.lane_lock.specs.declared.Found.{Found};
ghost use Rattle.lane_deskew.specs.Alignments.{locks};
ghost use Rattle.lane_deskew.specs.Lanes.{LanesStand, lanes_held, lanes_room};

use crate::each_lane::{founds_of, have_found, look_at, with_beat};
use crate::near::is_quiet;
use circular_buffer::HeapCircularBuffer;
use lane_lock::Found;
use std::alloc::{AllocError, Global};
use std::marker::Model;

// Sixteen locks that hunt side by side, over one ring of whole beats. They need not have taken the capture from its beginning:
// those of a later hunt begin at the beat with which it begins.
#[derive(Drop)]
pub struct LaneLocks {
    period: u64,
    // What is found in each lane.
    founds: [Option<Found>; 16],
    // The last beats that they took, behind fifteen beats of zeros where these are all.
    kept: HeapCircularBuffer<[u8; 16]>,
    // The last fifteen of these.
    recent: [[u8; 16]; 15],
    // How many beats came before the first one that they took.
    start: u64,
    // The place, behind these, from which they hunt.
    from: u64,
    // How many beats they took.
    fed: u64,
}

impl Model for LaneLocks {
    ghost use Rattle.std.specs.Prelude.{◌≡◌, ◌≤◌, ◌<◌, ◌+◌, ◌*◌, ◌^◌, length};
    ghost use Rattle.lane_deskew.specs.Lanes.{Lanes, AreFound};

    ghost Value = { Lanes };

    ghost view = { λ s. record {
      period = s.period;
      founds = s.founds;
      kept = s.kept.items;
      room = s.kept.capacity;
      recent = s.recent;
      start = s.start;
      from = s.from;
      fed = s.fed;
    } };

    ghost invariant = { λ s. (1 ≤ s.period) × (s.period ≤ 65536) × (s.start ≤ 2 ^ 41) × (s.fed ≤ 2 ^ 41) × (s.from ≤ 8 * s.fed)
        × (s.kept.capacity ≡ 85 * s.period + 15) × (length s.kept.items ≤ s.kept.capacity) × AreFound s.founds };
}

impl LaneLocks {
    // Locks that took nothing.
    pub fn open(alloc: Global, period: u32) -> Result<LaneLocks, AllocError>
        requires { (1 ≤ period) × (period ≤ 65536) }
        ensures stands { IfOk result (λ s. LanesStand s (record { period = period; beats = [] }) 0) }
        ensures room { IfOk result (λ s. lanes_room s ≡ 16 * (680 * period + 120)) }
        ensures fresh { IfOk result (λ s. (s.period ≡ period) × (s.start ≡ 0) × (s.fed ≡ 0)) }
    {
        let mut kept = HeapCircularBuffer::with_capacity(alloc, 85 * period as usize + 15)?;
        kept.fill_from_slice(&[[0; 16]; 15]);
        Ok(LaneLocks {
            period: period as u64,
            founds: [None; 16],
            kept,
            recent: [[0; 16]; 15],
            start: 0,
            from: 0,
            fed: 0,
        })
    }

    // Takes a beat. Almost all beats are quiet.
    pub fn take(&mut self, beat: &[u8; 16])
        requires { self.old.fed < 2 ^ 40 }
        ensures stands { (c : Capture) (from : ℕ) → LanesStand self.old c from → LanesStand self.new (longer c (beat.now ∷ [])) from }
        ensures fed { self.new.fed ≡ self.old.fed + 1 }
        ensures same { (self.new.period ≡ self.old.period) × (self.new.start ≡ self.old.start) }
        ensures room { lanes_room self.new ≡ lanes_room self.old }
    {
        if is_quiet(&self.recent) {
            self.keep(beat);
            return;
        }
        look_at(
            &mut self.founds,
            &self.recent,
            &self.kept,
            beat,
            8 * self.fed,
            self.from,
            680 * self.period,
        );
        self.keep(beat);
    }

    // Keeps a beat.
    #[inline(always)]
    fn keep(&mut self, beat: &[u8; 16])
        requires { self.old.fed < 2 ^ 40 }
        ensures { self.new ≡ record self.old {
          kept = keep_last self.old.room (self.old.kept ++ beat.now ∷ []);
          recent = keep_last 15 (self.old.recent ++ beat.now ∷ []);
          fed = self.old.fed + 1;
        } }
    {
        self.kept.push_back(*beat);
        self.recent = with_beat(&self.recent, beat);
        self.fed += 1;
    }

    // The marker period in bits.
    pub fn marker_period(&self) -> u64
        ensures period { result ≡ 680 * self.now.period }
        ensures within { (1 ≤ result) × (result < 2 ^ 26) }
    {
        680 * self.period
    }

    // Whether all lanes found something.
    pub fn have_found(&self) -> bool
        ensures { (c : Capture) (from : ℕ) → LanesStand self.now c from → result ≡ false → locks c from ≡ None }
    {
        have_found(&self.founds)
    }

    // What all lanes found, or none where a lane found nothing.
    pub fn founds(&self) -> Option<[Found; 16]>
        ensures founds { (c : Capture) (from : ℕ) → LanesStand self.now c from → result ≡ locks c from }
        ensures within { IfSome result (λ fs. All (λ (f : Found). (f.place < 2 ^ 46) × (f.number < 16)) fs) }
    {
        founds_of(&self.founds, self.start)
    }

    // Hunts from a place on that the beats so far hold, but for fewer than eight bits: so of these beats at most the last one
    // counts.
    pub fn restart(&mut self, from: u64, beats: u64, last: &[u8; 16])
        requires { beats ≤ 2 ^ 40 }
        ensures stands { (c : Capture) → length c.beats ≡ beats → (0 < beats → last.now ≡ slice_index_or c.beats (beats - 1) [])
            → self.old.period ≡ c.period → from ≤ 8 * beats → 8 * beats < from + 8 → LanesStand self.new c from }
        ensures fed { self.new.fed ≤ beats }
        ensures same { self.new.period ≡ self.old.period }
        ensures room { lanes_room self.new ≡ lanes_room self.old }
    {
        let start = (from / 8).min(beats);
        self.founds = [None; 16];
        self.kept.clear();
        self.kept.fill_from_slice(&[[0; 16]; 15]);
        self.recent = [[0; 16]; 15];
        self.start = start;
        self.from = 0;
        self.fed = 0;
        if start == beats {
            return;
        }
        self.kept.push_back(*last);
        self.recent = with_beat(&self.recent, last);
        self.from = from % 8;
        self.fed = 1;
    }

    // How many bits are kept.
    pub fn held(&self) -> u64
        ensures held { result ≡ lanes_held self.now }
        ensures within { result ≤ lanes_room self.now }
        ensures bound { result ≤ 16 * (680 * self.now.period + 120) }
        ensures small { result ≤ 2 ^ 30 }
    {
        128 * self.kept.len() as u64
    }
}
