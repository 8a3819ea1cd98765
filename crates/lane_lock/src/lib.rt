//! The lock of one lane: the least place where a marker matches and matches again a marker period later.
#![tactic(auto)]

mod earliest;
mod kept;
mod look;
mod windows;

ghost use Rattle.std.specs.Prelude.{◌≡◌, ◌≤◌, ◌<◌, ◌*◌, ◌+◌, ◌^◌, [], ℕ, length, IfOk, IfSome};
ghost use Rattle.lane_lock.specs.declared.Found.{Found};
ghost use Rattle.lane_lock.specs.Seen.{Hearing, heard, found_of, Stands};

use circular_buffer::HeapCircularBuffer;
use kept::{first_octets, last_octets};
pub use look::found_next;
use std::alloc::{AllocError, Global};
use std::marker::Model;

/// A place where a marker matches and matches again a marker period later, and the number of that
/// marker.
#[derive(Clone, Copy, Debug, PartialEq, Eq, Drop)]
pub struct Found {
    pub place: u64,
    pub number: u8,
}

/// The lock of one lane. It looks at each window as it comes, and at the one a marker period before
/// where it matches. So it keeps the octets of a marker period and a window. Contracts see it as a
/// `Lock`, and say by `Stands` what it was given.
#[derive(Drop)]
pub struct LaneLock {
    // The marker period in bits.
    period: u64,
    from: u64,
    taken: u64,
    // The last octets, behind fifteen zeros where they are all.
    kept: HeapCircularBuffer<u8>,
    found: Option<Found>,
}

impl Model for LaneLock {
    ghost use Rattle.std.specs.Prelude.{◌≡◌, ◌≤◌, ◌<◌, ◌+◌, ◌*◌, ◌^◌, length, IfSome};
    ghost use Rattle.lane_lock.specs.declared.Found.{Found};
    ghost use Rattle.lane_lock.specs.Seen.{Lock};

    ghost Value = { Lock };

    ghost view = { λ l. record {
      period = l.period;
      from = l.from;
      taken = l.taken;
      kept = l.kept.items;
      room = 8 * l.kept.capacity;
      found = l.found;
    } };

    ghost invariant = { λ l. (l.taken < 2 ^ 44) × (l.from ≤ l.taken) × (1 ≤ l.period) × (l.period ≤ 44564480)
        × (8 * l.kept.capacity ≡ l.period + 120) × (15 ≤ length l.kept.items) × (length l.kept.items ≤ l.kept.capacity)
        × IfSome l.found (λ (f : Found). (f.place < 2 ^ 45) × (f.number < 16)) };
}

impl LaneLock {
    /// A lock that took nothing, for a marker period of so many pairs. It takes all its memory here.
    #[tactic(auto, unfolding(crate::specs::Seen::Stands))]
    pub fn open(alloc: Global, period: u32) -> Result<LaneLock, AllocError>
        requires { (1 ≤ period) × (period ≤ 65536) }
        ensures stands { IfOk result (λ lock. Stands lock (record { period = period; octets = []; from = 0 })) }
        ensures room { IfOk result (λ lock. (lock.period ≡ 680 * period) × (lock.room ≡ 680 * period + 120)) }
        ensures taken { IfOk result (λ lock. lock.taken ≡ 0) }
    {
        let mut kept = HeapCircularBuffer::with_capacity(alloc, 85 * period as usize + 15)?;
        kept.fill_from_slice(&[0; 15]);
        Ok(LaneLock {
            period: 680 * period as u64,
            from: 0,
            taken: 0,
            kept,
            found: None,
        })
    }

    /// Takes an octet of the lane.
    pub fn take(&mut self, octet: u8)
        requires { self.old.taken < 2 ^ 43 }
        ensures stands { (h : Hearing) → Stands self.old h → Stands self.new (heard h octet) }
        ensures taken { self.new.taken ≡ self.old.taken + 8 }
        ensures from { self.new.from ≡ self.old.from }
        ensures same { (self.new.period ≡ self.old.period) × (self.new.room ≡ self.old.room) }
    {
        let octets = last_octets(&self.kept, octet);
        self.found = found_next(
            &octets,
            first_octets(&self.kept),
            self.found,
            self.taken,
            self.from,
            self.period,
        );
        self.kept.push_back(octet);
        self.taken += 8;
    }

    /// The least place from the last restart on where a number matches at it and a period later.
    #[tactic(auto, unfolding(crate::specs::Seen::Stands))]
    pub fn found(&self) -> Option<Found>
        ensures found { (h : Hearing) → Stands self.now h → result ≡ found_of h }
        ensures within { IfSome result (λ (f : Found). (f.place < 2 ^ 45) × (f.number < 16)) }
    {
        self.found
    }

    /// Counts only the places from `from` on.
    pub fn restart(&mut self, from: u64)
        requires later { self.old.from ≤ from }
        requires there { from ≤ self.old.taken }
        requires near { self.old.taken < from + self.old.period }
        ensures stands { (h : Hearing) → Stands self.old h → Stands self.new (record h { from = from }) }
        ensures taken { self.new.taken ≡ self.old.taken }
        ensures from { self.new.from ≡ from }
        ensures same { (self.new.period ≡ self.old.period) × (self.new.room ≡ self.old.room) }
    {
        self.from = from;
        self.found = None;
    }

    /// How many bits it keeps.
    pub fn held(&self) -> u64
        ensures held { result ≡ 8 * length self.now.kept }
        ensures within { result ≤ self.now.room }
        ensures room { self.now.room ≡ self.now.period + 120 }
    {
        8 * self.kept.len() as u64
    }
}
