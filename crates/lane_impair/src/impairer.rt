// Beats impaired one after the other.
ghost use Rattle.std.specs.Prelude.{◌≡◌, ◌+◌, ◌<◌, ◌≤◌, ◌^◌, true, false, ℕ, List, IfOk, IsSome, IfNone, length, drop, slice_index};
ghost use Rattle.lane_impair.specs.Items.{AreItems};
ghost use Rattle.lane_impair.specs.Histories.{Impairing, opened, after_take, after_finish, after_next, next_answer};
ghost use Rattle.lane_impair.specs.Standing.{State, Stands, SameRoom};
ghost use Rattle.lane_impair.specs.Holding.{row_octet};

use crate::growing::put_beat;
use crate::item::Item;
use crate::lane_rows::LaneRows;
use crate::noise::{NoiseWords, add_noise};
use crate::opening::{drops_of, least_octets, most_octets, noise_of, order_of, skews_of};
use crate::spans::next_busy;
use std::alloc::{AllocError, Global};
use std::marker::Model;

/// Impairs a capture, one beat after the other. `next` is called until it answers `None`, after
/// `open` and after each `take`; after `finish` it gives what is left.
///
/// Contracts see an impairer as what it holds, and say by `Stands` with which items it was opened,
/// which beats it has taken, how many it has given, and whether `finish` was called.
#[derive(Drop)]
pub struct Impairer {
    items: Vec<Item>,
    // The input lane that each output lane carries.
    order: [u8; 16],
    noise: Option<NoiseWords>,
    // The beats that weren't given, before the order.
    rows: LaneRows,
    taken: u64,
    // Up to this beat no item stands at a place of a beat that wasn't taken.
    quiet: u64,
    // How many beats can be given, those given among them.
    ready: u64,
    finished: bool,
    // Whether `next` answered `None` since the last `take`.
    drained: bool,
}

impl Model for Impairer {
    ghost use Rattle.std.specs.Prelude.{vec_capacity};
    ghost use Rattle.lane_impair.specs.Standing.{State, IsImpairer};

    ghost Value = { State };

    ghost view = { λ s. record {
      items = s.items.items;
      item_room = vec_capacity s.items;
      order = s.order;
      noise = s.noise;
      rows = s.rows;
      taken = s.taken;
      quiet = s.quiet;
      ready = s.ready;
      finished = s.finished;
      drained = s.drained;
    } };

    ghost invariant = { λ s. IsImpairer s.items.items s.order s.rows s.taken s.quiet };
}

impl Impairer {
    /// An impairer that has taken no beat. It reserves all that it needs, and no later call takes
    /// memory.
    ///
    /// # Errors
    ///
    /// `AllocError` where there is no memory.
    pub fn open(alloc: Global, items: &[Item]) -> Result<Self, AllocError>
        requires { AreItems items.now }
        ensures stands { IfOk result (λ impairer. Stands impairer (opened items.now)) }
        ensures fresh { IfOk result (λ impairer. (impairer.taken ≡ 0) × (impairer.finished ≡ false) × (impairer.drained ≡ false)) }
    {
        let skews = skews_of(items);
        let first = most_octets(&skews);
        let lag = most_octets(&drops_of(items));
        let mut rows = LaneRows::open(alloc, (first + lag + 1) as usize, skews)?;
        for _ in 0..first {
            rows.push_row();
        }
        let mut own = Vec::with_capacity(alloc, items.len())?;
        own.extend_from_slice(items)?;
        let order = order_of(items);
        let ready = least_octets(rows.lengths(), &order);
        Ok(Impairer {
            items: own,
            order,
            noise: noise_of(items),
            rows,
            taken: 0,
            quiet: next_busy(items, 0),
            ready,
            finished: false,
            drained: false,
        })
    }

    /// Takes the next beat. `next` has answered `None` since the beat before.
    pub fn take(&mut self, beat: [u8; 16])
        requires drained { self.old.drained ≡ true }
        requires open { self.old.finished ≡ false }
        requires few { self.old.taken < 2 ^ 40 }
        ensures stands { (h : Impairing) → Stands self.old h → Stands self.new (after_take h beat) }
        ensures state { (self.new.taken ≡ self.old.taken + 1) × (self.new.finished ≡ false) × (self.new.drained ≡ false) }
        ensures room { SameRoom self.old self.new }
    {
        let mut octets = beat;
        add_noise(&mut self.noise, &mut octets);
        self.rows.push_row();
        self.quiet = put_beat(&mut self.rows, &self.items, self.quiet, self.taken, octets);
        self.taken += 1;
        self.ready = least_octets(self.rows.lengths(), &self.order);
        self.drained = false;
    }

    /// Ends the beats. The lanes are then filled with zeros up to the longest of them, in whole
    /// beats.
    pub fn finish(&mut self)
        requires drained { self.old.drained ≡ true }
        requires open { self.old.finished ≡ false }
        ensures stands { (h : Impairing) → Stands self.old h → Stands self.new (after_finish h) }
        ensures state { (self.new.taken ≡ self.old.taken) × (self.new.finished ≡ true) }
        ensures room { SameRoom self.old self.new }
    {
        self.ready = most_octets(self.rows.lengths());
        self.finished = true;
    }

    /// The next beat that is whole, or `None` where there is none.
    #[inline]
    pub fn next(&mut self) -> Option<[u8; 16]>
        ensures answer { (h : Impairing) → Stands self.old h → result ≡ next_answer h }
        ensures stands { (h : Impairing) → Stands self.old h → Stands self.new (after_next h) }
        ensures state { (self.new.taken ≡ self.old.taken) × (self.new.finished ≡ self.old.finished) }
        ensures drained { IfNone result (self.new.drained ≡ true) }
        ensures fewer { IsSome result → (self.old.rows.given < self.new.rows.given) × (self.new.rows.given ≤ self.new.ready) × (self.new.ready ≡ self.old.ready) }
        ensures room { SameRoom self.old self.new }
    {
        if self.rows.given() < self.ready {
            Some(self.give())
        } else {
            self.drained = true;
            None
        }
    }

    // The first row, in the order of the output.
    fn give(&mut self) -> [u8; 16]
        requires { self.old.rows.given < self.old.ready }
        ensures octets { (l : ℕ) → l < 16 → 0 < length self.old.rows.rows
            → slice_index result l ≡ row_octet self.old.rows.rows 0 (slice_index self.old.order l) }
        ensures size { length result ≡ 16 }
        ensures rest { self.new ≡ record self.old { rows = record self.old.rows { rows = drop 1 self.old.rows.rows; given = self.old.rows.given + 1 } } }
    {
        let row = self.rows.pop_row();
        let mut beat = [0; 16];
        for l in 0..16usize {
            beat[l] = row[self.order[l] as usize];
        }
        beat
    }
}
