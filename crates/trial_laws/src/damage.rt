// The damage of a trial: an order and skews, and a burst in each pair behind the lead.
ghost use Rattle.std.specs.Prelude.{◌≡◌, ◌≤◌, ◌<◌, ◌+◌, ◌/◌, ◌%◌, ℕ, [], ◌&&◌, nat_eq, length, slice_index, slice_index_or};
ghost use Rattle.std.specs.Int.{bit_at};
ghost use Rattle.lane_impair.specs.Noise.{state_after};
ghost use Rattle.bit_lists.specs.Bits.{bit_of};
ghost use Rattle.trial_laws.specs.Damage.{trial_items, trial_order, bursts};

use crate::frames::draw;
use lane_impair::Item;
use pcs_send::PairOctets;
use rand_xoshiro::SplitMix64;

/// The order and the skews of a trial, from the first 31 words.
pub fn draw_items(words: &mut SplitMix64, limit: u32) -> [Item; 17]
    requires { limit ≤ 100000 }
    ensures items { result ≡ trial_items words.old limit }
    ensures state { words.new ≡ state_after 31 words.old }
{
    let mut items = [Item::Order(draw_order(words)); 17];
    for l in 0..16u8 {
        let bits = (draw(words) % (u64::from(limit) + 1)) as u32;
        items[usize::from(l) + 1] = Item::Skew { lane: l, bits };
    }
    items
}

// The order, from the first fifteen words.
fn draw_order(words: &mut SplitMix64) -> [u8; 16]
    ensures order { result ≡ trial_order words.old }
    ensures state { words.new ≡ state_after 15 words.old }
    ensures size { length result ≡ 16 }
{
    let mut order = [0, 1, 2, 3, 4, 5, 6, 7, 8, 9, 10, 11, 12, 13, 14, 15];
    for n in 0..15usize {
        let i = 15 - n;
        order.swap(i, (draw(words) % (i as u64 + 1)) as usize);
    }
    order
}

/// Inverts 300 bits of one lane of a pair, by a word.
pub fn strike(pair: &mut PairOctets, word: u64)
    ensures bits { (l n : ℕ) → l < 16 → n < 680 → bit_at (slice_index (slice_index_or pair.new (n / 8) []) l) (n % 8)
        ≡ (bit_at (slice_index (slice_index_or pair.old (n / 8) []) l) (n % 8) + bit_of (bursts word l n)) % 2 }
{
    let lane = (word % 16) as usize;
    let first = 10 * ((word >> 8) % 39) as usize;
    for n in first..first + 300 {
        invert(&mut pair[n / 8], lane, n % 8);
    }
}

// Inverts a bit of a lane.
fn invert(beat: &mut [u8; 16], lane: usize, place: usize)
    requires lane { lane < 16 }
    requires place { place < 8 }
    ensures { (l i : ℕ) → l < 16 → i < 8
        → bit_at (slice_index beat.new l) i ≡ (bit_at (slice_index beat.old l) i + bit_of (nat_eq lane l && nat_eq place i)) % 2 }
{
    beat[lane] ^= 1 << place;
}
