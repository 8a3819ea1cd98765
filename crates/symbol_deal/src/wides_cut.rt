// Wides cut out of words.
ghost use Rattle.std.specs.Prelude.{◌≡◌, ◌≤◌, ◌<◌, ◌+◌, ◌++◌, [], ℕ, length, slice_index_or, take};
ghost use Rattle.bit_lists.specs.Bits.{all_bits};
ghost use Rattle.bit_lists.specs.Places.{flat};
ghost use Rattle.symbol_deal.specs.Left.{bits_left};

use pcs_bits::{BitQueue, Wide};

/// Replaces the wides by the forty whose bits are the first 10,280 of the words.
pub fn cut_wides(wides: &mut [Wide; 40], words: &[u64; 161])
    ensures bits { flat wides.new ≡ take 10280 (all_bits 64 words.now) }
    ensures each { (i : ℕ) → i < 40 → length (slice_index_or wides.new i []) ≡ 257 }
    ensures count { length wides.new ≡ 40 }
{
    let mut rest = BitQueue::new();
    rest.push(words[0], 64);
    for i in 0..40usize {
        wides[i] = cut_wide(words, 4 * i + 1, &mut rest);
    }
}

// Takes a wide off the front of the rest and the words from `at` on.
#[inline(always)]
fn cut_wide(words: &[u64; 161], at: usize, rest: &mut BitQueue) -> Wide
    requires room { at + 4 ≤ 161 }
    requires there { 1 ≤ length rest.old }
    requires few { length rest.old ≤ 64 }
    ensures front { bits_left words.now at rest.old ≡ result ++ bits_left words.now (at + 4) rest.new }
    ensures size { length rest.new + 1 ≡ length rest.old }
    ensures length { length result ≡ 257 }
{
    let mut five = [0; 5];
    for j in 0..4usize {
        rest.push(words[at + j], 64);
        five[j] = rest.pop(64);
    }
    five[4] = rest.pop(1);
    Wide::new(five)
}
