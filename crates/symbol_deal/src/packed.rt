// The bits of forty wides, in words.
ghost use Rattle.std.specs.Prelude.{◌≡◌, ◌≤◌, ◌<◌, ◌+◌, ◌^◌, ◌++◌, length, slice_index, take};
ghost use Rattle.bit_lists.specs.Bits.{bits, all_bits};
ghost use Rattle.bit_lists.specs.Places.{flat};

use pcs_bits::{BitQueue, Wide};

/// Replaces the words by the 10,280 bits of forty wides, 64 in a word and the last forty in word 160.
/// The first bit is the lowest of word 0.
pub fn put_words(words: &mut [u64; 161], wides: &[Wide; 40])
    ensures bits { all_bits 64 (take 160 words.new) ++ bits 40 (slice_index words.new 160) ≡ flat wides.now }
    ensures fits { slice_index words.new 160 < 2 ^ 40 }
{
    let mut rest = BitQueue::new();
    for i in 0..40usize {
        put_wide(words, 4 * i, &mut rest, &wides[i]);
    }
    words[160] = rest.pop(40);
}

// Puts a wide behind the bits of the words before place `at` and the rest, and fills four words more.
#[inline(always)]
fn put_wide(words: &mut [u64; 161], at: usize, rest: &mut BitQueue, wide: &Wide)
    requires room { at + 4 ≤ 160 }
    requires few { length rest.old < 64 }
    ensures bits { all_bits 64 (take (at + 4) words.new) ++ rest.new
        ≡ all_bits 64 (take at words.old) ++ (rest.old ++ wide.now) }
    ensures size { length rest.new ≡ length rest.old + 1 }
{
    let five = wide.words();
    for j in 0..4usize {
        rest.push(five[j], 64);
        words[at + j] = rest.pop(64);
    }
    rest.push(five[4], 1);
}
