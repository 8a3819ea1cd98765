// The bits that two messages carry, gathered into words.
ghost use Rattle.std.specs.Prelude.{◌≡◌, ◌≤◌, ◌<◌, ◌+◌, ◌^◌, ◌++◌, length, slice_index, take};
ghost use Rattle.bit_lists.specs.Bits.{bits, all_bits};
ghost use Rattle.bit_lists.specs.Places.{joined};
ghost use Rattle.symbol_deal.specs.Messages.{twenty_bits, message_bits};

use gf1024::Gf;
use pcs_bits::BitQueue;

/// The bits that two messages carry, 64 in a word and the last forty in word 160.
pub fn gather_words(a: &[Gf], b: &[Gf]) -> [u64; 161]
    requires { (length a.now ≡ 514) × (length b.now ≡ 514) }
    ensures { all_bits 64 (take 160 result) ++ bits 40 (slice_index result 160) ≡ message_bits a.now b.now }
{
    let mut words = [0; 161];
    for q in 0..32usize {
        gather_five(&mut words, 5 * q, a, b, 16 * q);
    }
    words[160] = forty(a, b, 512);
    words
}

// Puts the bits of sixteen places of both messages into five words, where those of the places before
// are in the words before. Written out, since the rest is known at each step then, and nothing is
// tested.
#[inline(always)]
fn gather_five(words: &mut [u64; 161], at: usize, a: &[Gf], b: &[Gf], count: usize)
    requires long { (length a.now ≡ 514) × (length b.now ≡ 514) }
    requires room { at + 5 ≤ 160 }
    requires there { count + 16 ≤ 514 }
    requires before { all_bits 64 (take at words.old) ≡ joined count (twenty_bits a.now b.now) }
    ensures bits { all_bits 64 (take (at + 5) words.new) ≡ joined (count + 16) (twenty_bits a.now b.now) }
{
    let mut rest = BitQueue::new();
    rest.push(forty(a, b, count), 40);
    rest.push(forty(a, b, count + 2), 40);
    words[at] = rest.pop(64);
    rest.push(forty(a, b, count + 4), 40);
    rest.push(forty(a, b, count + 6), 40);
    words[at + 1] = rest.pop(64);
    rest.push(forty(a, b, count + 8), 40);
    words[at + 2] = rest.pop(64);
    rest.push(forty(a, b, count + 10), 40);
    rest.push(forty(a, b, count + 12), 40);
    words[at + 3] = rest.pop(64);
    rest.push(forty(a, b, count + 14), 40);
    words[at + 4] = rest.pop(64);
}

// The bits of place `i` of both messages and of the next one.
#[inline(always)]
fn forty(a: &[Gf], b: &[Gf], i: usize) -> u64
    requires long { (length a.now ≡ 514) × (length b.now ≡ 514) }
    requires there { i + 2 ≤ 514 }
    ensures bits { bits 40 result ≡ twenty_bits a.now b.now i ++ twenty_bits a.now b.now (i + 1) }
    ensures fits { result < 2 ^ 40 }
{
    twenty(a, b, i + 1) * 1_048_576 + twenty(a, b, i)
}

// The bits of place `i` of both messages, which is counted from the last symbol.
#[inline(always)]
fn twenty(a: &[Gf], b: &[Gf], i: usize) -> u64
    requires long { (length a.now ≡ 514) × (length b.now ≡ 514) }
    requires there { i < 514 }
    ensures bits { bits 20 result ≡ twenty_bits a.now b.now i }
    ensures fits { result < 2 ^ 20 }
{
    b[513 - i].value() as u64 * 1024 + a[513 - i].value() as u64
}
