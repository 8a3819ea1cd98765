// The rows of a pair, cut out of the last beats.
ghost use Rattle.std.specs.Prelude.{◌≡◌, ◌≢◌, ◌≤◌, ◌<◌, ◌+◌, ◌-◌, ◌*◌, ◌/◌, ◌%◌, ◌^◌, ◌==◌, ◌++◌, ◌∷◌, [], All, IsTrue, ℕ, length, position, slice_index, slice_index_or, unwrap_or};
ghost use Rattle.bit_lists.specs.Places.{for_each};
ghost use Rattle.gf1024.specs.Symbol.{symbol};
ghost use Rattle.lane_deskew.specs.State.{kept_rows, kept_row};

use crate::Order;
use circular_buffer::HeapCircularBuffer;
use gf1024::Gf;
use std::simd::prelude::*;

// Puts the rows of pair `i` in their place. Its arrays are large, so it isn't inlined where every beat would pay for them.
#[inline(never)]
pub fn read_rows(
    rows: &mut [[Gf; 16]; 68],
    kept: &HeapCircularBuffer<[u8; 16]>,
    beats: u64,
    order: &Order,
    i: u64,
)
    requires sizes { (beats ≤ 2 ^ 40) × (i ≤ 2 ^ 40) }
    requires places { All (λ n. n < 2 ^ 48) order.now.places }
    ensures { rows.new ≡ kept_rows kept.now.items beats order.now i }
{
    let skipped = beats.saturating_sub(kept.len() as u64);
    let (front, back) = kept.as_slices();
    let mut lanes = [0; 16];
    let mut froms = [0; 16];
    let mut shifts = [0; 16];
    for u in 0..16usize {
        let lane = lane_of(&order.numbers, u as u8);
        let place = order.places[lane] + 680 * i;
        lanes[u] = lane as u8;
        froms[u] = (place / 8).saturating_sub(skipped) as usize;
        shifts[u] = (place % 8) as u16;
    }
    cut_rows(rows, &octets_from(front, back, &froms, &lanes), &shifts);
}

// The capture lane that carries a number.
fn lane_of(numbers: &[u8; 16], number: u8) -> usize
    ensures lane { result ≡ unwrap_or (position (λ v. v == number) numbers.now) 0 }
    ensures within { result < 16 }
{
    for lane in 0..16usize {
        if numbers[lane] == number {
            return lane;
        }
    }
    0
}

// The octets of lanes that begin in these beats, 88 of each, where 0 stands for those past the last beat. Lanes mostly begin in
// the same beat.
#[inline]
fn octets_from(
    front: &[[u8; 16]],
    back: &[[u8; 16]],
    froms: &[usize; 16],
    lanes: &[u8; 16],
) -> [[u8; 16]; 88]
    requires sizes { All (λ n. n < 2 ^ 60) froms.now × All (λ n. n < 16) lanes.now }
    ensures { (k v : ℕ) → k < 88 → v < 16 → slice_index (slice_index_or result k []) v
        ≡ slice_index (slice_index_or (front.now ++ back.now) (slice_index froms.now v + k) []) (slice_index lanes.now v) }
{
    if begin_together(froms) {
        return beats_from(front, back, froms[0], lanes);
    }
    let mut octets = [[0; 16]; 88];
    for u in 0..16usize {
        put_lane(&mut octets, u, front, back, froms[u], lanes[u] as usize);
    }
    octets
}

// Whether all lanes begin in the same beat.
fn begin_together(froms: &[usize; 16]) -> bool
    ensures { IsTrue result → (v : ℕ) → v < 16 → slice_index froms.now v ≡ slice_index froms.now 0 }
{
    for u in 0..16usize {
        if froms[u] != froms[0] {
            return false;
        }
    }
    true
}

// The same of lanes that all begin in beat `from`.
#[inline(always)]
fn beats_from(
    front: &[[u8; 16]],
    back: &[[u8; 16]],
    from: usize,
    lanes: &[u8; 16],
) -> [[u8; 16]; 88]
    requires sizes { (from < 2 ^ 60) × All (λ n. n < 16) lanes.now }
    ensures { (k v : ℕ) → k < 88 → v < 16 → slice_index (slice_index_or result k []) v
        ≡ slice_index (slice_index_or (front.now ++ back.now) (from + k) []) (slice_index lanes.now v) }
{
    let mut octets = [[0; 16]; 88];
    for k in 0..88usize {
        octets[k] = ordered(beat_at(front, back, from + k), lanes);
    }
    octets
}

// The octets of a beat in the order of these lanes.
#[inline(always)]
fn ordered(beat: &[u8; 16], lanes: &[u8; 16]) -> [u8; 16]
    requires { All (λ n. n < 16) lanes.now }
    ensures { (v : ℕ) → v < 16 → slice_index result v ≡ slice_index beat.now (slice_index lanes.now v) }
{
    u8x16::from_array(*beat)
        .swizzle_dyn(u8x16::from_array(*lanes))
        .to_array()
}

static NO_OCTETS: [u8; 16] = [0; 16];

#[inline(always)]
fn beat_at<'a>(front: &'a [[u8; 16]], back: &'a [[u8; 16]], at: usize) -> &'a [u8; 16]
    ensures { (l : ℕ) → slice_index result.now l ≡ slice_index (slice_index_or (front.now ++ back.now) at []) l }
{
    if at < front.len() {
        &front[at]
    } else if at - front.len() < back.len() {
        &back[at - front.len()]
    } else {
        &NO_OCTETS
    }
}

// Puts the octets of a lane in these beats, from beat `from` on, into column `u`, where 0 stands for those past the last one.
#[inline]
fn put_lane(
    octets: &mut [[u8; 16]; 88],
    u: usize,
    front: &[[u8; 16]],
    back: &[[u8; 16]],
    from: usize,
    lane: usize,
)
    requires sizes { (u < 16) × (from < 2 ^ 60) × (lane < 16) }
    requires none { (k : ℕ) → k < 88 → slice_index (slice_index_or octets.old k []) u ≡ 0 }
    ensures put { (k : ℕ) → k < 88 → slice_index (slice_index_or octets.new k []) u ≡ slice_index (slice_index_or (front.now ++ back.now) (from + k) []) lane }
    ensures beside { (k v : ℕ) → v ≢ u → slice_index (slice_index_or octets.new k []) v ≡ slice_index (slice_index_or octets.old k []) v }
{
    let ahead = front.len().saturating_sub(from).min(88);
    let end = (front.len() + back.len()).saturating_sub(from).min(88);
    let first = from.saturating_sub(front.len());
    put_octets(octets, u, 0, ahead, front, from, lane);
    put_octets(octets, u, ahead, end, back, first, lane);
}

// Puts the octets of a lane from beat `first` on into column `u`, from row `at` to row `end`.
#[inline(always)]
fn put_octets(
    octets: &mut [[u8; 16]; 88],
    u: usize,
    at: usize,
    end: usize,
    beats: &[[u8; 16]],
    first: usize,
    lane: usize,
)
    requires sizes { (u < 16) × (at ≤ end) × (end ≤ 88) × (lane < 16) × (first < 2 ^ 60) }
    requires there { (k : ℕ) → at ≤ k → k < end → first + (k - at) < length beats.now }
    ensures put { (k : ℕ) → at ≤ k → k < end → slice_index (slice_index_or octets.new k []) u ≡ slice_index (slice_index_or beats.now (first + (k - at)) []) lane }
    ensures before { (k : ℕ) → k < at → slice_index_or octets.new k [] ≡ slice_index_or octets.old k [] }
    ensures behind { (k : ℕ) → end ≤ k → slice_index_or octets.new k [] ≡ slice_index_or octets.old k [] }
    ensures beside { (k v : ℕ) → v ≢ u → slice_index (slice_index_or octets.new k []) v ≡ slice_index (slice_index_or octets.old k []) v }
{
    for j in at..end {
        put_octet(&mut octets[j], u, beats[first + (j - at)][lane]);
    }
}

#[inline(always)]
fn put_octet(row: &mut [u8; 16], u: usize, octet: u8)
    requires { u < 16 }
    ensures put { slice_index row.new u ≡ octet }
    ensures beside { (v : ℕ) → v ≢ u → slice_index row.new v ≡ slice_index row.old v }
{
    row[u] = octet;
}

// The rows of pieces that begin so many bits into the first octets of their lanes. Four rows of a lane are five octets.
fn cut_rows(rows: &mut [[Gf; 16]; 68], octets: &[[u8; 16]; 88], shifts: &[u16; 16])
    requires { All (λ n. n < 8) shifts.now }
    ensures { rows.new ≡ for_each 68 (kept_row octets.now shifts.now) }
{
    for k in 0..17usize {
        let [first, second, third, fourth] = four_rows(octets, shifts, k);
        rows[4 * k] = first;
        rows[4 * k + 1] = second;
        rows[4 * k + 2] = third;
        rows[4 * k + 3] = fourth;
    }
}

// The rows from row `4 * k` on. The loop is one of vectors.
#[inline]
fn four_rows(octets: &[[u8; 16]; 88], shifts: &[u16; 16], k: usize) -> [[Gf; 16]; 4]
    requires { (k < 17) × All (λ n. n < 8) shifts.now }
    ensures { result ≡ kept_row octets.now shifts.now (4 * k) ∷ kept_row octets.now shifts.now (4 * k + 1)
        ∷ kept_row octets.now shifts.now (4 * k + 2) ∷ kept_row octets.now shifts.now (4 * k + 3) ∷ [] }
{
    let mut first = [Gf::low(0); 16];
    let mut second = [Gf::low(0); 16];
    let mut third = [Gf::low(0); 16];
    let mut fourth = [Gf::low(0); 16];
    let at = 5 * k;
    for u in 0..16usize {
        let shift = shifts[u];
        let a = octets[at][u];
        let b = octets[at + 1][u];
        let c = octets[at + 2][u];
        let d = octets[at + 3][u];
        let e = octets[at + 4][u];
        let f = octets[at + 5][u];
        first[u] = ten_bits(a, b, c, shift, 0);
        second[u] = ten_bits(b, c, d, shift, 2);
        third[u] = ten_bits(c, d, e, shift, 4);
        fourth[u] = ten_bits(d, e, f, shift, 6);
    }
    [first, second, third, fourth]
}

// The ten bits of three octets from bit `shift + more` on.
#[inline(always)]
fn ten_bits(first: u8, second: u8, third: u8, shift: u16, more: u16) -> Gf
    requires { (shift < 8) × (more ≤ 6) }
    ensures symbol { result ≡ symbol ((first + 256 * second + 65536 * third) / 2 ^ (shift + more) % 1024) }
    ensures octets { (first < 256) × (second < 256) × (third < 256) }
{
    let low = moved(first, second, shift);
    let high = moved(second, third, shift);
    Gf::low(((low >> more) + (high << (8 - more))) % 1024)
}

// The octet that begins at bit `shift` of the first of these, by products, which vectors have.
#[inline(always)]
fn moved(first: u8, second: u8, shift: u16) -> u16
    requires { shift < 8 }
    ensures octet { (n : ℕ) → first ≡ n % 256 → second ≡ n / 256 % 256 → result ≡ n / 2 ^ shift % 256 }
    ensures small { result < 256 }
{
    let factor = 256 >> shift;
    first as u16 * factor / 256 + second as u16 * factor % 256
}
