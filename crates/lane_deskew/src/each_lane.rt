// What is found in each of sixteen lanes.
ghost use Rattle.std.specs.Prelude.{◌≡◌, ◌≤◌, ◌<◌, ◌+◌, ◌*◌, ◌^◌, ◌==◌, ◌++◌, ◌∷◌, [], false, Some, None, All, IfSome, ℕ, length, slice_index, slice_index_or, take, if◌then◌else◌};
ghost use Rattle.circular_buffer.specs.Buffer.{keep_last};
ghost use Rattle.bit_lists.specs.Places.{for_each};
ghost use Rattle.lane_lock.specs.declared.Found.{Found};
ghost use Rattle.lane_deskew.specs.Alignments.{all_of};
ghost use Rattle.lane_deskew.specs.Lanes.{column, first_column, found_after, AreFound, shifted};

use circular_buffer::HeapCircularBuffer;
use lane_lock::{Found, found_next};

// Looks at the windows that end in the octets of a beat, where this was found before it. These are the fifteen beats before
// it, and those that are kept; `taken` bits of each lane came before it.
#[inline(never)]
pub fn look_at(
    founds: &mut [Option<Found>; 16],
    recent: &[[u8; 16]; 15],
    kept: &HeapCircularBuffer<[u8; 16]>,
    beat: &[u8; 16],
    taken: u64,
    from: u64,
    period: u64,
)
    requires sizes { (taken < 2 ^ 44) × (from ≤ taken) × (period ≤ 44564480) × (16 ≤ kept.now.capacity) }
    requires known { AreFound founds.old }
    ensures founds { (l : ℕ) → l < 16 → slice_index_or founds.new l None
        ≡ found_after (slice_index_or founds.old l None) (first_column kept.now.items kept.now.capacity l)
        (column l recent.now ++ slice_index beat.now l ∷ []) taken from period }
    ensures within { AreFound founds.new }
{
    for lane in 0..16usize {
        founds[lane] = found_next(
            &column_with(recent, lane, beat[lane]),
            first_of(kept, lane),
            founds[lane],
            taken,
            from,
            period,
        );
    }
}

// The octets of a lane, with one more.
fn column_with(beats: &[[u8; 16]; 15], lane: usize, octet: u8) -> [u8; 16]
    requires { lane < 16 }
    ensures { result ≡ column lane beats.now ++ octet ∷ [] }
{
    let mut octets = [octet; 16];
    for i in 0..15usize {
        octets[i] = beats[i][lane];
    }
    octets
}

// The octets of a lane in the first sixteen beats, once the ring is full.
fn first_of(kept: &HeapCircularBuffer<[u8; 16]>, lane: usize) -> Option<[u8; 16]>
    requires { (16 ≤ kept.now.capacity) × (lane < 16) }
    ensures { result ≡ first_column kept.now.items kept.now.capacity lane }
{
    if !kept.is_full() {
        return None;
    }
    let mut octets = [0; 16];
    for i in 0..16usize {
        octets[i] = octet_at(kept, i, lane);
    }
    Some(octets)
}

#[inline]
fn octet_at(kept: &HeapCircularBuffer<[u8; 16]>, i: usize, lane: usize) -> u8
    requires { (i < length kept.now.items) × (lane < 16) }
    ensures { result ≡ slice_index (slice_index_or kept.now.items i []) lane }
{
    match kept.get(i) {
        Some(beat) => beat[lane],
        None => 0,
    }
}

// The last fifteen beats, with one more.
pub fn with_beat(recent: &[[u8; 16]; 15], beat: &[u8; 16]) -> [[u8; 16]; 15]
    ensures { result ≡ keep_last 15 (recent.now ++ beat.now ∷ []) }
{
    [
        recent[1], recent[2], recent[3], recent[4], recent[5], recent[6], recent[7], recent[8],
        recent[9], recent[10], recent[11], recent[12], recent[13], recent[14], *beat,
    ]
}

// Whether something is found in all lanes.
pub fn have_found(founds: &[Option<Found>; 16]) -> bool
    ensures { result ≡ false → (s : ℕ) → all_of (for_each 16 (λ k. shifted s (slice_index_or founds.now k None))) ≡ None }
{
    for lane in 0..16usize {
        match founds[lane] {
            Some(_) => {}
            None => return false,
        }
    }
    true
}

// What is found in all lanes, so many beats further on, or none where nothing is found in one.
pub fn founds_of(founds: &[Option<Found>; 16], start: u64) -> Option<[Found; 16]>
    requires { AreFound founds.now × (start ≤ 2 ^ 41) }
    ensures founds { result ≡ all_of (for_each 16 (λ k. shifted (8 * start) (slice_index_or founds.now k None))) }
    ensures within { IfSome result (λ fs. All (λ (f : Found). (f.place < 2 ^ 46) × (f.number < 16)) fs) }
{
    let mut all = [Found {
        place: 0,
        number: 0,
    }; 16];
    for lane in 0..16usize {
        match founds[lane] {
            Some(found) => {
                all[lane] = Found {
                    place: found.place + 8 * start,
                    number: found.number,
                };
            }
            None => return None,
        }
    }
    Some(all)
}
