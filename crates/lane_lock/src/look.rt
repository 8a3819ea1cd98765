// What is found with the windows that end in an octet, by those that end a marker period before it.
ghost use Rattle.std.specs.Prelude.{◌≡◌, ◌≤◌, ◌<◌, ◌*◌, ◌^◌, IfSome, option_map, replicate, IsTrue};
ghost use Rattle.bit_lists.specs.Bits.{bits, all_bits};
ghost use Rattle.lane_lock.specs.declared.Found.{Found};
ghost use Rattle.lane_lock.specs.Seen.{row_at, row_of, next_found};

use crate::Found;
use crate::earliest::found_after;
use crate::windows::{is_quiet, marked_row};

/// What is found in a lane after an octet more, where this was found before it. `octets` are the last
/// sixteen of the lane, of which it is the last, and `before` the sixteen a marker period before
/// them, where there are so many. Before the first octet of a lane stand zeros. `taken` bits came
/// before the octet, places count from `from` on, and the marker period has `period` bits.
pub fn found_next(
    octets: &[u8; 16],
    before: Option<[u8; 16]>,
    found: Option<Found>,
    taken: u64,
    from: u64,
    period: u64,
) -> Option<Found>
    requires sizes { (taken < 2 ^ 44) × (from ≤ taken) × (period ≤ 44564480) }
    requires known { IfSome found (λ (f : Found). (f.place < 2 ^ 45) × (f.number < 16)) }
    ensures found { result ≡ next_found found (option_map row_of before) (row_of octets.now) taken from period }
    ensures within { IfSome result (λ (f : Found). (f.place < 2 ^ 45) × (f.number < 16)) }
{
    let line = line_of(octets);
    if is_unmarked(line) {
        return found;
    }
    let row = marked_row(line);
    match before {
        Some(before) => {
            let before = marked_row(line_of(&before));
            found_after(found, Some(before), &row, taken, from, period)
        }
        None => found_after(found, None, &row, taken, from, period),
    }
}

// The 128 bits of sixteen octets, the first octet the lowest.
fn line_of(octets: &[u8; 16]) -> u128
    ensures { bits 128 result ≡ all_bits 8 octets.now }
{
    let mut last = 0u128;
    for i in 0..15usize {
        last = (last | at_top(octets[i])) >> 8;
    }
    last | at_top(octets[15])
}

// The line whose last octet is this one, behind zeros.
#[inline(always)]
fn at_top(octet: u8) -> u128
    ensures value { result ≡ octet * 2 ^ 120 }
    ensures fits { octet < 2 ^ 8 }
{
    (octet as u128) << 120
}

// Whether none of the eight windows of a line matches.
#[inline]
fn is_unmarked(line: u128) -> bool
    ensures { IsTrue result → row_at (bits 128 line) 0 ≡ replicate 8 16 }
{
    if is_quiet(line) {
        return true;
    }
    marked_row(line) == [16; 8]
}
