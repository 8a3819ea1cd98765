// A beat put behind the lanes.
ghost use Rattle.std.specs.Prelude.{◌≡◌, true, ◌+◌, ◌*◌, ◌/◌, ◌%◌, ◌<◌, ◌≤◌, ◌^◌, ℕ, List, min, count_by, slice_index};
ghost use Rattle.std.specs.List.{All};
ghost use Rattle.std.specs.Int.{bit_at};
ghost use Rattle.bit_lists.specs.Bits.{bits};
ghost use Rattle.lane_impair.specs.declared.item.Item.{Item};
ghost use Rattle.lane_impair.specs.Items.{IsItem};
ghost use Rattle.lane_impair.specs.Impairments.{kept_from, takes_out};
ghost use Rattle.lane_impair.specs.Spans.{inverts_there, IsQuiet};
ghost use Rattle.lane_impair.specs.Holding.{Grows};

use crate::item::Item;
use crate::lane_rows::LaneRows;
use crate::spans::{drop_mask, invert, next_busy};

// Puts a whole octet behind each lane: at once where lanes have one number of whole octets, as most
// have, and else one after the other.
#[inline]
pub(crate) fn put_whole(rows: &mut LaneRows, octets: &[u8; 16])
    requires { (l : ℕ) → slice_index rows.old.lengths l + 8 < 2 ^ 64 }
    ensures { Grows rows.old rows.new (λ l. bits 8 (slice_index octets.now l)) }
{
    let lengths = *rows.lengths();
    let number = common_length(&lengths) / 8;
    rows.put_group(octets, number);
    for l in 0..16usize {
        if lengths[l] != 8 * number {
            rows.put(l, octets[l], 8);
        }
    }
}

// A length that most lanes have, where but one has another.
#[inline]
fn common_length(lengths: &[u64; 16]) -> u64 {
    if lengths[0] == lengths[1] {
        lengths[0]
    } else {
        lengths[15]
    }
}

// Puts the bits of an octet behind each lane that no item takes out.
pub(crate) fn put_kept(rows: &mut LaneRows, items: &[Item], beat: u64, octets: &[u8; 16])
    requires room { (l : ℕ) → slice_index rows.old.lengths l + 8 < 2 ^ 64 }
    requires items { All IsItem items.now }
    requires beat { beat < 2 ^ 41 }
    ensures { Grows rows.old rows.new (λ l. kept_from items.now l (8 * beat) (bits 8 (slice_index octets.now l))) }
{
    for l in 0..16usize {
        let mask = drop_mask(items, l as u8, beat);
        let (value, width) = kept_bits(octets[l], mask);
        rows.put(l, value, width);
    }
}

// The bits of an octet that a mask doesn't name, as a number, and how many there are.
fn kept_bits(octet: u8, mask: u8) -> (u8, u64)
    ensures kept { (items : List Item) (l n : ℕ) → ((i : ℕ) → i < 8 → bit_at mask i ≡ min 1 (count_by (takes_out l (n + i)) items))
        → bits result.1 result.0 ≡ kept_from items l n (bits 8 octet) }
    ensures fits { result.0 < 2 ^ result.1 }
    ensures narrow { result.1 ≤ 8 }
{
    let mut value = 0;
    let mut width = 0;
    for i in 0..8u32 {
        if (mask >> i) & 1 == 0 {
            value |= ((octet >> i) & 1) << width;
            width += 1;
        }
    }
    (value, width)
}

// Puts what items at places leave of a beat behind the lanes. No item stands at the beats from this
// one to `quiet`. The answer is such a beat for the next one.
#[inline]
pub(crate) fn put_beat(
    rows: &mut LaneRows,
    items: &[Item],
    quiet: u64,
    beat: u64,
    octets: [u8; 16],
) -> u64
    requires room { (l : ℕ) → slice_index rows.old.lengths l + 8 < 2 ^ 64 }
    requires items { All IsItem items.now }
    requires beat { beat + 1 < 2 ^ 41 }
    requires quiet { IsQuiet items.now beat quiet }
    ensures grows { (p : ℕ → ℕ) → ((l i : ℕ) → l < 16 → i < 8
        → bit_at (p l) i ≡ (bit_at (slice_index octets l) i + count_by (inverts_there l (8 * beat + i)) items.now) % 2)
        → Grows rows.old rows.new (λ l. kept_from items.now l (8 * beat) (bits 8 (p l))) }
    ensures most { (l : ℕ) → slice_index rows.new.lengths l ≤ slice_index rows.old.lengths l + 8 }
    ensures quiet { IsQuiet items.now (beat + 1) result }
    ensures memory { rows.new.room ≡ rows.old.room }
{
    if beat < quiet {
        put_whole(rows, &octets);
        quiet
    } else {
        put_changed(rows, items, beat, octets);
        next_busy(items, beat + 1)
    }
}

// Puts what items at places leave of a beat behind the lanes.
#[inline(never)]
fn put_changed(rows: &mut LaneRows, items: &[Item], beat: u64, octets: [u8; 16])
    requires room { (l : ℕ) → slice_index rows.old.lengths l + 8 < 2 ^ 64 }
    requires items { All IsItem items.now }
    requires beat { beat < 2 ^ 41 }
    ensures grows { (p : ℕ → ℕ) → ((l i : ℕ) → l < 16 → i < 8
        → bit_at (p l) i ≡ (bit_at (slice_index octets l) i + count_by (inverts_there l (8 * beat + i)) items.now) % 2)
        → Grows rows.old rows.new (λ l. kept_from items.now l (8 * beat) (bits 8 (p l))) }
    ensures most { (l : ℕ) → slice_index rows.new.lengths l ≤ slice_index rows.old.lengths l + 8 }
    ensures memory { rows.new.room ≡ rows.old.room }
{
    let mut octets = octets;
    invert(items, beat, &mut octets);
    put_kept(rows, items, beat, &octets);
}
