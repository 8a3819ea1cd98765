// The octets in a ring.
ghost use Rattle.std.specs.Prelude.{◌≡◌, ◌≤◌, ◌<◌, ◌-◌, ◌==◌, ◌++◌, ◌∷◌, [], Some, None, drop, length, slice_index, take, if◌then◌else◌};

use circular_buffer::HeapCircularBuffer;

// The last fifteen octets and one more.
pub fn last_octets(kept: &HeapCircularBuffer<u8>, octet: u8) -> [u8; 16]
    requires { 15 ≤ length kept.now.items }
    ensures { result ≡ drop (length kept.now.items - 15) kept.now.items ++ octet ∷ [] }
{
    let first = kept.len() - 15;
    let mut octets = [octet; 16];
    for i in 0..15usize {
        octets[i] = octet_at(kept, first + i);
    }
    octets
}

// The first sixteen octets, once the ring is full.
pub fn first_octets(kept: &HeapCircularBuffer<u8>) -> Option<[u8; 16]>
    requires { 16 ≤ kept.now.capacity }
    ensures { result ≡ (if length kept.now.items == kept.now.capacity then Some (take 16 kept.now.items) else None) }
{
    if !kept.is_full() {
        return None;
    }
    let mut octets = [0; 16];
    for i in 0..16usize {
        octets[i] = octet_at(kept, i);
    }
    Some(octets)
}

#[inline]
fn octet_at(kept: &HeapCircularBuffer<u8>, i: usize) -> u8
    requires { i < length kept.now.items }
    ensures { result ≡ slice_index kept.now.items i }
{
    match kept.get(i) {
        Some(octet) => *octet,
        None => 0,
    }
}
