//! The shortest recurrence of the values of a word, found in lanes.
ghost use Rattle.std.specs.Prelude.{◌≡◌, ◌≤◌, ◌∷◌, length};
ghost use Rattle.rs_decode.specs.Recurrence.{IsRecurrence, StartsAs};

use gf_lanes::{Gf32, add, mul, one_on, sum};
use gf1024::{Gf, Poly};

/// A list `c[1]` to `c[length]` with `s[n] + c[1] s[n-1] + .. + c[length] s[n-length] = 0` at each
/// place `n` from `length` on.
#[derive(Drop)]
pub struct Recurrence {
    pub length: usize,
    /// 1, and then `c[1]` to `c[length]`.
    pub poly: Poly,
}

/// The shortest recurrence of thirty symbols.
pub fn shortest_recurrence(sequence: &[Gf; 30]) -> Recurrence
    ensures { IsRecurrence sequence.now result.length result.poly }
{
    shortest_recurrence_of(sequence)
}

/// The shortest recurrence of up to thirty symbols.
pub fn shortest_recurrence_of(sequence: &[Gf]) -> Recurrence
    requires { length sequence.now ≤ 30 }
    ensures { IsRecurrence sequence.now result.length result.poly }
{
    // `here` is 1 and then a shortest list for the symbols so far, and `other` a list whose sum along
    // the symbols is 0 at each place so far and 1 at the next one (Berlekamp and Massey).
    let zeros = Gf32::new([Gf::low(0); 32]);
    let mut here = behind(Gf::low(1), zeros);
    let mut other = zeros;
    let mut latest = zeros;
    let mut length = 0;
    for n in 0..sequence.len() {
        latest = behind(sequence[n], latest);
        let discrepancy = sum(mul(here, latest));
        if !discrepancy.is_zero() {
            let next = add(here, mul(other, Gf32::new([discrepancy; 32])));
            if 2 * length <= n {
                other = mul(here, Gf32::new([discrepancy.inverse(); 32]));
                length = n + 1 - length;
            }
            here = next;
        }
        other = behind(Gf::low(0), other);
    }
    Recurrence {
        length,
        poly: front(here, length + 1),
    }
}

// The lanes one place on, behind another symbol; the last lane is dropped.
#[inline(always)]
pub fn behind(first: Gf, lanes: Gf32) -> Gf32
    ensures { StartsAs 32 (first ∷ lanes) result }
{
    one_on(first, lanes)
}

// The first lanes.
fn front(lanes: Gf32, count: usize) -> Poly
    requires { count ≤ 32 }
    ensures { StartsAs count lanes result }
{
    let mut list = [Gf::low(0); 32];
    for k in 0..32usize {
        list[k] = lanes.lane(k);
    }
    Poly::from_slice(&list[..count])
}
