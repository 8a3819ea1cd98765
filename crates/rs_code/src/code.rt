ghost use Rattle.std.specs.Prelude.{◌≡◌, ℕ, ◌<◌, ◌++◌, ◌↔◌, IsTrue, length, slice_index_or};
ghost use Rattle.gf1024.specs.Symbol.{gf, zero_symbol, alpha};
ghost use Rattle.field_base.specs.Field.{power};
ghost use Rattle.field_base.specs.Poly.{value};
ghost use Rattle.rs_code.specs.Near.{coded};

use crate::remainder::remainder;
use crate::rows::{by_powers, short_values};
use gf_lanes::{Gf32, add, horner, mul};
use gf1024::Gf;

/// Writes the parity of the one codeword with this message, whatever was in `parity`.
pub fn encode(message: &[Gf; 514], parity: &mut [Gf; 30])
    ensures coded { parity.new ++ message.now ≡ coded message.now }
    ensures size { length parity.new ≡ 30 }
{
    let register = remainder(message);
    for k in 0..30usize {
        parity[k] = register.lane(k + 2);
    }
}

/// The values of the word at `alpha^0` to `alpha^29`: all zero exactly where it is a codeword.
pub fn syndromes(word: &[Gf; 544]) -> [Gf; 30]
    ensures { (j : ℕ) → j < 30
        → slice_index_or result j zero_symbol ≡ value gf word.now (power gf alpha j) }
{
    let rest = rest_of(word);
    if are_zero(&rest) {
        return rest;
    }
    let sums = rest_values(&rest);
    let mut values = [Gf::low(0); 30];
    for j in 0..30usize {
        values[j] = sums.lane(j);
    }
    values
}

// The values of a remainder at alpha^0 to alpha^31, one a lane: those of its first fifteen symbols,
// and of the others times x^15.
#[inline(always)]
fn rest_values(rest: &[Gf; 30]) -> Gf32
    ensures { (j : ℕ) → j < 32 → slice_index_or result j zero_symbol ≡ value gf rest.now (power gf alpha j) }
{
    let all = &rest[..];
    let high = mul(by_powers(Gf::low(1), 15), short_values(&all[15..]));
    add(short_values(&all[..15]), high)
}

// The remainder of the word by the generator, which has the same values at the roots.
#[inline(always)]
fn rest_of(word: &[Gf; 544]) -> [Gf; 30]
    ensures { (j : ℕ) → j < 30 → value gf result (power gf alpha j) ≡ value gf word.now (power gf alpha j) }
{
    let whole = &word[..];
    let register = remainder(&whole[30..]);
    let mut rest = [Gf::low(0); 30];
    for k in 0..30usize {
        rest[k] = word[k].add(register.lane(k + 2));
    }
    rest
}

/// Tells whether all symbols are zero.
#[inline(always)]
pub fn are_zero(values: &[Gf]) -> bool
    ensures { IsTrue result
        ↔ ((j : ℕ) → j < length values.now → slice_index_or values.now j zero_symbol ≡ zero_symbol) }
{
    for j in 0..values.len() {
        if !values[j].is_zero() {
            return false;
        }
    }
    true
}

/// The values of a word of any length at `alpha^0` to `alpha^31`, one a lane.
#[inline(always)]
pub fn values_in_lanes(word: &[Gf]) -> Gf32
    ensures { (j : ℕ) → j < 32
        → slice_index_or result j zero_symbol ≡ value gf word.now (power gf alpha j) }
{
    let steps = by_powers(Gf::low(1), 1);
    let mut sums = Gf32::new([Gf::low(0); 32]);
    let count = word.len();
    for i in 0..count {
        sums = horner(sums, steps, word[count - 1 - i]);
    }
    sums
}
