//! The errors at known places, from the locator and the values of the word.
ghost use Rattle.std.specs.Prelude.{◌≡◌, ℕ, ◌<◌, ◌≤◌, length, slice_index, slice_index_or};
ghost use Rattle.gf1024.specs.Symbol.{gf, zero_symbol, product_of_squares};
ghost use Rattle.field_base.specs.Poly.{coefficient};
ghost use Rattle.rs_decode.specs.Recurrence.{sum_along};
ghost use Rattle.rs_decode.specs.Repair.{back_power, place, formula, IsCorrected};

use crate::recurrence::behind;
use crate::roots::{inverse_power, lanes_of, values_at};
use gf_lanes::{Gf32, mul, sum};
use gf1024::{Gf, Poly};

/// The first coefficients of the product of the locator and the polynomial of the values.
pub fn numerator_of(locator: &Poly, values: &[Gf], count: usize) -> Poly
    requires long { length locator.now ≤ 32 }
    requires there { count ≤ length values.now }
    requires few { length values.now ≤ 30 }
    ensures long { length result ≡ count }
    ensures each { (n : ℕ) → n < count → coefficient gf result n ≡ sum_along locator.now values.now n }
{
    let factors = lanes_of(locator);
    let mut latest = Gf32::new([Gf::low(0); 32]);
    let mut list = [Gf::low(0); 30];
    for n in 0..count {
        latest = behind(values[n], latest);
        list[n] = sum(mul(factors, latest));
    }
    Poly::from_slice(&list[..count])
}

/// The errors at the places, one a lane.
pub fn errors_at(locator: &Poly, numerator: &Poly, places: &[usize]) -> Gf32
    requires few { length places.now ≤ 32 }
    requires inside { (j : ℕ) → j < length places.now → slice_index places.now j < 544 }
    ensures { (j : ℕ) → j < length places.now
        → slice_index_or result j zero_symbol
        ≡ formula locator.now numerator.now (place (slice_index places.now j)) }
{
    let points = inverse_powers(places);
    let slopes = values_at(&locator.derivative(), points);
    mul(values_at(numerator, points), inverses(mul(points, slopes)))
}

// alpha^-i for each place i, one a lane.
fn inverse_powers(places: &[usize]) -> Gf32
    requires few { length places.now ≤ 32 }
    requires inside { (j : ℕ) → j < length places.now → slice_index places.now j < 544 }
    ensures { (j : ℕ) → j < length places.now
        → slice_index_or result j zero_symbol ≡ back_power (slice_index places.now j) }
{
    let mut list = [Gf::low(0); 32];
    for j in 0..places.len() {
        list[j] = inverse_power(places[j]);
    }
    Gf32::new(list)
}

// The inverses lane by lane, zero where the lane is zero.
fn inverses(lanes: Gf32) -> Gf32
    ensures { (j : ℕ) → j < 32
        → slice_index_or result j zero_symbol ≡ product_of_squares 9 (slice_index_or lanes j zero_symbol) }
{
    let mut list = [Gf::low(0); 32];
    for j in 0..32usize {
        list[j] = inverse_or_zero(lanes.lane(j));
    }
    Gf32::new(list)
}

// The inverse, zero where the symbol is zero.
#[inline(always)]
fn inverse_or_zero(symbol: Gf) -> Gf
    ensures { result ≡ product_of_squares 9 symbol }
{
    if symbol.is_zero() {
        symbol
    } else {
        symbol.inverse()
    }
}

/// Adds the error of each lane at its place.
pub fn add_errors(word: &mut [Gf], places: &[usize], errors: Gf32)
    requires few { length places.now ≤ 32 }
    requires inside { (j : ℕ) → j < length places.now → slice_index places.now j < length word.old }
    ensures { IsCorrected word.old places.now errors word.new }
{
    for j in 0..places.len() {
        let i = places[j];
        word[i] = word[i].add(errors.lane(j));
    }
}
