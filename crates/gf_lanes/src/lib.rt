//! Thirty-two symbols at a time, in lanes of `std::simd`: each lane is the field's operation.
#![tactic(auto)]

ghost use Rattle.std.specs.Prelude.{◌≡◌, ℕ, ◌<◌, List, ◌∷◌, length, map, take, slice_index_or};
ghost use Rattle.gf1024.specs.Symbol.{Symbol, symbol, sum_of, product_of, zero_symbol, gf};
ghost use Rattle.field_base.specs.Field.{total};
ghost use Rattle.gf_lanes.specs.Lanes.{EachLane, AreSymbols, AreProducts, AreLowProducts, AreShort, AreReduced};
ghost use Rattle.gf_lanes.specs.Facts.{numbers_again};

use gf1024::Gf;
use std::marker::Model;
use std::simd::prelude::*;

/// Thirty-two symbols, each in a lane.
#[derive(Clone, Copy)]
pub struct Gf32 {
    lanes: u16x32,
}

impl Model for Gf32 {
    ghost Value = { List Symbol };

    ghost view = { λ g. map symbol g.lanes };

    ghost invariant = { λ g. AreSymbols g.lanes };

    ghost inverse = { λ xs. record { lanes = map (λ s. s.value) xs } };

    ghost inverse_ok = { λ g h i. record { lanes = numbers_again g.lanes h i } };
}

impl Gf32 {
    #[inline(always)]
    pub fn new(list: [Gf; 32]) -> Gf32
        ensures { result ≡ list }
    {
        let mut lanes = [0u16; 32];
        for i in 0..32usize {
            lanes[i] = list[i].value();
        }
        Gf32 {
            lanes: u16x32::from_array(lanes),
        }
    }

    /// The symbols of thirty-two numbers below 1024.
    #[inline(always)]
    pub fn of_numbers(numbers: [u16; 32]) -> Gf32
        requires { AreSymbols numbers }
        ensures { result ≡ map symbol numbers }
    {
        Gf32 {
            lanes: u16x32::from_array(numbers),
        }
    }

    #[inline(always)]
    pub fn lane(&self, i: usize) -> Gf
        requires { i < 32 }
        ensures { result ≡ slice_index_or self.now i zero_symbol }
    {
        Gf::low(self.lanes[i])
    }
}

/// The product lane by lane. Where a loop keeps one factor, let it be `a`: `x^5` times it is then
/// taken once.
#[inline(always)]
pub fn mul(a: Gf32, b: Gf32) -> Gf32
    ensures { EachLane product_of a b result }
{
    Gf32 {
        lanes: products(a.lanes, b.lanes),
    }
}

/// The sum lane by lane.
#[inline(always)]
pub fn add(a: Gf32, b: Gf32) -> Gf32
    ensures { EachLane sum_of a b result }
{
    Gf32 {
        lanes: a.lanes ^ b.lanes,
    }
}

/// `a * step + c` lane by lane. A loop that keeps `step` takes `x^5` times it once.
#[inline(always)]
pub fn horner(a: Gf32, step: Gf32, c: Gf) -> Gf32
    ensures { EachLane (λ x y. sum_of (product_of x y) c) a step result }
{
    Gf32 {
        lanes: products(step.lanes, a.lanes) ^ u16x32::splat(c.value()),
    }
}

/// Each symbol four lanes on, behind four zeros; the last four are dropped.
#[inline(always)]
pub fn four_on(a: Gf32) -> Gf32
    ensures { result ≡ zero_symbol ∷ zero_symbol ∷ zero_symbol ∷ zero_symbol ∷ take 28 a }
{
    Gf32 {
        lanes: u16x32::splat(0).shuffle(
            a.lanes,
            [
                0, 1, 2, 3, 32, 33, 34, 35, 36, 37, 38, 39, 40, 41, 42, 43, 44, 45, 46, 47, 48, 49,
                50, 51, 52, 53, 54, 55, 56, 57, 58, 59,
            ],
        ),
    }
}

/// Each symbol one lane on, behind another symbol; the last one is dropped.
#[inline(always)]
pub fn one_on(first: Gf, a: Gf32) -> Gf32
    ensures lanes { result ≡ first ∷ take 31 a }
    ensures long { length result ≡ 32 }
{
    Gf32 {
        lanes: u16x32::splat(first.value()).shuffle(
            a.lanes,
            [
                0, 32, 33, 34, 35, 36, 37, 38, 39, 40, 41, 42, 43, 44, 45, 46, 47, 48, 49, 50, 51,
                52, 53, 54, 55, 56, 57, 58, 59, 60, 61, 62,
            ],
        ),
    }
}

/// The sum of all lanes.
#[inline(always)]
pub fn sum(a: Gf32) -> Gf
    ensures { result ≡ total gf (λ s. s) a }
{
    Gf::low(a.lanes.reduce_xor())
}

// The products of the lanes of `a` and `b`, by the five low and by the five high bits of `b`.
#[inline(always)]
fn products(a: u16x32, b: u16x32) -> u16x32
    requires left { AreSymbols a }
    requires right { AreSymbols b }
    ensures { AreProducts a b result }
{
    let raised = reduced(a << u16x32::splat(5));
    let low = low_products(a, b);
    let high = low_products(raised, b >> u16x32::splat(5));
    reduced(low ^ high)
}

// The products by the five lowest bits of `b`, as polynomials: words of up to fourteen bits.
#[inline(always)]
fn low_products(a: u16x32, b: u16x32) -> u16x32
    requires left { AreSymbols a }
    requires right { length b ≡ 32 }
    ensures { AreLowProducts a b result }
{
    ((b & u16x32::splat(1)) * a)
        ^ ((b & u16x32::splat(2)) * a)
        ^ ((b & u16x32::splat(4)) * a)
        ^ ((b & u16x32::splat(8)) * a)
        ^ ((b & u16x32::splat(16)) * a)
}

// What x^10 + x^3 + 1 leaves of words of up to fifteen bits.
#[inline(always)]
fn reduced(words: u16x32) -> u16x32
    requires { AreShort words }
    ensures { AreReduced words result }
{
    let high = words >> u16x32::splat(10);
    (words & u16x32::splat(1023)) ^ high ^ (high << u16x32::splat(3))
}
