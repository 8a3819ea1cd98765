//! Multiples of rows of thirty-two symbols, from tables.
ghost use Rattle.std.specs.Prelude.{◌≡◌, slice_index, [], slice_index_or, map};
ghost use Rattle.gf1024.specs.Symbol.{gf, symbol};
ghost use Rattle.field_base.specs.Poly.{scaled};
ghost use Rattle.rs_code.specs.Register.{AreMultiples, first_row};

use gf_lanes::{Gf32, add};
use gf1024::Gf;

// The sums of five rows, row `i` of those whose bit of `i` is set.
macro_rules! sums {
    ([$($a:literal)*] [$($b:literal)*] [$($c:literal)*] [$($d:literal)*] [$($e:literal)*]) => {
        [
            [$(0 & $a),*], [$($a),*], [$($b),*], [$($a ^ $b),*], [$($c),*], [$($a ^ $c),*],
            [$($b ^ $c),*], [$($a ^ $b ^ $c),*], [$($d),*], [$($a ^ $d),*], [$($b ^ $d),*],
            [$($a ^ $b ^ $d),*], [$($c ^ $d),*], [$($a ^ $c ^ $d),*], [$($b ^ $c ^ $d),*],
            [$($a ^ $b ^ $c ^ $d),*], [$($e),*], [$($a ^ $e),*], [$($b ^ $e),*],
            [$($a ^ $b ^ $e),*], [$($c ^ $e),*], [$($a ^ $c ^ $e),*], [$($b ^ $c ^ $e),*],
            [$($a ^ $b ^ $c ^ $e),*], [$($d ^ $e),*], [$($a ^ $d ^ $e),*], [$($b ^ $d ^ $e),*],
            [$($a ^ $b ^ $d ^ $e),*], [$($c ^ $d ^ $e),*], [$($a ^ $c ^ $d ^ $e),*],
            [$($b ^ $c ^ $d ^ $e),*], [$($a ^ $b ^ $c ^ $d ^ $e),*],
        ]
    };
}

// The table of a row, from its multiples by 1, 2, 4 and so on to 512.
macro_rules! multiples {
    ($a:tt $b:tt $c:tt $d:tt $e:tt $f:tt $g:tt $h:tt $i:tt $j:tt) => {
        Multiples {
            low: sums!($a $b $c $d $e),
            high: sums!($f $g $h $i $j),
            aligned: 0,
        }
    };
}

pub(crate) use multiples;
pub(crate) use sums;

mod powers;
mod remainders;

pub use powers::{by_powers, short_values};
pub use remainders::{X30, X31, X32, X33};

/// The multiples of thirty-two symbols, as numbers: by the symbols below 32, and by those that are
/// multiples of 32. The last field aligns them, so that the lanes of a row are added as they lie.
pub struct Multiples {
    low: [[u16; 32]; 32],
    high: [[u16; 32]; 32],
    aligned: u128,
}

/// The multiple by a symbol, from the multiples by its five low and by its five high bits.
#[inline(always)]
pub fn multiple(table: &Multiples, factor: Gf) -> Gf32
    requires { AreMultiples table.now.low table.now.high }
    ensures { result ≡ scaled gf factor (map symbol (first_row table.now.low)) }
{
    let number = factor.value() as usize;
    add(
        Gf32::of_numbers(table.low[number % 32]),
        Gf32::of_numbers(table.high[number / 32]),
    )
}
