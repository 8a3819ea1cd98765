//! The codeword near a word.
ghost use Rattle.std.specs.Prelude.{◌≡◌, ℕ, ◌<◌, slice_index_or, option_map, unwrap_or};
ghost use Rattle.gf1024.specs.Symbol.{gf, zero_symbol, alpha};
ghost use Rattle.field_base.specs.Field.{power};
ghost use Rattle.field_base.specs.Poly.{value};
ghost use Rattle.rs_code.specs.Code.{distance};
ghost use Rattle.kr_code.specs.Short.{short_near};

use gf1024::Gf;
use rs_code::values_in_lanes;
use rs_decode::correct_by_values;

/// The most errors that are corrected in a word.
const MOST: usize = 7;

/// Replaces the word by the codeword within seven places, and tells in how many places it differed.
/// `None` where there is no such codeword; the word is as it was then.
pub fn correct(word: &mut [Gf; 528]) -> Option<u8>
    ensures answer { result ≡ option_map (λ c. distance word.old c) (short_near word.old) }
    ensures left { word.new ≡ unwrap_or (short_near word.old) word.old }
{
    let values = values(word);
    correct_by_values(word, &values, MOST)
}

// The values at alpha^0 to alpha^13.
fn values(word: &[Gf; 528]) -> [Gf; 14]
    ensures { (j : ℕ) → j < 14
        → slice_index_or result j zero_symbol ≡ value gf word.now (power gf alpha j) }
{
    let sums = values_in_lanes(word);
    let mut values = [Gf::low(0); 14];
    for j in 0..14usize {
        values[j] = sums.lane(j);
    }
    values
}
