//! The codeword near a word.
ghost use Rattle.std.specs.Prelude.{◌≡◌, ℕ, ◌+◌, ◌<◌, ◌≤◌, length, slice_index_or, option_map, unwrap_or};
ghost use Rattle.gf1024.specs.Symbol.{gf, zero_symbol, alpha};
ghost use Rattle.field_base.specs.Field.{power};
ghost use Rattle.field_base.specs.Poly.{value};
ghost use Rattle.rs_code.specs.Code.{distance};
ghost use Rattle.rs_code.specs.Near.{codeword_near, near};

use crate::errors::{add_errors, errors_at, numerator_of};
use crate::recurrence::shortest_recurrence_of;
use crate::roots::root_places;
use gf1024::Gf;
use rs_code::{are_zero, syndromes};

/// The most errors that are corrected in a word.
const MOST: usize = 15;

/// Replaces the word by the codeword within fifteen places, and tells in how many places it
/// differed. `None` where there is no such codeword; the word is as it was then.
pub fn correct(word: &mut [Gf; 544]) -> Option<u8>
    ensures answer { result ≡ option_map (λ c. distance word.old c) (near word.old 15) }
    ensures left { word.new ≡ unwrap_or (near word.old 15) word.old }
{
    let values = syndromes(word);
    correct_by_values(word, &values, MOST)
}

/// Replaces a word by the codeword within `most` places, and tells in how many places it differed.
/// The code's roots are `alpha^0`, `alpha^1` and so on, one for each of `values`, which are the word's
/// values there. `None` where there is no such codeword; the word is as it was then.
pub fn correct_by_values(word: &mut [Gf], values: &[Gf], most: usize) -> Option<u8>
    requires long { length word.old ≤ 544 }
    requires few { length values.now ≤ 30 }
    requires half { most + most ≤ length values.now }
    requires read { (j : ℕ) → j < length values.now
        → slice_index_or values.now j zero_symbol ≡ value gf word.old (power gf alpha j) }
    ensures answer { result ≡ option_map (λ c. distance word.old c)
        (codeword_near (length values.now) (length word.old) word.old most) }
    ensures left { word.new ≡ unwrap_or (codeword_near (length values.now) (length word.old) word.old most) word.old }
{
    if are_zero(values) {
        return Some(0);
    }
    let recurrence = shortest_recurrence_of(values);
    let count = recurrence.length;
    if count > most {
        return None;
    }
    let places = root_places(&recurrence.poly, word.len());
    if places.len() != count {
        return None;
    }
    let numerator = numerator_of(&recurrence.poly, values, count);
    let errors = errors_at(&recurrence.poly, &numerator, places.as_slice());
    add_errors(word, places.as_slice(), errors);
    Some(count as u8)
}
