//! The code RS(544,514) over the symbols of ten bits (IEEE 802.3 clause 119): words of 544 symbols,
//! the coefficients of polynomials whose values at `alpha^0` to `alpha^29` are zero, where alpha is
//! the symbol 2.
//!
//! Places 0 to 29 of a codeword are its parity, places 30 to 543 its message. No call takes memory.
#![tactic(auto)]

mod code;
pub mod laws;
mod remainder;
mod rows;

pub use code::{are_zero, encode, syndromes, values_in_lanes};
pub use rows::{by_powers, short_values};

#[cfg(test)]
mod tests;
