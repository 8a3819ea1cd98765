//! The code RS(528,514) over the symbols of ten bits (IEEE 802.3 clause 91): words of 528 symbols,
//! the coefficients of polynomials whose values at `alpha^0` to `alpha^13` are zero, where alpha is
//! the symbol 2.
//!
//! Places 0 to 13 of a codeword are its parity, places 14 to 527 its message. No call takes memory.
#![tactic(auto)]

mod code;
mod correction;
pub mod laws;

pub use code::encode;
pub use correction::correct;

#[cfg(test)]
mod tests;
