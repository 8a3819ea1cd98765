//! Reports of pairs, and what watches them.
#![tactic(auto)]

ghost use Rattle.std.specs.Prelude.{◌≡◌, ◌<◌, ◌≤◌, ◌^◌};
ghost use Rattle.pcs_watch.specs.Tallies.{corrected, failed};

mod clean;
mod lanes;
pub mod laws;
#[cfg(test)]
mod tests;
mod totals;
mod until;
mod watcher;
mod worst;

pub use clean::Clean;
pub use lanes::Lanes;
pub use totals::Totals;
pub use until::Until;
pub use watcher::{Stay, Watcher, tell_all};
pub use worst::Worst;

/// What correction did to a pair.
#[derive(Clone, Copy, Debug, PartialEq, Eq)]
pub struct Report {
    /// The number of the pair, counted from 0 at each alignment.
    pub pair: u64,
    /// How many symbols were replaced in word A; `None` where no codeword was near.
    pub a: Option<u8>,
    /// The same of word B.
    pub b: Option<u8>,
    /// How many symbols were replaced in each lane, by lane number.
    pub wrong: [u16; 16],
}

// How many symbols were corrected in a word.
fn corrected_in(word: Option<u8>) -> u64
    ensures count { result ≡ corrected word }
    ensures small { result < 2 ^ 8 }
{
    match word {
        Some(count) => u64::from(count),
        None => 0,
    }
}

// 1 for a word without a codeword.
fn failed_in(word: Option<u8>) -> u64
    ensures count { result ≡ failed word }
    ensures small { result ≤ 1 }
{
    match word {
        Some(_) => 0,
        None => 1,
    }
}
