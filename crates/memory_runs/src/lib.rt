//! What tests of the top call share: runs over memory, and damage of a capture.
#![tactic(auto)]

mod damage;
mod runs;

pub use damage::{Burst, invert, skewed, turned_round};
pub use runs::{
    Ran, capture_of_a_frame, digest_of, input_of, run_on, run_over, run_watched, run_with,
    words_of, written,
};
