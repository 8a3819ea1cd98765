//! The layers for C: functions on numbers and arrays, so that a testbench can compare its RTL with
//! them bit by bit. None of them takes memory or keeps a state of its own, and none asks anything of
//! the values that it is given: what is no value of the layer is answered by a status.
#![tactic(auto)]

mod block;
mod code;
mod levels;
mod line;
mod marker;
mod pair;
mod rows;
mod symbols;
mod wide;

pub use block::{pcs_decode_block, pcs_encode_block};
pub use code::{pcs_kr_correct, pcs_kr_encode, pcs_rs_correct, pcs_rs_encode};
pub use levels::{pcs_decode_levels, pcs_encode_levels};
pub use line::{pcs_descramble, pcs_scramble};
pub use marker::{pcs_group, pcs_marker};
pub use pair::{pcs_decode_pair, pcs_encode_pair};
pub use wide::{pcs_join, pcs_split};
