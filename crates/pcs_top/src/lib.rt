//! The top call: all that the program does.
#![tactic(auto)]

mod blocks;
mod channel;
mod columns;
mod decode;
mod encode;
mod event_lines;
mod idle_pairs;
mod impair;
mod laws;
mod listening;
mod migrate;
mod notes;
mod report;
mod status;
mod tallies;
mod teller;
mod top;
mod trial;
mod unblock;

pub use blocks::blocks_opened;
pub use decode::decode_opened;
pub use encode::encode_opened;
pub use laws::{
    captures_are_migrated, columns_fill_pairs, commands_decide, headers_are_kept,
    unblock_undoes_blocks,
};
pub use pcs_words::Cause;
pub use status::Status;
pub use top::run;
pub use unblock::unblock_opened;
