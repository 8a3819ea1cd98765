//! The words of the command line, by `clap`.
#![tactic(auto)]

mod command;
mod items;
pub mod laws;
mod options;
mod refusal;
mod table;
mod words;

pub use command::{
    Command, DemuxOptions, EncodeOptions, MuxOptions, PcapOptions, SkewOptions, TrialOptions,
};
pub use items::Items;
pub use refusal::{Cause, Refusal};
pub use words::read_command;
