//! Commands beside those of the PCS: its lanes over levels, another code, and packet captures.
#![tactic(auto)]

mod codewords;
mod demultiplexer;
mod kr_text;
pub mod laws;
mod multiplexer;
mod packer;
mod packets;
mod pcap_outcome;
mod unpacker;

pub use codewords::{kr, kr_opened};
pub use demultiplexer::demux;
pub use multiplexer::mux;
pub use packer::pcap_write_opened;
pub use packets::pcap;
pub use pcap_outcome::PcapOutcome;
pub use unpacker::pcap_opened;
