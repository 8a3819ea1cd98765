//! Laws of what the commands write, over their definitions alone. The functions do nothing.

ghost use Rattle.pcs_late.specs.Laws.{CapturesAreCarried, PcapDecides};

/// The levels of a capture are a file of levels with its period and skew, and at phase 0 they become a
/// capture with this period and skew and the same beats.
pub fn captures_are_carried()
    ensures { CapturesAreCarried }
{}

/// Two runs of `pcap` that are given the same words and input, of at most 2^40 octets, end in the same
/// way, unless a stream failed or there was no memory.
pub fn pcap_decides()
    ensures { PcapDecides }
{}
