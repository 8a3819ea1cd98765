// The header of a file of levels.
ghost use Rattle.std.specs.Prelude.{◌≡◌, ◌≤◌, ◌==◌, nat_le, bytes_eq, if◌then◌else◌, length, take, codes, true, false, Ok, IfOk};
ghost use Rattle.pcs_io.specs.LevelsHeaders.{levels_header_octets, levels_header_of, IsLevelsHeader};

use crate::BadHeader;
use crate::header::{range_octets, wrong_at, wrong_range};
use byteorder::{BigEndian, ByteOrder};

/// What the header of a file of levels tells.
#[derive(Clone, Copy, Debug, PartialEq, Eq)]
pub struct LevelsHeader {
    /// The levels are precoded.
    pub precode: bool,
    /// The marker period of the capture in pairs of codewords, 1 to 65,536.
    pub period: u32,
    /// The skew of the capture in bits, at most `most_skew` of the period.
    pub skew: u32,
}

const MAGIC: [u8; 4] = *b"P4LV";

/// The header that the octets are: the magic `P4LV`, version 1, eight lanes, 1 for precoded levels
/// and else 0, a zero, and then the period and the skew as in version 2 of a capture.
#[tactic(auto, unfolding(crate::specs::LevelsHeaders::levels_header_of))]
pub fn read_levels_header(octets: &[u8; 32]) -> Result<LevelsHeader, BadHeader>
    ensures header { result ≡ levels_header_of octets.now }
    ensures range { IfOk result IsLevelsHeader }
{
    if &octets[..4] != MAGIC.as_slice() {
        return Err(wrong_at(0));
    }
    if octets[4] != 1 {
        return Err(wrong_at(4));
    }
    if octets[5] != 8 {
        return Err(wrong_at(5));
    }
    if octets[6] > 1 {
        return Err(wrong_at(6));
    }
    if octets[7] != 0 {
        return Err(wrong_at(7));
    }
    if let Some(place) = wrong_range(octets) {
        return Err(wrong_at(place));
    }
    Ok(LevelsHeader {
        precode: octets[6] == 1,
        period: BigEndian::read_u32(&octets[8..12]),
        skew: BigEndian::read_u32(&octets[12..16]),
    })
}

/// The octets of a header.
#[tactic(auto, unfolding(crate::specs::LevelsHeaders::levels_header_of))]
pub fn write_levels_header(header: &LevelsHeader) -> [u8; 32]
    requires { IsLevelsHeader header.now }
    ensures octets { result ≡ levels_header_octets header.now.precode header.now.period header.now.skew }
    ensures back { levels_header_of result ≡ Ok header.now }
{
    let mut octets = [0; 32];
    octets[..6].copy_from_slice(b"P4LV\x01\x08");
    octets[6] = u8::from(header.precode);
    octets[8..].copy_from_slice(&range_octets(header.period, header.skew));
    octets
}
