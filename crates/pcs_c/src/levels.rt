// The levels of PAM4 on eight level lanes.
ghost use Rattle.std.specs.Prelude.{◌==◌, not};
ghost use Rattle.pcs_c.specs.Levels.{AreLevelsOf, IsBeatOf};

use pma_link::{coded_beat, plain_beat};

/// Replaces the levels by the level beat of a beat after them. With a `precode` of 0 the levels are Gray
/// numbers, and otherwise they are precoded.
#[unsafe(no_mangle)]
pub extern "C" fn pcs_encode_levels(precode: u8, beat: &[u8; 16], levels: &mut [u8; 16])
    ensures { AreLevelsOf (not (precode == 0)) levels.old beat.now levels.new }
{
    *levels = coded_beat(precode != 0, *levels, *beat);
}

/// Writes the beat that a level beat carries after the level beat `last`.
#[unsafe(no_mangle)]
pub extern "C" fn pcs_decode_levels(
    precode: u8,
    last: &[u8; 16],
    levels: &[u8; 16],
    beat: &mut [u8; 16],
)
    ensures { IsBeatOf (not (precode == 0)) last.now levels.now beat.new }
{
    *beat = plain_beat(precode != 0, *last, *levels);
}
