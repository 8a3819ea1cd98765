// The markers, and the groups of them.
ghost use Rattle.std.specs.Prelude.{◌≡◌, length, map};
ghost use Rattle.bit_lists.specs.Places.{flat};
ghost use Rattle.marker_table.specs.Groups.{group};
ghost use Rattle.pcs_c.specs.Marker.{IsMarkerOf};
ghost use Rattle.pcs_c.specs.Blocks.{AreWides};

use crate::wide::write_wides;
use marker_table::{Groups, marker};
use pcs_bits::Wide;

/// Writes the marker of a lane, and answers 0. Answers 1, and writes nothing, where there is no such lane.
#[unsafe(no_mangle)]
pub extern "C" fn pcs_marker(lane: u8, octets: &mut [u8; 15]) -> u8
    ensures { IsMarkerOf lane octets.old octets.new result }
{
    if lane >= 16 {
        return 1;
    }
    *octets = marker(lane);
    0
}

/// Writes the eight wides of a group of a line, of which the first has the number 0.
#[unsafe(no_mangle)]
pub extern "C" fn pcs_group(number: u64, wides: &mut [[u64; 5]; 8])
    ensures { AreWides (group number) wides.new }
{
    write_wides(wides, &group(number));
}

// The group with a number. The pad bits, and so the groups, come again after 73 groups.
fn group(number: u64) -> [Wide; 8]
    ensures { flat result ≡ group number }
{
    let mut groups = Groups::new();
    for i in 0..number % 73 {
        groups.next();
    }
    groups.next()
}
