// The scrambler. Of a line its last 58 bits count: they are the lowest of a number, the newest highest of all.
ghost use Rattle.std.specs.Prelude.{◌≡◌, ◌<◌, ◌^◌, ◌++◌};
ghost use Rattle.bit_lists.specs.Bits.{bits};
ghost use Rattle.pcs_bits.specs.Wides.{wide_bits};
ghost use Rattle.scramble58.specs.Scrambling.{last58, scrambled, descrambled};
ghost use Rattle.pcs_c.specs.Blocks.{wide_meant, IsWide};

use crate::wide::wide_meant;
use scramble58::{Descrambler, Scrambler};

/// Scrambles a wide after a line, and leaves the line after it.
#[unsafe(no_mangle)]
pub extern "C" fn pcs_scramble(line: &mut u64, wide: &mut [u64; 5])
    ensures wide { IsWide (scrambled (bits 58 line.old) (wide_meant wide.old)) wide.new }
    ensures line { bits 58 line.new ≡ last58 (bits 58 line.old ++ wide_bits wide.new) }
    ensures small { line.new < 2 ^ 58 }
{
    let mut scrambler = Scrambler::behind(*line << 6);
    *wide = scrambler.next(wide_meant(wide)).words();
    *line = scrambler.last() >> 6;
}

/// Descrambles a wide after a line, and leaves the line after it.
#[unsafe(no_mangle)]
pub extern "C" fn pcs_descramble(line: &mut u64, wide: &mut [u64; 5])
    ensures wide { IsWide (descrambled (bits 58 line.old) (wide_meant wide.old)) wide.new }
    ensures line { bits 58 line.new ≡ last58 (bits 58 line.old ++ wide_meant wide.old) }
    ensures small { line.new < 2 ^ 58 }
{
    let mut descrambler = Descrambler::behind(*line << 6);
    *wide = descrambler.next(wide_meant(wide)).words();
    *line = descrambler.last() >> 6;
}
