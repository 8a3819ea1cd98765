// The header of a capture or of a file of levels.
ghost use Rattle.std.specs.Prelude.{◌≤◌, ℕ, List, Option, IfOk, IfErr};
ghost use Rattle.pcs_io.specs.Headers.{IsInRange};
ghost use Rattle.pcs_io.specs.LevelsHeaders.{IsLevelsHeader};
ghost use Rattle.pcs_drive.specs.Seen.{reads_only};
ghost use Rattle.pcs_drive.specs.CaptureCommand.{CaptureText, FromCapture, HasOpened, LevelsText, FromLevels, HasOpenedLevels};

use crate::{LIMIT, Outcome};
use pcs_io::{Beats, Header, LevelsHeader, Source};
use std::alloc::Global;

/// Opens a reader of captures and reads the header. `Err` is how the command ends then.
pub fn open_capture<R: Source>(alloc: Global, source: &mut R) -> Result<(Beats, Header), Outcome>
    ensures ok { IfOk result (λ opened. HasOpened opened.0 opened.1 (R.told source.old) (R.told source.new)) }
    ensures range { IfOk result (λ opened. IsInRange opened.1) }
    ensures err { IfErr result (λ outcome. (text : CaptureText) (held : Option (List ℕ)) (writes : ℕ)
        → FromCapture text (reads_only R.told R.ended R.faults source.old source.new held writes) outcome) }
    ensures later { R.faults source.old ≤ R.faults source.new }
{
    let Ok(mut beats) = Beats::open(alloc, LIMIT) else {
        return Err(Outcome::NoMemory);
    };
    match beats.header(source) {
        Ok(header) => Ok((beats, header)),
        Err(fault) => Err(Outcome::from(fault)),
    }
}

/// Opens a reader of a file of levels and reads the header. `Err` is how the command ends then.
pub fn open_levels<R: Source>(
    alloc: Global,
    source: &mut R,
) -> Result<(Beats, LevelsHeader), Outcome>
    ensures ok { IfOk result (λ opened. HasOpenedLevels opened.0 opened.1 (R.told source.old) (R.told source.new)) }
    ensures range { IfOk result (λ opened. IsLevelsHeader opened.1) }
    ensures err { IfErr result (λ outcome. (text : LevelsText) (held : Option (List ℕ)) (writes : ℕ)
        → FromLevels text (reads_only R.told R.ended R.faults source.old source.new held writes) outcome) }
    ensures later { R.faults source.old ≤ R.faults source.new }
{
    match Beats::open(alloc, LIMIT) {
        Ok(mut beats) => match beats.levels_header(source) {
            Ok(header) => Ok((beats, header)),
            Err(fault) => Err(Outcome::from(fault)),
        },
        Err(_) => Err(Outcome::NoMemory),
    }
}
