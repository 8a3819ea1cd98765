// That the input decides how a command ends, and what the input is, over the definitions alone.
ghost use Rattle.pcs_io.specs.FrameLines.{frame_line_at};
ghost use Rattle.pcs_io.specs.BlockLines.{block_line_at};
ghost use Rattle.pcs_io.specs.SymbolLines.{symbol_line_at};
ghost use Rattle.pcs_io.specs.TextLines.{text_line_at};
ghost use Rattle.pcs_io.specs.Captures.{header_at, levels_header_at};
ghost use Rattle.pcs_drive.specs.Deciding.{LinesDecide, BeatsDecide, CapturesDecide, LevelsDecide, GaveInput, LeftInput};

/// Two runs of a command that are given the same input end in the same way, unless a stream failed
/// or there was no memory. So each refusal comes exactly where its cause is.
pub fn the_input_decides()
    ensures frames { LinesDecide frame_line_at }
    ensures blocks { LinesDecide block_line_at }
    ensures symbols { LinesDecide symbol_line_at }
    ensures texts { LinesDecide text_line_at }
    ensures captures { CapturesDecide }
    ensures levels { LevelsDecide }
    ensures beats { BeatsDecide header_at }
    ensures level_beats { BeatsDecide levels_header_at }
{}

/// The input of a run is what its reads gave; and where the source tells what it has left, also what
/// it had left before.
pub fn what_the_input_is()
    ensures gave { GaveInput }
    ensures left { LeftInput }
{}
