//! What the commands of the program share: text that is gathered and written in large pieces, how a
//! command ended, the loop over the beats of a capture or of a file of levels, and the loop over lines.
#![tactic(auto)]

mod driver;
mod laws;
mod line_driver;
mod line_task;
mod opening;
mod outcome;
mod output;
mod task;

pub use driver::drive;
pub use laws::the_input_decides;
pub use line_driver::drive_lines;
pub use line_task::LineTask;
pub use opening::{open_capture, open_levels};
pub use outcome::Outcome;
pub use output::Output;
pub use task::Task;

/// The number of octets from which on an input is too long.
pub const LIMIT: u64 = 1 << 40;
