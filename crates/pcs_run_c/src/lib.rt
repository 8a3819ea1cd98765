//! The whole program over memory, for C.
#![tactic(auto)]

mod running;
mod words;

ghost use Rattle.std.specs.Prelude.{◌≡◌, ◌≤◌, length, take, drop};
ghost use Rattle.pcs_run_c.specs.Running.{Answers};
ghost use Rattle.pcs_run_c.specs.Decoding.{Headline, AnyDamage};

use crate::running::{put, run_over};
use pcs_top::Status;
use std::alloc::Global;

/// Runs the program on the words, each ended by a zero octet, the program's own name left out. Its
/// standard input is `input`. What it writes to standard output and to standard error is put at the
/// front of `output` and `line`, `written` and `noted` octets. Answers the exit status, which is
/// 4 where `output` has no room for all, and 5 where there is no memory.
#[unsafe(no_mangle)]
pub extern "C" fn pcs_run(
    alloc: Global,
    words: &[u8],
    input: &[u8],
    output: &mut [u8],
    written: &mut usize,
    line: &mut [u8; 64],
    noted: &mut usize,
) -> u8
    ensures ran { Answers words.now input.now (length output.old) (take written.new output.new) (take noted.new line.new) result }
    ensures headline { Headline words.now input.now (take written.new output.new) result }
    ensures any_damage { AnyDamage words.now input.now (take written.new output.new) result }
    ensures output { written.new ≤ length output.new }
    ensures line { noted.new ≤ 64 }
    ensures rest_of_output { drop written.new output.new ≡ drop written.new output.old }
    ensures rest_of_line { drop noted.new line.new ≡ drop noted.new line.old }
{
    let room = output.len();
    *written = 0;
    *noted = 0;
    match run_over(alloc, words, input, room) {
        Ok(ran) => {
            *written = put(output, ran.sink.held());
            *noted = put(line, ran.notes.held());
            ran.number_within(room)
        }
        Err(_) => Status::NoMemory.number(),
    }
}
