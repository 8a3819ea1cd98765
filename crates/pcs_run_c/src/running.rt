// A run of the program over memory.
ghost use Rattle.std.specs.Prelude.{◌≡◌, ◌&&◌, nat_le, length, take, drop, min, map, string_bytes, IfOk, if◌then◌else◌};
ghost use Rattle.pcs_top.specs.Statuses.{number_of};
ghost use Rattle.pcs_watch.specs.Watching.{seen as watched};
ghost use Rattle.pcs_run_c.specs.Words.{words_in};
ghost use Rattle.pcs_run_c.specs.Running.{HasRun, four_watchers};

use crate::words::words_of;
use pcs_io::{MemSink, PureSource};
use pcs_top::{Status, run};
use pcs_watch::{Clean, Lanes, Totals, Watcher, Worst};
use std::alloc::{AllocError, Global};

// The octets that there is room for on the notes.
const LINE: usize = 64;

/// What a run left behind.
#[derive(Drop)]
pub struct Ran {
    status: Status,
    pub sink: MemSink,
    pub notes: MemSink,
}

impl Ran {
    /// The number of its status, or that of a failed write where the text doesn't fit into so much room
    /// or the line into its own: no clause of `run` says that a sink keeps its room.
    pub fn number_within(&self, room: usize) -> u8
        ensures { result ≡ (if nat_le (length self.now.sink.held) room && nat_le (length self.now.notes.held) 64 then number_of self.now.status else 4) }
    {
        if self.sink.held().len() <= room && self.notes.held().len() <= LINE {
            self.status.number()
        } else {
            Status::WriteFault.number()
        }
    }
}

/// Runs the program over memory.
pub fn run_over(alloc: Global, words: &[u8], input: &[u8], room: usize) -> Result<Ran, AllocError>
    ensures { IfOk result (λ ran. HasRun four_watchers (words_in words.now) input.now ran.sink.held ran.notes.held ran.status) }
{
    let words = words_of(alloc, words)?;
    run_watched(alloc, words, input, room)
}

// Runs the words with the four watchers, in the order of their lines.
fn run_watched(
    alloc: Global,
    words: Vec<String>,
    input: &[u8],
    room: usize,
) -> Result<Ran, AllocError>
    ensures { IfOk result (λ ran. HasRun four_watchers (map string_bytes words.items) input.now ran.sink.held ran.notes.held ran.status) }
{
    let mut watchers: Vec<Box<dyn Watcher>> = Vec::new(alloc);
    watchers.push(Box::new(alloc, Totals::new())?)?;
    watchers.push(Box::new(alloc, Worst::new())?)?;
    watchers.push(Box::new(alloc, Lanes::new())?)?;
    watchers.push(Box::new(alloc, Clean::new())?)?;
    run_words(alloc, words, input, room, watchers)
}

// Runs the words with these watchers over a source of the input, a sink with so much room, and notes.
fn run_words(
    alloc: Global,
    words: Vec<String>,
    input: &[u8],
    room: usize,
    watchers: Vec<Box<dyn Watcher>>,
) -> Result<Ran, AllocError>
    requires { map (watched label tally after leaves) watchers.items ≡ four_watchers }
    ensures { IfOk result (λ ran. HasRun four_watchers (map string_bytes words.items) input.now ran.sink.held ran.notes.held ran.status) }
{
    let mut source = PureSource::new(input.to_vec(alloc)?, usize::MAX);
    let mut sink = MemSink::new(alloc, room, usize::MAX, Vec::new(alloc))?;
    let mut notes = MemSink::new(alloc, LINE, usize::MAX, Vec::new(alloc))?;
    let status = run(alloc, words, &mut source, &mut sink, &mut notes, watchers);
    Ok(Ran {
        status,
        sink,
        notes,
    })
}

/// Puts as many octets as there is room for at the front of the slice, and answers how many.
pub fn put(into: &mut [u8], octets: &[u8]) -> usize
    ensures count { result ≡ min (length into.new) (length octets.now) }
    ensures front { take result into.new ≡ take result octets.now }
    ensures rest { drop result into.new ≡ drop result into.old }
    ensures room { length into.new ≡ length into.old }
{
    let count = into.len().min(octets.len());
    into[..count].copy_from_slice(&octets[..count]);
    count
}
