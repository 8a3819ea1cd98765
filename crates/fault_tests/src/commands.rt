// The commands, each with a file of a few pairs or lines that it reads.
use memory_runs::{Ran, capture_of_a_frame, input_of, invert, run_watched, written};
use pcs_io::{MemSink, MemSource};
use std::alloc::{AllocError, Global};

/// What a command reads.
#[derive(Clone, Copy, PartialEq, Eq)]
pub enum Input {
    Frames,
    Blocks,
    Symbols,
    Capture,
    Levels,
    Packets,
    Text,
    Nothing,
}

/// A command, what it reads, and how many octets a read gives and a write takes.
pub type Row = (&'static str, Input, usize, usize);

/// Where frames are read, a read gives a line.
pub const ROWS: [Row; 14] = [
    ("blocks", Input::Frames, 35, 500),
    (
        "encode --period 1 --lead 1 --tail 1",
        Input::Frames,
        35,
        700,
    ),
    ("unblock", Input::Blocks, 501, 100),
    ("kr", Input::Symbols, 400, 300),
    ("decode", Input::Capture, 500, 3),
    ("report", Input::Capture, 500, 25),
    ("columns", Input::Capture, 500, 500),
    (
        "impair order=fedcba9876543210 flip=3:700",
        Input::Capture,
        500,
        500,
    ),
    ("migrate --skew 5", Input::Capture, 500, 500),
    ("mux --precode", Input::Capture, 500, 500),
    ("demux --phase 1", Input::Levels, 500, 500),
    ("pcap", Input::Packets, 50, 20),
    ("pcap --write", Input::Text, 33, 30),
    ("trial 7 0", Input::Nothing, 500, 9),
];

/// The octets of an input.
pub fn octets_of(alloc: Global, input: Input) -> Result<Vec<u8>, AllocError> {
    let lines = "2 00112233445566778899aabbccddeeff\n".repeat(alloc, 60)?;
    let text = "00112233445566778899aabbccddeeff\n".repeat(alloc, 60)?;
    match input {
        Input::Frames => Ok(lines.into_bytes()),
        Input::Blocks => written(alloc, "blocks", lines.as_bytes()),
        Input::Symbols => {
            let parts = [("001", 514), ("\n", 1), ("000", 527), ("001\n", 1)];
            Ok(input_of(alloc, &parts)?.into_bytes())
        }
        Input::Capture => capture(alloc),
        Input::Levels => written(alloc, "mux", &capture(alloc)?),
        Input::Packets => written(alloc, "pcap --write", text.as_bytes()),
        Input::Text => Ok(text.into_bytes()),
        Input::Nothing => Ok(Vec::new(alloc)),
    }
}

// A capture of four pairs, in one of which fifteen symbols of each word are wrong.
fn capture(alloc: Global) -> Result<Vec<u8>, AllocError> {
    let mut capture = capture_of_a_frame(alloc, 2)?;
    invert(&mut capture, &[(0, 1500, 300)]);
    Ok(capture)
}

/// How many reads of a piece there are, with the one at the end; `trial` reads nothing.
pub fn reads_of(octets: &[u8], piece: usize) -> usize {
    if octets.is_empty() {
        return 0;
    }
    octets.len().div_ceil(piece.max(1)).saturating_add(1)
}

/// Runs a command with the four watchers over a sink of so much room, where these calls of read and of
/// write fail.
pub fn run_failing(
    alloc: Global,
    row: &Row,
    input: &[u8],
    room: usize,
    reads: &[u64],
    writes: &[u64],
) -> Result<Ran, AllocError> {
    let (command, _, read, write) = row;
    let source = MemSource::new(input.to_vec(alloc)?, (*read).max(1), reads.to_vec(alloc)?);
    let sink = MemSink::new(alloc, room, (*write).max(1), writes.to_vec(alloc)?)?;
    let notes = MemSink::new(alloc, 64, 7, Vec::new(alloc))?;
    run_watched(alloc, command, source, sink, notes)
}

/// The text of an input as far as it goes: without the octets that only the end of the input brings.
pub fn text_of(alloc: Global, row: &Row, front: &[u8]) -> Result<Vec<u8>, AllocError> {
    let (command, input, _, _) = row;
    let mut octets = front.to_vec(alloc)?;
    // Lines go on with an octet that can't stand there.
    if matches!(
        input,
        Input::Frames | Input::Blocks | Input::Symbols | Input::Text
    ) {
        octets.push(b'x')?;
    }
    let mut text = written(alloc, command, &octets)?;
    // The last beat of a file of levels comes at its end.
    if *input == Input::Levels && text.len() > 32 {
        text.truncate(text.len() - 16);
    }
    Ok(text)
}
