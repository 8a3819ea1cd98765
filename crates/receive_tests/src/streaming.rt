// Captures as streams: reads and writes that fail, the bits that a receiver holds, and a long one.
ghost use Rattle.std.specs.Prelude.{◌≡◌, ◌<◌, ◌+◌, ◌^◌};
ghost use Rattle.pcs_receive.specs.State.{IsDrained};

use memory_runs::{Ran, capture_of_a_frame, run_on, skewed};
use pcs_io::{MemSink, MemSource};
use pcs_receive::{Receiver, Want};
use pcs_top::Status;
use std::alloc::{AllocError, Global};
use std::test::Fail;

const FRAME: &'static [u8] = b"010203\n";

// `decode` of an input by reads of 1024 octets, some of which fail, and of whose writes some fail.
fn decode_failing(
    alloc: Global,
    input: Vec<u8>,
    reads: &[u64],
    writes: &[u64],
    notes: &[u64],
) -> Result<Ran, AllocError> {
    let source = MemSource::new(input, 1024, reads.to_vec(alloc)?);
    let sink = MemSink::new(alloc, 64, 7, writes.to_vec(alloc)?)?;
    let notes = MemSink::new(alloc, 64, 64, notes.to_vec(alloc)?)?;
    run_on(alloc, "decode", source, sink, notes)
}

// The frame is written before the read behind it, and not again.
#[test]
fn reads_and_writes_fail(rt: HostRuntime) -> Result<(), Fail> {
    let alloc = rt.alloc();
    for call in 1..8u64 {
        let ran = decode_failing(alloc, capture_of_a_frame(alloc, 2)?, &[call], &[], &[])?;
        let written = if call < 5 { b"".as_slice() } else { FRAME };
        assert!(rt; ran.status == Status::ReadFault);
        assert_eq!(rt; ran.sink.held(), written);
    }
    let ran = decode_failing(alloc, capture_of_a_frame(alloc, 2)?, &[], &[1], &[])?;
    assert!(rt; ran.status == Status::WriteFault);
    assert!(rt; ran.sink.held().is_empty());
    let ran = decode_failing(alloc, Vec::new(alloc), &[], &[], &[1])?;
    assert!(rt; ran.status == Status::NotesFault { instead: 7 });
    Ok(())
}

// Takes a beat and gives its events, and answers how many bits are held then.
fn hear(receiver: &mut Receiver, beat: [u8; 16]) -> u64
    requires beats { receiver.old.aligner.beats < 2 ^ 40 }
    requires drained { IsDrained receiver.old }
    ensures drained { IsDrained receiver.new }
    ensures beats { receiver.new.aligner.beats ≡ receiver.old.aligner.beats + 1 }
{
    receiver.take(beat);
    let held = receiver.held();
    while let Some(event) = receiver.next() {}
    held
}

// The most bits that a receiver holds while it takes the first thousand beats of a capture.
fn most_held(receiver: &mut Receiver, capture: &[u8]) -> u64
    requires beats { receiver.old.aligner.beats ≡ 0 }
    requires drained { IsDrained receiver.old }
{
    let mut most = 0;
    for i in 0..(capture.len() / 16).min(1000) {
        let mut beat = [0; 16];
        beat.copy_from_slice(&capture[16 * i..16 * i + 16]);
        most = most.max(hear(receiver, beat));
    }
    most
}

// A late lane, with as much skew as there may be, and none.
#[test]
fn few_bits_are_held(rt: HostRuntime) -> Result<(), Fail> {
    let alloc = rt.alloc();
    let capture = capture_of_a_frame(alloc, 2)?;
    let late = skewed(alloc, &capture, 339)?;
    let mut receiver = Receiver::open(alloc, 1, 339, Want::Frames)?;
    let beats = late.get(16..).unwrap_or(&[]);
    assert!(rt; most_held(&mut receiver, beats) <= 16 * (680 + 339 + 1024));
    Ok(())
}

// Sixty frames of three lengths by turns, more than a buffer has room for.
#[test]
fn many_frames_come_back(rt: HostRuntime) -> Result<(), Fail> {
    let alloc = rt.alloc();
    let mut frames = String::new(alloc);
    let mut lines = String::new(alloc);
    for length in [64, 1518, 9018] {
        let frame = "5a".repeat(alloc, length)?;
        frames.push_str(&frame)?;
        frames.push_str("\n")?;
        lines.push_str("2 ")?;
        lines.push_str(&frame)?;
        lines.push_str("\n")?;
    }
    let frames = frames.repeat(alloc, 20)?;
    let source = MemSource::new(
        lines.repeat(alloc, 20)?.into_bytes(),
        65536,
        Vec::new(alloc),
    );
    let sink = MemSink::new(alloc, 500_000, 65536, Vec::new(alloc))?;
    let notes = MemSink::new(alloc, 64, 64, Vec::new(alloc))?;
    let sent = run_on(
        alloc,
        "encode --period 64 --lead 2 --tail 0",
        source,
        sink,
        notes,
    )?;
    assert!(rt; sent.status == Status::Done);
    let source = MemSource::new(sent.sink.held().to_vec(alloc)?, 65536, Vec::new(alloc));
    let sink = MemSink::new(alloc, 500_000, 65536, Vec::new(alloc))?;
    let notes = MemSink::new(alloc, 64, 64, Vec::new(alloc))?;
    let ran = run_on(alloc, "decode", source, sink, notes)?;
    assert!(rt; ran.status == Status::Done);
    assert_eq!(rt; ran.sink.held(), frames.as_bytes());
    Ok(())
}
