// Which of many frames a capture gives back, by the places of their columns.
use memory_runs::{Burst, invert, run_over, skewed, turned_round, written};
use std::alloc::{AllocError, Global};
use std::ops::Range;
use std::test::Fail;

// Two hundred frames of two columns each, with a column of Idle behind each but where one is left out
// for a group. They begin with the first pair, and fill 472 of its columns.
const FRAMES: Range<u8> = 0..200;

const SENDING: &'static str = "encode --period 1 --lead 0 --tail 1";

// Behind the second group, at column 128, the first payload wide ends at column 132, where frame 56 is
// the first that begins.
const NAMED: Range<u8> = 56..200;

const WRONG_SECOND_MARKER: [Burst; 4] = [(0, 680, 1), (0, 684, 1), (0, 688, 1), (0, 692, 1)];

// The frames of a capture of which bits were inverted: two stretches of numbers.
#[derive(Drop)]
struct Row {
    bursts: &'static [Burst],
    first: Range<u8>,
    second: Range<u8>,
}

const ROWS: [Row; 5] = [
    Row {
        bursts: &[],
        first: 56..107,
        second: 107..200,
    },
    // Fifteen symbols of each codeword of the third pair are wrong.
    Row {
        bursts: &[(0, 1500, 300)],
        first: 56..107,
        second: 107..200,
    },
    // Sixteen of one codeword: the columns 256 to 383 of that pair are lost, and the four behind them.
    Row {
        bursts: &[(0, 1500, 310)],
        first: 56..107,
        second: 162..200,
    },
    // Three nibbles of the first marker of lane 0 differ.
    Row {
        bursts: &[(0, 0, 1), (0, 4, 1), (0, 8, 1)],
        first: 56..107,
        second: 107..200,
    },
    // Four nibbles of its second marker: the lane is found by the third and the fourth, and the
    // frames are those behind the fourth group, from column 388 on.
    Row {
        bursts: &WRONG_SECOND_MARKER,
        first: 162..162,
        second: 162..200,
    },
];

#[test]
fn frames_by_their_places(rt: HostRuntime) -> Result<(), Fail> {
    let alloc = rt.alloc();
    for row in &ROWS {
        let mut capture = capture_of_frames(alloc)?;
        invert(&mut capture, row.bursts);
        let mut text = frame_lines(alloc, "", row.first.clone()?)?;
        text.push_str(&frame_lines(alloc, "", row.second.clone()?)?)?;
        let ran = run_over(alloc, "decode", &capture, 1000)?;
        assert_eq!(rt; ran.sink.held(), text.as_bytes());
        assert_eq!(rt; ran.status.number(), 0);
    }
    Ok(())
}

// Lanes in another order, and one that is late by as much as is allowed.
#[test]
fn frames_of_moved_lanes(rt: HostRuntime) -> Result<(), Fail> {
    let alloc = rt.alloc();
    let capture = capture_of_frames(alloc)?;
    let text = frame_lines(alloc, "", NAMED)?;
    for moved in [
        turned_round(alloc, &capture)?,
        skewed(alloc, &capture, 339)?,
    ] {
        let ran = run_over(alloc, "decode", &moved, 1000)?;
        assert_eq!(rt; ran.sink.held(), text.as_bytes());
        assert_eq!(rt; ran.status.number(), 0);
    }
    Ok(())
}

// Where four nibbles of the second marker of lane 0 differ, the lane is found a group later or never.
#[test]
fn a_wrong_second_marker(rt: HostRuntime) -> Result<(), Fail> {
    let alloc = rt.alloc();
    let frames = frame_lines(alloc, "1 ", 0..1)?;
    for (sending, text, number) in [
        ("encode --period 1 --lead 1 --tail 0", "", 10),
        ("encode --period 1 --lead 2 --tail 1", "", 0),
        ("encode --period 1 --lead 4 --tail 1", "00\n", 0),
    ] {
        let mut capture = written(alloc, sending, frames.as_bytes())?;
        invert(&mut capture, &WRONG_SECOND_MARKER);
        let ran = run_over(alloc, "decode", &capture, 1000)?;
        assert_eq!(rt; ran.sink.held(), text.as_bytes());
        assert_eq!(rt; ran.status.number(), number);
    }
    Ok(())
}

// Where lane 0 carries what lane 1 does, its first matching marker pair isn't true.
#[test]
fn a_lane_that_comes_twice(rt: HostRuntime) -> Result<(), Fail> {
    let alloc = rt.alloc();
    let mut twice = capture_of_frames(alloc)?;
    let capture = twice.to_vec(alloc)?;
    let other = capture.iter().skip(17).step_by(16);
    for (octet, from) in twice.iter_mut().skip(16).step_by(16).zip(other) {
        *octet = *from;
    }
    let ran = run_over(alloc, "decode", &twice, 1000)?;
    assert_eq!(rt; ran.sink.held(), b"".as_slice());
    assert_eq!(rt; ran.status.number(), 10);
    Ok(())
}

// The capture of all frames.
fn capture_of_frames(alloc: Global) -> Result<Vec<u8>, AllocError> {
    let lines = frame_lines(alloc, "1 ", FRAMES)?;
    written(alloc, SENDING, lines.as_bytes())
}

// A line for each of these frames, which has its number as its one octet, with a gap before it or none.
fn frame_lines(alloc: Global, gap: &str, frames: Range<u8>) -> Result<String, AllocError> {
    let mut lines = String::new(alloc);
    for number in frames {
        lines.push_str(gap)?;
        lines.push_str(&hex::encode(alloc, &[number])?)?;
        lines.push_str("\n")?;
    }
    Ok(lines)
}
