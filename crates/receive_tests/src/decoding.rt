// Captures to frames, and to captures of version 2.
use memory_runs::{
    Burst, capture_of_a_frame, digest_of, invert, run_over, skewed, turned_round, written,
};
use std::test::Fail;

const LINE: &'static str = "1 010203\n";

const FRAME: &'static [u8] = b"010203\n";

const THREE_PERIODS: &'static str = "encode --period 1 --lead 2 --tail 1";

// What `decode` is to do with the capture of some lines, of which bits were inverted: the octets on
// the sink, the number of the status and the line on the notes.
#[derive(Drop)]
struct Row {
    sending: &'static str,
    lines: &'static str,
    bursts: &'static [Burst],
    written: &'static [u8],
    number: u8,
    note: &'static [u8],
}

const ROWS: [Row; 11] = [
    Row {
        sending: THREE_PERIODS,
        lines: LINE,
        bursts: &[],
        written: FRAME,
        number: 0,
        note: b"",
    },
    // The frame stands in the first payload wide, of which nothing is given.
    Row {
        sending: "encode --period 1 --lead 1 --tail 1",
        lines: LINE,
        bursts: &[],
        written: b"",
        number: 0,
        note: b"",
    },
    // Fifteen symbols of A and of B are wrong, and then sixteen of A.
    Row {
        sending: THREE_PERIODS,
        lines: LINE,
        bursts: &[(0, 1500, 300)],
        written: FRAME,
        number: 0,
        note: b"",
    },
    Row {
        sending: THREE_PERIODS,
        lines: LINE,
        bursts: &[(0, 1500, 310)],
        written: b"",
        number: 0,
        note: b"",
    },
    // Three nibbles of a marker differ, and then four.
    Row {
        sending: "encode --period 1 --lead 3 --tail 1",
        lines: LINE,
        bursts: &[(0, 0, 1), (0, 4, 1), (0, 8, 1)],
        written: FRAME,
        number: 0,
        note: b"",
    },
    Row {
        sending: "encode --period 1 --lead 3 --tail 1",
        lines: LINE,
        bursts: &[(0, 0, 1), (0, 4, 1), (0, 8, 1), (0, 12, 1)],
        written: FRAME,
        number: 0,
        note: b"",
    },
    // Three bad pairs in a row, and another alignment.
    Row {
        sending: "encode --period 1 --lead 8 --tail 1",
        lines: LINE,
        bursts: &[(0, 1500, 310), (0, 2180, 310), (0, 2860, 310)],
        written: FRAME,
        number: 0,
        note: b"",
    },
    // No beats, and beats that are too few.
    Row {
        sending: "encode --period 1 --lead 0 --tail 0",
        lines: "",
        bursts: &[],
        written: b"",
        number: 10,
        note: b"pcs: not aligned\n",
    },
    Row {
        sending: "encode --period 1 --lead 1 --tail 0",
        lines: "",
        bursts: &[],
        written: b"",
        number: 10,
        note: b"pcs: not aligned\n",
    },
    // An ordered set goes before the frame.
    Row {
        sending: THREE_PERIODS,
        lines: "1 @000001\n1 010203\n",
        bursts: &[],
        written: FRAME,
        number: 0,
        note: b"",
    },
    // A capture of version 2.
    Row {
        sending: "encode --form 2 --period 1 --lead 2 --tail 1",
        lines: LINE,
        bursts: &[],
        written: FRAME,
        number: 0,
        note: b"",
    },
];

#[test]
fn rows_of_frames(rt: HostRuntime) -> Result<(), Fail> {
    let alloc = rt.alloc();
    for row in &ROWS {
        let mut capture = written(alloc, row.sending, row.lines.as_bytes())?;
        invert(&mut capture, row.bursts);
        for piece in [1, 65536] {
            let ran = run_over(alloc, "decode", &capture, piece)?;
            assert_eq!(rt; ran.sink.held(), row.written);
            assert_eq!(rt; ran.status.number(), row.number);
            assert_eq!(rt; ran.notes.held(), row.note);
        }
    }
    Ok(())
}

// Lanes in another order, and lanes that are late by as much as is allowed and by one bit more.
#[test]
fn lanes_are_moved(rt: HostRuntime) -> Result<(), Fail> {
    let alloc = rt.alloc();
    let capture = capture_of_a_frame(alloc, 2)?;
    for (command, moved, frames, number) in [
        ("decode", turned_round(alloc, &capture)?, FRAME, 0),
        ("decode", skewed(alloc, &capture, 339)?, FRAME, 0),
        ("decode", skewed(alloc, &capture, 340)?, b"".as_slice(), 10),
        (
            "decode --skew 5",
            skewed(alloc, &capture, 6)?,
            b"".as_slice(),
            10,
        ),
    ] {
        let ran = run_over(alloc, command, &moved, 1000)?;
        assert_eq!(rt; ran.sink.held(), frames);
        assert_eq!(rt; ran.status.number(), number);
    }
    Ok(())
}

// A group that begins in the octet in which lanes were lost, but before that place, isn't taken.
#[test]
fn the_hunt_begins_at_its_place(rt: HostRuntime) -> Result<(), Fail> {
    let alloc = rt.alloc();
    let mut capture = capture_of_a_frame(alloc, 8)?;
    invert(
        &mut capture,
        &[(0, 1500, 310), (0, 2180, 310), (0, 2860, 310)],
    );
    let late = turned_round(alloc, &skewed(alloc, &turned_round(alloc, &capture)?, 3)?)?;
    let ran = run_over(alloc, "decode", &late, 1000)?;
    assert_eq!(rt; ran.sink.held(), FRAME);
    assert_eq!(rt; ran.status.number(), 0);
    Ok(())
}

// Seven octets behind the last whole beat.
#[test]
fn captures_are_cut(rt: HostRuntime) -> Result<(), Fail> {
    let alloc = rt.alloc();
    let mut capture = capture_of_a_frame(alloc, 2)?;
    capture.extend_from_slice(b"1234567")?;
    let ran = run_over(alloc, "decode", &capture, 7)?;
    assert_eq!(rt; ran.sink.held(), FRAME);
    assert_eq!(rt; ran.status.number(), 9);
    assert_eq!(rt; ran.notes.held(), b"pcs: 7 octets over\n".as_slice());
    Ok(())
}

#[test]
fn captures_are_migrated(rt: HostRuntime) -> Result<(), Fail> {
    let alloc = rt.alloc();
    let capture = capture_of_a_frame(alloc, 2)?;
    for piece in [1, 65536] {
        let ran = run_over(alloc, "migrate --skew 5", &capture, piece)?;
        let digest = digest_of(alloc, ran.sink.held())?;
        assert_eq!(rt; ran.status.number(), 0);
        assert_eq!(rt; ran.sink.held().len(), 5472);
        assert_eq!(rt;
            digest.as_str(),
            "4a566657f7f3c92c39a11e42187d2061613b2d1ff1d12167cdcdac90ca15ac96"
        );
    }
    Ok(())
}
