// Captures to levels, and levels to captures.
use memory_runs::{capture_of_a_frame, digest_of, run_over, written};
use pcs_io::{BadHeader, BeatIn, Beats, CapFault, LevelsHeader, MemSource};
use pcs_top::Status;
use std::alloc::{AllocError, Global};
use std::test::Fail;

// A command, the header and the first level beat that it writes for the capture of a short frame,
// and the SHA-256 of all that it writes, as another program has them.
#[derive(Drop)]
struct Row {
    command: &'static str,
    beginning: &'static str,
    digest: &'static str,
}

const ROWS: [Row; 2] = [
    Row {
        command: "mux",
        beginning: "50344c560108000000000001000001530000000000000000000000000000000088828882888288828882888288828882",
        digest: "92b5dc976e2bfaaa9e81cf232b405c3444f5d196db381763bf944f95a1613378",
    },
    Row {
        command: "mux --precode",
        beginning: "50344c5601080100000000010000015300000000000000000000000000000000282a282a282a282a282a282a282a282a",
        digest: "27f922b6b3d8d27a4287aa897a056b584f862a9eef81df4818511c21d7620d1b",
    },
];

#[test]
fn rows_of_levels(rt: HostRuntime) -> Result<(), Fail> {
    let alloc = rt.alloc();
    let capture = capture_of_a_frame(alloc, 2)?;
    for row in &ROWS {
        let beginning = hex::decode(alloc, row.beginning)?;
        for piece in [1, 65536] {
            let ran = run_over(alloc, row.command, &capture, piece)?;
            let written = ran.sink.held();
            assert_eq!(rt; ran.status, Status::Done);
            assert_eq!(rt; written.len(), 5472);
            assert!(rt; written.starts_with(&beginning));
            assert_eq!(rt; digest_of(alloc, written)?.as_str(), row.digest);
        }
    }
    Ok(())
}

// What is no header of a capture: a file of levels, another version, too great a skew, and one that
// is cut.
const REFUSED: [(&'static [u8], u8, bool); 4] = [
    (b"P4LV\x01\x08\0\0\0\0\0\x01\0\0\x01\x53", 0, false),
    (b"P4LC\x03\x10\0\x01\0\0\0\0\0\0\0\0", 4, false),
    (
        b"P4LC\x02\x10\0\0\0\0\0\x01\0\0\x01\x54\0\0\0\0\0\0\0\0\0\0\0\0\0\0\0\0",
        12,
        false,
    ),
    (b"P4LC\x02\x10\0\0\0\0\0\x01\0\0\x01\x53\0\0\0\0", 20, true),
];

#[test]
fn no_capture(rt: HostRuntime) -> Result<(), Fail> {
    let alloc = rt.alloc();
    for (input, place, cut) in &REFUSED {
        let ran = run_over(alloc, "mux", input, 7)?;
        let bad = BadHeader {
            place: *place,
            cut: *cut,
        };
        assert_eq!(rt; ran.status, Status::BadHeader(bad));
        assert!(rt; ran.sink.held().is_empty());
    }
    Ok(())
}

// A file of levels with a level beat and three octets over.
const LEVELS: &'static [u8; 51] =
    b"P4LV\x01\x08\x01\0\0\0\0\x01\0\0\x01\x53\0\0\0\0\0\0\0\0\0\0\0\0\0\0\0\0\x28\x2a\x28\x2a\x28\x2a\x28\x2a\x28\x2a\x28\x2a\x28\x2a\x28\x2aabc";

#[test]
fn levels_are_read(rt: HostRuntime) -> Result<(), Fail> {
    let alloc = rt.alloc();
    let mut source = MemSource::new(LEVELS.to_vec(alloc)?, 5, Vec::new(alloc));
    let mut beats = Beats::open(alloc, 1 << 40)?;
    let header = LevelsHeader {
        precode: true,
        period: 1,
        skew: 339,
    };
    let read = beats.levels_header(&mut source);
    assert_eq!(rt; read, Ok(header));
    if read.is_ok() {
        let beat = b"\x28\x2a\x28\x2a\x28\x2a\x28\x2a\x28\x2a\x28\x2a\x28\x2a\x28\x2a";
        assert_eq!(rt; beats.next(&mut source), Ok(BeatIn::Beat(*beat)));
        assert_eq!(rt; beats.next(&mut source), Ok(BeatIn::End { rest: 3 }));
    }
    Ok(())
}

// The header of version 2 of a capture with the period 1 and the greatest skew.
const HEADER: &'static [u8; 32] =
    b"P4LC\x02\x10\0\0\0\0\0\x01\0\0\x01\x53\0\0\0\0\0\0\0\0\0\0\0\0\0\0\0\0";

// A capture with so many beats of octets without order.
fn noise(alloc: Global, beats: usize) -> Result<Vec<u8>, AllocError> {
    let mut capture = HEADER.to_vec(alloc)?;
    let mut state = beats as u64;
    for _ in 0..beats.saturating_mul(16) {
        state = state
            .wrapping_mul(6364136223846793005)
            .wrapping_add(1442695040888963407);
        capture.push((state >> 56) as u8)?;
    }
    Ok(capture)
}

// Whether a capture of version 2 comes back from its levels.
fn comes_back(alloc: Global, command: &str, capture: &[u8]) -> Result<bool, AllocError> {
    let levels = run_over(alloc, command, capture, 7)?;
    let back = run_over(alloc, "demux", levels.sink.held(), 65536)?;
    Ok(back.status == Status::Done && back.sink.held() == capture)
}

#[test]
fn captures_come_back(rt: HostRuntime) -> Result<(), Fail> {
    let alloc = rt.alloc();
    let sending = "encode --form 2 --period 1 --lead 2 --tail 1";
    let sent = written(alloc, sending, b"1 010203\n")?;
    for command in ["mux", "mux --precode"] {
        assert!(rt; comes_back(alloc, command, &sent)?);
        for beats in 0..12 {
            assert!(rt; comes_back(alloc, command, &noise(alloc, beats)?)?);
        }
    }
    let cut = run_over(alloc, "demux", LEVELS.as_slice(), 5)?;
    assert_eq!(rt; cut.status, Status::Cut { rest: 3 });
    assert!(rt; cut.sink.held().starts_with(HEADER.as_slice()));
    assert!(rt; cut.sink.held().ends_with([0x9a; 16].as_slice()));
    assert_eq!(rt; cut.sink.held().len(), 48);
    Ok(())
}

const LATE: &'static str = "\
aligned 1359 1032547698badcfe
pair 0 0 0 0,0,0,0,0,0,0,0,0,0,0,0,0,0,0,0
pair 1 0 0 0,0,0,0,0,0,0,0,0,0,0,0,0,0,0,0
frame 3
pair 2 0 0 0,0,0,0,0,0,0,0,0,0,0,0,0,0,0,0
";

// Lanes that are read one bit late in pairs are exchanged in pairs, and half of them lock one period
// later.
#[test]
fn late_lanes_align(rt: HostRuntime) -> Result<(), Fail> {
    let alloc = rt.alloc();
    let levels = written(alloc, "mux", &capture_of_a_frame(alloc, 3)?)?;
    let late = written(alloc, "demux --phase 255", &levels)?;
    assert_eq!(rt;
        written(alloc, "report", &late)?.as_slice(),
        LATE.as_bytes()
    );
    assert_eq!(rt;
        written(alloc, "decode", &late)?.as_slice(),
        b"010203\n".as_slice()
    );
    Ok(())
}
