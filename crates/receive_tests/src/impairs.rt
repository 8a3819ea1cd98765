// Captures that are damaged, and what is read of them. The lengths and digests are those of another
// program, written apart from this one.
use memory_runs::{capture_of_a_frame, digest_of, run_on, run_over};
use pcs_io::{MemSink, MemSource};
use std::test::Fail;

const FRAME: &'static [u8] = b"010203\n";

// What `impair` is to make of a capture that begins with so many periods of idles: how many octets,
// their SHA-256, and then the report, the frames and the number of the status of both.
#[derive(Drop)]
struct Row {
    lead: usize,
    items: &'static str,
    length: usize,
    digest: &'static str,
    report: &'static str,
    frames: &'static [u8],
    number: u8,
}

const ROWS: [Row; 9] = [
    Row {
        lead: 2,
        items: "order=fedcba9876543210",
        length: 5456,
        digest: "4a072ab48ba984d4c9df6d2b57cbcc5b24612af061587db67e88e027778044c2",
        report: "\
aligned 680 fedcba9876543210
pair 0 0 0 0,0,0,0,0,0,0,0,0,0,0,0,0,0,0,0
pair 1 0 0 0,0,0,0,0,0,0,0,0,0,0,0,0,0,0,0
frame 3
pair 2 0 0 0,0,0,0,0,0,0,0,0,0,0,0,0,0,0,0
",
        frames: FRAME,
        number: 0,
    },
    Row {
        lead: 2,
        items: "skew=0:339",
        length: 6144,
        digest: "86e13249bc881313d31d78e9d803e6c80d9ed1981802a5d984f421982dff0ec4",
        report: "\
aligned 1019 0123456789abcdef
pair 0 0 0 0,0,0,0,0,0,0,0,0,0,0,0,0,0,0,0
pair 1 0 0 0,0,0,0,0,0,0,0,0,0,0,0,0,0,0,0
frame 3
pair 2 0 0 0,0,0,0,0,0,0,0,0,0,0,0,0,0,0,0
",
        frames: FRAME,
        number: 0,
    },
    Row {
        lead: 2,
        items: "skew=0:340",
        length: 6144,
        digest: "349d1d14b9c7612b11ccf344f48d9529fd716f93c98fa573c65e8d70b8a2ba0d",
        report: "failed skew 680 1020\nfailed skew 2040 2380\n",
        frames: b"",
        number: 10,
    },
    Row {
        lead: 2,
        items: "burst=0:1500:300",
        length: 5456,
        digest: "9bbd87798598e0a1d3759863c2fac26fac4f9c4156cd1389e9a8ab33eab3cac3",
        report: "\
aligned 680 0123456789abcdef
pair 0 0 0 0,0,0,0,0,0,0,0,0,0,0,0,0,0,0,0
pair 1 15 15 30,0,0,0,0,0,0,0,0,0,0,0,0,0,0,0
frame 3
pair 2 0 0 0,0,0,0,0,0,0,0,0,0,0,0,0,0,0,0
",
        frames: FRAME,
        number: 0,
    },
    Row {
        lead: 2,
        items: "burst=0:1500:310",
        length: 5456,
        digest: "4bdfa1a05796b8027da4e5017039dca134451a1069de9fe8259659866846a35d",
        report: "\
aligned 680 0123456789abcdef
pair 0 0 0 0,0,0,0,0,0,0,0,0,0,0,0,0,0,0,0
pair 1 - 15 15,0,0,0,0,0,0,0,0,0,0,0,0,0,0,0
pair 2 0 0 0,0,0,0,0,0,0,0,0,0,0,0,0,0,0,0
",
        frames: b"",
        number: 0,
    },
    // Three nibbles of a marker differ, and then four.
    Row {
        lead: 3,
        items: "flip=0:0 flip=0:4 flip=0:8",
        length: 6816,
        digest: "b734e8a72b6b41d3d7fb948b707833077723d7461376990cf50f3209c6028891",
        report: "\
aligned 680 0123456789abcdef
pair 0 0 0 0,0,0,0,0,0,0,0,0,0,0,0,0,0,0,0
pair 1 0 0 0,0,0,0,0,0,0,0,0,0,0,0,0,0,0,0
pair 2 0 0 0,0,0,0,0,0,0,0,0,0,0,0,0,0,0,0
frame 3
pair 3 0 0 0,0,0,0,0,0,0,0,0,0,0,0,0,0,0,0
",
        frames: FRAME,
        number: 0,
    },
    Row {
        lead: 3,
        items: "flip=0:0 flip=0:4 flip=0:8 flip=0:12",
        length: 6816,
        digest: "5b583941ace891295d3694b92d3648b8e7a9eeea2e05f7fb1e9df440007570c5",
        report: "\
aligned 1360 0123456789abcdef
pair 0 0 0 0,0,0,0,0,0,0,0,0,0,0,0,0,0,0,0
pair 1 0 0 0,0,0,0,0,0,0,0,0,0,0,0,0,0,0,0
frame 3
pair 2 0 0 0,0,0,0,0,0,0,0,0,0,0,0,0,0,0,0
",
        frames: FRAME,
        number: 0,
    },
    Row {
        lead: 8,
        items: "burst=0:1500:310 burst=0:2180:310 burst=0:2860:310",
        length: 13616,
        digest: "2adcbf99d216777c297419696ca0601880d980b945e128537a73a0eb04d6efa2",
        report: "\
aligned 680 0123456789abcdef
pair 0 0 0 0,0,0,0,0,0,0,0,0,0,0,0,0,0,0,0
pair 1 - 15 15,0,0,0,0,0,0,0,0,0,0,0,0,0,0,0
pair 2 - 15 15,0,0,0,0,0,0,0,0,0,0,0,0,0,0,0
pair 3 - 15 15,0,0,0,0,0,0,0,0,0,0,0,0,0,0,0
lost 3400
aligned 4080 0123456789abcdef
pair 0 0 0 0,0,0,0,0,0,0,0,0,0,0,0,0,0,0,0
pair 1 0 0 0,0,0,0,0,0,0,0,0,0,0,0,0,0,0,0
pair 2 0 0 0,0,0,0,0,0,0,0,0,0,0,0,0,0,0,0
frame 3
pair 3 0 0 0,0,0,0,0,0,0,0,0,0,0,0,0,0,0,0
",
        frames: FRAME,
        number: 0,
    },
    Row {
        lead: 2,
        items: "order=0023456789abcdef",
        length: 5456,
        digest: "1c08b774ed140f6c8dc8e87e2dbcffa4dad6fcdd078d29efad27ca89439ed686",
        report: "failed lanes 0\nfailed lanes 0\n",
        frames: b"",
        number: 10,
    },
];

#[test]
fn rows_of_damage(rt: HostRuntime) -> Result<(), Fail> {
    let alloc = rt.alloc();
    for row in &ROWS {
        let capture = capture_of_a_frame(alloc, row.lead)?;
        let words = format!(in alloc; "impair {}", row.items)?;
        for piece in [1, 65536] {
            let ran = run_over(alloc, words.as_str(), &capture, piece)?;
            let damaged = ran.sink.held();
            assert_eq!(rt; ran.status.number(), 0);
            assert_eq!(rt; damaged.len(), row.length);
            assert_eq!(rt; digest_of(alloc, damaged)?.as_str(), row.digest);
            let report = run_over(alloc, "report", damaged, 1000)?;
            assert_eq!(rt; report.sink.held(), row.report.as_bytes());
            assert_eq!(rt; report.status.number(), row.number);
            let frames = run_over(alloc, "decode", damaged, 1000)?;
            assert_eq!(rt; frames.sink.held(), row.frames);
            assert_eq!(rt; frames.status.number(), row.number);
        }
    }
    Ok(())
}

// Words that are refused, and the line on the notes.
const WORDS: [(&'static str, &'static [u8]); 7] = [
    ("impair", b"pcs: usage\n"),
    ("impair flip=16:0", b"pcs: item 1: range\n"),
    ("impair flip=0:0 flap=1:0", b"pcs: item 2: name\n"),
    ("impair flip=1", b"pcs: item 1: shape\n"),
    ("impair noise=1:2 noise=1:2", b"pcs: item 2: repeated\n"),
    (
        "impair skew=3:4 skew=4:4 skew=3:0",
        b"pcs: item 3: repeated\n",
    ),
    (
        "impair order=0123456789abcdef flip=0:0 order=0123456789abcdef",
        b"pcs: item 3: repeated\n",
    ),
];

#[test]
fn words_are_refused(rt: HostRuntime) -> Result<(), Fail> {
    let alloc = rt.alloc();
    let capture = capture_of_a_frame(alloc, 2)?;
    for (words, note) in &WORDS {
        let ran = run_over(alloc, words, &capture, 65536)?;
        assert_eq!(rt; ran.status.number(), 2);
        assert_eq!(rt; ran.sink.held(), b"".as_slice());
        assert_eq!(rt; ran.notes.held(), *note);
    }
    let many = format!(in alloc; "impair{}", " flip=0:0".repeat(alloc, 65)?)?;
    let ran = run_over(alloc, many.as_str(), &capture, 65536)?;
    assert_eq!(rt; ran.status.number(), 2);
    assert_eq!(rt; ran.notes.held(), b"pcs: more than 64 items\n".as_slice());
    Ok(())
}

// The capture that stands in the source, cut behind so many octets, the read that fails and the room
// of the sink; and then how many octets are written, their SHA-256 and the number of the status.
#[derive(Drop)]
struct Broken {
    items: &'static str,
    given: usize,
    failing_reads: &'static [u64],
    room: usize,
    length: usize,
    digest: &'static str,
    number: u8,
}

const BROKEN: [Broken; 4] = [
    // Two beats of the 127 aren't ready, since a lane lost sixteen bits.
    Broken {
        items: "drop=3:100:16",
        given: 5456,
        failing_reads: &[3],
        room: 65536,
        length: 2016,
        digest: "6b466a378aa4a8ecc13694253c6ef76f43ff808af45832210ed476314eadabee",
        number: 3,
    },
    // The whole beats are finished.
    Broken {
        items: "skew=0:339",
        given: 5451,
        failing_reads: &[],
        room: 65536,
        length: 6128,
        digest: "ab8cb248a5a703acbcd5492d564c43600e3ffb5f7d341888e9f5b328c6836ec1",
        number: 9,
    },
    // There are no beats, but ninety bits before each lane.
    Broken {
        items: "\
            skew=0:90 skew=1:90 skew=2:90 skew=3:90 skew=4:90 skew=5:90 skew=6:90 skew=7:90 \
            skew=8:90 skew=9:90 skew=10:90 skew=11:90 skew=12:90 skew=13:90 skew=14:90 skew=15:90",
        given: 16,
        failing_reads: &[],
        room: 65536,
        length: 208,
        digest: "db7765c460dc316a4634395645cbe4182772d9f893de9c9875068ade85d0982a",
        number: 0,
    },
    Broken {
        items: "skew=0:339",
        given: 5456,
        failing_reads: &[],
        room: 1000,
        length: 1000,
        digest: "b2e11325b0685575eb38b8fd7c0f145519d74ad5f2ba79cd84e241df3fa53ddf",
        number: 4,
    },
];

#[test]
fn faults_end_the_damage(rt: HostRuntime) -> Result<(), Fail> {
    let alloc = rt.alloc();
    for row in &BROKEN {
        let mut capture = capture_of_a_frame(alloc, 2)?;
        capture.truncate(row.given);
        let source = MemSource::new(capture, 1024, row.failing_reads.to_vec(alloc)?);
        let sink = MemSink::new(alloc, row.room, 7, Vec::new(alloc))?;
        let notes = MemSink::new(alloc, 64, 7, Vec::new(alloc))?;
        let words = format!(in alloc; "impair {}", row.items)?;
        let ran = run_on(alloc, words.as_str(), source, sink, notes)?;
        let written = ran.sink.held();
        assert_eq!(rt; ran.status.number(), row.number);
        assert_eq!(rt; written.len(), row.length);
        assert_eq!(rt; digest_of(alloc, written)?.as_str(), row.digest);
    }
    Ok(())
}
