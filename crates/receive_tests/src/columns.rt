// Captures to the block lines of their columns. The expected lines are those of another program,
// written apart from this one.
use memory_runs::{Burst, capture_of_a_frame, input_of, invert, run_over, skewed, written};
use std::test::Fail;

const ERROR: &'static str = "10 1e1e8fc7e3f1783c\n";

const IDLE: &'static str = "10 1e00000000000000\n";

const FRAME: &'static str = "10 78555555555555d5\n10 b401020300000000\n";

const THREE_PERIODS: &'static str = "encode --period 1 --lead 2 --tail 1";

// What `columns` is to write of the capture of an input, given as parts, each so many times, of which
// bits were inverted: block lines, each so many times.
#[derive(Drop)]
struct Row {
    sending: &'static str,
    parts: &'static [(&'static str, usize)],
    bursts: &'static [Burst],
    lines: &'static [(&'static str, usize)],
}

const ROWS: [Row; 6] = [
    Row {
        sending: THREE_PERIODS,
        parts: &[("1 010203\n", 1)],
        bursts: &[],
        lines: &[(ERROR, 4), (IDLE, 156), (FRAME, 1), (IDLE, 318)],
    },
    // An ordered set goes before the frame.
    Row {
        sending: THREE_PERIODS,
        parts: &[("1 @000001\n1 010203\n", 1)],
        bursts: &[],
        lines: &[
            (ERROR, 4),
            (IDLE, 156),
            ("10 4b00000100000000\n", 1),
            (FRAME, 1),
            (IDLE, 317),
        ],
    },
    // Fifteen symbols of A and of B are wrong, and then sixteen of A.
    Row {
        sending: THREE_PERIODS,
        parts: &[("1 010203\n", 1)],
        bursts: &[(0, 1500, 300)],
        lines: &[(ERROR, 4), (IDLE, 156), (FRAME, 1), (IDLE, 318)],
    },
    Row {
        sending: THREE_PERIODS,
        parts: &[("1 010203\n", 1)],
        bursts: &[(0, 1500, 310)],
        lines: &[(ERROR, 4), (IDLE, 156), (ERROR, 132), (IDLE, 188)],
    },
    // Three bad pairs in a row, and another alignment: what was owed before it is put back behind it,
    // so that these are 160 lines for each of eight pairs.
    Row {
        sending: "encode --period 1 --lead 8 --tail 1",
        parts: &[("1 010203\n", 1)],
        bursts: &[(0, 1500, 310), (0, 2180, 310), (0, 2860, 310)],
        lines: &[
            (ERROR, 4),
            (IDLE, 156),
            (ERROR, 388),
            (IDLE, 412),
            (FRAME, 1),
            (IDLE, 318),
        ],
    },
    // The frame fills the last pair, so 32 idles stay owed.
    Row {
        sending: "encode --period 1 --lead 2 --tail 0",
        parts: &[("0 ", 1), ("5a", 1008), ("\n", 1)],
        bursts: &[],
        lines: &[
            (ERROR, 4),
            (IDLE, 156),
            ("10 78555555555555d5\n", 1),
            ("01 5a5a5a5a5a5a5a5a\n", 126),
            ("10 8700000000000000\n", 1),
        ],
    },
];

// The rows by pieces of one octet and all at once.
#[test]
fn rows_of_columns(rt: HostRuntime) -> Result<(), Fail> {
    let alloc = rt.alloc();
    for row in &ROWS {
        let input = input_of(alloc, row.parts)?;
        let mut capture = written(alloc, row.sending, input.as_bytes())?;
        invert(&mut capture, row.bursts);
        let lines = input_of(alloc, row.lines)?;
        for piece in [1, 65536] {
            let ran = run_over(alloc, "columns", &capture, piece)?;
            assert_eq!(rt; ran.status.number(), 0);
            assert_eq!(rt; ran.sink.held(), lines.as_bytes());
        }
    }
    Ok(())
}

// A skew of six bits is past the capture's own limit, and past that of the command.
#[test]
fn columns_of_skewed_lanes(rt: HostRuntime) -> Result<(), Fail> {
    let alloc = rt.alloc();
    let late = skewed(alloc, &capture_of_a_frame(alloc, 2)?, 6)?;
    let limited = written(alloc, "migrate --skew 5", &late)?;
    for (command, capture, count, number) in [
        ("columns", late.as_slice(), 480, 0),
        ("columns --skew 5", late.as_slice(), 0, 10),
        ("columns", limited.as_slice(), 0, 10),
    ] {
        let ran = run_over(alloc, command, capture, 7)?;
        assert_eq!(rt; ran.status.number(), number);
        assert_eq!(rt; ran.sink.held().len() / 20, count);
    }
    Ok(())
}
