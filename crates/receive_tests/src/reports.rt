// Captures to reports. The expected lines are those of another program, written apart from this one.
ghost use Rattle.std.specs.Prelude.{◌≤◌};

use memory_runs::{
    Burst, Ran, capture_of_a_frame, invert, run_over, run_watched, run_with, skewed, turned_round,
    written,
};
use pcs_io::{MemSink, MemSource};
use pcs_watch::{Clean, Totals, Until, Watcher};
use std::alloc::{AllocError, Global};
use std::test::Fail;

const GOOD: &'static str = "\
aligned 680 0123456789abcdef
pair 0 0 0 0,0,0,0,0,0,0,0,0,0,0,0,0,0,0,0
pair 1 0 0 0,0,0,0,0,0,0,0,0,0,0,0,0,0,0,0
frame 3
pair 2 0 0 0,0,0,0,0,0,0,0,0,0,0,0,0,0,0,0
";

const CUT: &'static str = "\
aligned 680 0123456789abcdef
pair 0 0 0 0,0,0,0,0,0,0,0,0,0,0,0,0,0,0,0
pair 1 0 0 0,0,0,0,0,0,0,0,0,0,0,0,0,0,0,0
frame 3
";

const TURNED: &'static str = "\
aligned 680 fedcba9876543210
pair 0 0 0 0,0,0,0,0,0,0,0,0,0,0,0,0,0,0,0
pair 1 15 15 0,0,0,0,0,0,0,0,0,0,0,0,0,30,0,0
frame 3
pair 2 0 0 0,0,0,0,0,0,0,0,0,0,0,0,0,0,0,0
tally totals 3 30 0
tally worst 15
tally lanes 0 0 0 0 0 0 0 0 0 0 0 0 0 30 0 0
tally clean 3
";

const BAD: &'static str = "\
aligned 680 0123456789abcdef
pair 0 0 0 0,0,0,0,0,0,0,0,0,0,0,0,0,0,0,0
pair 1 - - 0,0,0,0,0,0,0,0,0,0,0,0,0,0,0,0
pair 2 0 0 0,0,0,0,0,0,0,0,0,0,0,0,0,0,0,0
tally totals 3 0 2
";

#[test]
fn without_watchers(rt: HostRuntime) -> Result<(), Fail> {
    let alloc = rt.alloc();
    let capture = capture_of_a_frame(alloc, 2)?;
    let ran = run_over(alloc, "report", &capture, 7)?;
    assert_eq!(rt; ran.status.number(), 0);
    assert_eq!(rt; ran.sink.held(), GOOD.as_bytes());
    let cut = run_over(
        alloc,
        "report",
        &capture[..capture.len().saturating_sub(3)],
        7,
    )?;
    assert_eq!(rt; cut.status.number(), 9);
    assert_eq!(rt; cut.sink.held(), CUT.as_bytes());
    Ok(())
}

// The report of a capture, with these watchers, by reads of so many octets.
fn report_with(
    alloc: Global,
    capture: Vec<u8>,
    piece: usize,
    watchers: Vec<Box<dyn Watcher>>,
) -> Result<Ran, AllocError>
    requires { 1 ≤ piece }
{
    let source = MemSource::new(capture, piece, Vec::new(alloc));
    let sink = MemSink::new(alloc, 65536, 64, Vec::new(alloc))?;
    let notes = MemSink::new(alloc, 64, 7, Vec::new(alloc))?;
    run_with(alloc, "report", source, sink, notes, watchers)
}

// The report of a capture, with the four watchers.
fn report_of(alloc: Global, capture: Vec<u8>) -> Result<Ran, AllocError> {
    let source = MemSource::new(capture, 1024, Vec::new(alloc));
    let sink = MemSink::new(alloc, 65536, 64, Vec::new(alloc))?;
    let notes = MemSink::new(alloc, 64, 7, Vec::new(alloc))?;
    run_watched(alloc, "report", source, sink, notes)
}

#[test]
fn totals_twice(rt: HostRuntime) -> Result<(), Fail> {
    let alloc = rt.alloc();
    let mut watchers: Vec<Box<dyn Watcher>> = Vec::new(alloc);
    watchers.push(Box::new(alloc, Totals::new())?)?;
    watchers.push(Box::new(alloc, Totals::new())?)?;
    let ran = report_with(alloc, capture_of_a_frame(alloc, 2)?, 16, watchers)?;
    let mut expected = GOOD.as_bytes().to_vec(alloc)?;
    expected.extend_from_slice(b"tally totals 3 0 0\ntally totals 3 0 0\n")?;
    assert_eq!(rt; ran.status.number(), 0);
    assert_eq!(rt; ran.sink.held(), expected.as_slice());
    Ok(())
}

// One that leaves has no line.
#[test]
fn until_leaves(rt: HostRuntime) -> Result<(), Fail> {
    let alloc = rt.alloc();
    let mut watchers: Vec<Box<dyn Watcher>> = Vec::new(alloc);
    watchers.push(Box::new(alloc, Until::new(2))?)?;
    let ran = report_with(alloc, capture_of_a_frame(alloc, 2)?, 1024, watchers)?;
    assert_eq!(rt; ran.status.number(), 0);
    assert_eq!(rt; ran.sink.held(), GOOD.as_bytes());
    Ok(())
}

#[test]
fn until_and_clean(rt: HostRuntime) -> Result<(), Fail> {
    let alloc = rt.alloc();
    let mut watchers: Vec<Box<dyn Watcher>> = Vec::new(alloc);
    watchers.push(Box::new(alloc, Until::new(4))?)?;
    watchers.push(Box::new(alloc, Clean::new())?)?;
    let ran = report_with(alloc, capture_of_a_frame(alloc, 2)?, 1024, watchers)?;
    let mut expected = GOOD.as_bytes().to_vec(alloc)?;
    expected.extend_from_slice(b"tally until 1\ntally clean 3\n")?;
    assert_eq!(rt; ran.status.number(), 0);
    assert_eq!(rt; ran.sink.held(), expected.as_slice());
    Ok(())
}

// Thirty symbols of the capture's lane 2, whose number is 13.
#[test]
fn lanes_by_their_numbers(rt: HostRuntime) -> Result<(), Fail> {
    let alloc = rt.alloc();
    let mut damaged = turned_round(alloc, &capture_of_a_frame(alloc, 2)?)?;
    invert(&mut damaged, &[(2, 1500, 300)]);
    let ran = report_of(alloc, damaged)?;
    assert_eq!(rt; ran.status.number(), 0);
    assert_eq!(rt; ran.sink.held(), TURNED.as_bytes());
    Ok(())
}

// A pair without codewords has no frame, and `clean` leaves there.
#[test]
fn a_bad_pair(rt: HostRuntime) -> Result<(), Fail> {
    let alloc = rt.alloc();
    let mut watchers: Vec<Box<dyn Watcher>> = Vec::new(alloc);
    watchers.push(Box::new(alloc, Clean::new())?)?;
    watchers.push(Box::new(alloc, Totals::new())?)?;
    let mut damaged = capture_of_a_frame(alloc, 2)?;
    invert(&mut damaged, &[(0, 1500, 400)]);
    let ran = report_with(alloc, damaged, 1024, watchers)?;
    assert_eq!(rt; ran.status.number(), 0);
    assert_eq!(rt; ran.sink.held(), BAD.as_bytes());
    Ok(())
}

// A lane that slips by a bit: the pairs behind it are bad, and the lanes are found again, the slipped
// one at the group behind that which lies before the place of the loss.
const SLIPPED: &'static str = "\
aligned 680 0123456789abcdef
pair 0 0 0 0,0,0,0,0,0,0,0,0,0,0,0,0,0,0,0
pair 1 - - 0,0,0,0,0,0,0,0,0,0,0,0,0,0,0,0
pair 2 - - 0,0,0,0,0,0,0,0,0,0,0,0,0,0,0,0
pair 3 - - 0,0,0,0,0,0,0,0,0,0,0,0,0,0,0,0
lost 3400
aligned 4759 0123456789abcdef
pair 0 0 0 0,0,0,0,0,0,0,0,0,0,0,0,0,0,0,0
pair 1 0 0 0,0,0,0,0,0,0,0,0,0,0,0,0,0,0,0
frame 3
pair 2 0 0 0,0,0,0,0,0,0,0,0,0,0,0,0,0,0,0
tally totals 7 0 6
tally worst 0
tally lanes 0 0 0 0 0 0 0 0 0 0 0 0 0 0 0 0
";

#[test]
fn a_lane_slips(rt: HostRuntime) -> Result<(), Fail> {
    let alloc = rt.alloc();
    let sent = capture_of_a_frame(alloc, 8)?;
    let slipped = written(alloc, "impair drop=0:1500:1", &sent)?;
    let decoded = run_over(alloc, "decode", &slipped, 1000)?;
    assert_eq!(rt; decoded.status.number(), 0);
    assert_eq!(rt; decoded.sink.held(), b"010203\n".as_slice());
    let report = report_of(alloc, slipped)?;
    assert_eq!(rt; report.status.number(), 0);
    assert_eq!(rt; report.sink.held(), SLIPPED.as_bytes());
    Ok(())
}

// What `report` is to write with the four watchers of the capture of one frame, sent with so many
// periods before it, of which bits were inverted and lane 0 came so many bits late: the lines of
// events, those of the tallies, and the number of the status.
#[derive(Drop)]
struct Row {
    sending: &'static str,
    bursts: &'static [Burst],
    late: usize,
    events: &'static str,
    tallies: &'static str,
    number: u8,
}

const THREE_PERIODS: &'static str = "encode --period 1 --lead 2 --tail 1";

const FOUR_PERIODS: &'static str = "encode --period 1 --lead 3 --tail 1";

const NOTHING: &'static str = "\
tally totals 0 0 0
tally worst 0
tally lanes 0 0 0 0 0 0 0 0 0 0 0 0 0 0 0 0
tally clean 0
";

const CLEAN: &'static str = "\
tally totals 3 0 0
tally worst 0
tally lanes 0 0 0 0 0 0 0 0 0 0 0 0 0 0 0 0
tally clean 3
";

const ROWS: [Row; 7] = [
    // Fifteen symbols of A and of B are wrong, and then sixteen of A.
    Row {
        sending: THREE_PERIODS,
        bursts: &[(0, 1500, 300)],
        late: 0,
        events: "\
aligned 680 0123456789abcdef
pair 0 0 0 0,0,0,0,0,0,0,0,0,0,0,0,0,0,0,0
pair 1 15 15 30,0,0,0,0,0,0,0,0,0,0,0,0,0,0,0
frame 3
pair 2 0 0 0,0,0,0,0,0,0,0,0,0,0,0,0,0,0,0
",
        tallies: "\
tally totals 3 30 0
tally worst 15
tally lanes 30 0 0 0 0 0 0 0 0 0 0 0 0 0 0 0
tally clean 3
",
        number: 0,
    },
    Row {
        sending: THREE_PERIODS,
        bursts: &[(0, 1500, 310)],
        late: 0,
        events: "\
aligned 680 0123456789abcdef
pair 0 0 0 0,0,0,0,0,0,0,0,0,0,0,0,0,0,0,0
pair 1 - 15 15,0,0,0,0,0,0,0,0,0,0,0,0,0,0,0
pair 2 0 0 0,0,0,0,0,0,0,0,0,0,0,0,0,0,0,0
",
        tallies: "\
tally totals 3 15 1
tally worst 15
tally lanes 15 0 0 0 0 0 0 0 0 0 0 0 0 0 0 0
",
        number: 0,
    },
    // Three nibbles of a marker differ, and then four.
    Row {
        sending: FOUR_PERIODS,
        bursts: &[(0, 0, 1), (0, 4, 1), (0, 8, 1)],
        late: 0,
        events: "\
aligned 680 0123456789abcdef
pair 0 0 0 0,0,0,0,0,0,0,0,0,0,0,0,0,0,0,0
pair 1 0 0 0,0,0,0,0,0,0,0,0,0,0,0,0,0,0,0
pair 2 0 0 0,0,0,0,0,0,0,0,0,0,0,0,0,0,0,0
frame 3
pair 3 0 0 0,0,0,0,0,0,0,0,0,0,0,0,0,0,0,0
",
        tallies: "\
tally totals 4 0 0
tally worst 0
tally lanes 0 0 0 0 0 0 0 0 0 0 0 0 0 0 0 0
tally clean 4
",
        number: 0,
    },
    Row {
        sending: FOUR_PERIODS,
        bursts: &[(0, 0, 1), (0, 4, 1), (0, 8, 1), (0, 12, 1)],
        late: 0,
        events: "\
aligned 1360 0123456789abcdef
pair 0 0 0 0,0,0,0,0,0,0,0,0,0,0,0,0,0,0,0
pair 1 0 0 0,0,0,0,0,0,0,0,0,0,0,0,0,0,0,0
frame 3
pair 2 0 0 0,0,0,0,0,0,0,0,0,0,0,0,0,0,0,0
",
        tallies: CLEAN,
        number: 0,
    },
    // Three bad pairs in a row, and another alignment.
    Row {
        sending: "encode --period 1 --lead 8 --tail 1",
        bursts: &[(0, 1500, 310), (0, 2180, 310), (0, 2860, 310)],
        late: 0,
        events: "\
aligned 680 0123456789abcdef
pair 0 0 0 0,0,0,0,0,0,0,0,0,0,0,0,0,0,0,0
pair 1 - 15 15,0,0,0,0,0,0,0,0,0,0,0,0,0,0,0
pair 2 - 15 15,0,0,0,0,0,0,0,0,0,0,0,0,0,0,0
pair 3 - 15 15,0,0,0,0,0,0,0,0,0,0,0,0,0,0,0
lost 3400
aligned 4080 0123456789abcdef
pair 0 0 0 0,0,0,0,0,0,0,0,0,0,0,0,0,0,0,0
pair 1 0 0 0,0,0,0,0,0,0,0,0,0,0,0,0,0,0,0
pair 2 0 0 0,0,0,0,0,0,0,0,0,0,0,0,0,0,0,0
frame 3
pair 3 0 0 0,0,0,0,0,0,0,0,0,0,0,0,0,0,0,0
",
        tallies: "\
tally totals 8 45 3
tally worst 15
tally lanes 45 0 0 0 0 0 0 0 0 0 0 0 0 0 0 0
",
        number: 0,
    },
    // A skew just within a half period, and one past it.
    Row {
        sending: THREE_PERIODS,
        bursts: &[],
        late: 339,
        events: "\
aligned 1019 0123456789abcdef
pair 0 0 0 0,0,0,0,0,0,0,0,0,0,0,0,0,0,0,0
pair 1 0 0 0,0,0,0,0,0,0,0,0,0,0,0,0,0,0,0
frame 3
pair 2 0 0 0,0,0,0,0,0,0,0,0,0,0,0,0,0,0,0
",
        tallies: CLEAN,
        number: 0,
    },
    Row {
        sending: THREE_PERIODS,
        bursts: &[],
        late: 340,
        events: "failed skew 680 1020\nfailed skew 2040 2380\n",
        tallies: NOTHING,
        number: 10,
    },
];

#[test]
fn rows_of_reports(rt: HostRuntime) -> Result<(), Fail> {
    let alloc = rt.alloc();
    for row in &ROWS {
        let mut capture = written(alloc, row.sending, b"1 010203\n")?;
        if row.late > 0 {
            capture = skewed(alloc, &capture, row.late)?;
        }
        invert(&mut capture, row.bursts);
        let ran = report_of(alloc, capture)?;
        let mut expected = row.events.as_bytes().to_vec(alloc)?;
        expected.extend_from_slice(row.tallies.as_bytes())?;
        assert_eq!(rt; ran.status.number(), row.number);
        assert_eq!(rt; ran.sink.held(), expected.as_slice());
    }
    Ok(())
}

// A skew of six bits in a capture whose own limit is five.
#[test]
fn a_skew_past_the_capture_s_own_limit(rt: HostRuntime) -> Result<(), Fail> {
    let alloc = rt.alloc();
    let late = skewed(alloc, &capture_of_a_frame(alloc, 2)?, 6)?;
    let ran = report_of(alloc, written(alloc, "migrate --skew 5", &late)?)?;
    let mut expected = b"failed skew 680 686\nfailed skew 2040 2046\n".to_vec(alloc)?;
    expected.extend_from_slice(NOTHING.as_bytes())?;
    assert_eq!(rt; ran.status.number(), 10);
    assert_eq!(rt; ran.sink.held(), expected.as_slice());
    Ok(())
}
