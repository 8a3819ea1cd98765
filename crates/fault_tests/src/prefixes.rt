// The first octets of a capture and of a file of levels, as far as two beats, into each command that
// reads them.
use memory_runs::{Ran, run_over, written};
use pcs_io::BadHeader;
use pcs_top::Status;
use std::test::Fail;

// A command, how it ends behind whole beats that are too few to align lanes, and how long the header
// is that it writes for a header of 16 and one of 32 octets. Where it isn't done it writes nothing.
const ON_CAPTURES: [(&'static str, Status, usize, usize); 6] = [
    ("decode", Status::NotAligned, 0, 0),
    ("report", Status::NotAligned, 0, 0),
    ("columns", Status::NotAligned, 0, 0),
    ("impair order=0123456789abcdef", Status::Done, 16, 32),
    ("migrate", Status::Done, 32, 32),
    ("mux", Status::Done, 32, 32),
];

// Whether a run over `count` octets, of which the header has so many, ends as it is to: the header is
// cut, or octets are over, or it ends so.
fn ends_so(ran: &Ran, count: usize, header: usize, end: Status, header_out: usize) -> bool {
    let length = ran.sink.held().len();
    if count < header {
        let place = count.min(255) as u8;
        let bad = BadHeader { place, cut: true };
        return ran.status == Status::BadHeader(bad) && length == 0;
    }
    let rest = ((count - header) % 16) as u8;
    let beats = (count - header).saturating_sub(usize::from(rest));
    let status = if rest > 0 { Status::Cut { rest } } else { end };
    let whole = if header_out > 0 {
        header_out.saturating_add(beats)
    } else {
        0
    };
    ran.status == status && length == whole
}

#[test]
fn prefixes_of_captures(rt: HostRuntime) -> Result<(), Fail> {
    let alloc = rt.alloc();
    let short = written(alloc, "encode --period 1 --lead 1 --tail 0", b"")?;
    let long = written(alloc, "encode --form 2 --period 1 --lead 1 --tail 0", b"")?;
    for (command, end, short_out, long_out) in &ON_CAPTURES {
        for count in 0..49usize {
            let ran = run_over(alloc, command, short.get(..count).unwrap_or(&[]), 7)?;
            assert!(rt;
                ends_so(&ran, count, 16, *end, *short_out),
                "{command}, {count}"
            );
            let ran = run_over(alloc, command, long.get(..count).unwrap_or(&[]), 7)?;
            assert!(rt;
                ends_so(&ran, count, 32, *end, *long_out),
                "{command}, {count}"
            );
        }
    }
    Ok(())
}

#[test]
fn prefixes_of_levels(rt: HostRuntime) -> Result<(), Fail> {
    let alloc = rt.alloc();
    let capture = written(alloc, "encode --period 1 --lead 1 --tail 0", b"")?;
    let levels = written(alloc, "mux", &capture)?;
    for count in 0..65usize {
        let ran = run_over(alloc, "demux", levels.get(..count).unwrap_or(&[]), 7)?;
        assert!(rt; ends_so(&ran, count, 32, Status::Done, 32), "{count}");
    }
    Ok(())
}
