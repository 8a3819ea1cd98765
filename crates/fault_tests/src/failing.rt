// Each read and each write of each command fails in turn.
use crate::commands::{ROWS, Row, octets_of, reads_of, run_failing, text_of};
use pcs_io::{MemSource, Source};
use pcs_top::Status;
use std::alloc::{AllocError, Global};
use std::test::Fail;

const AMPLE: usize = 65536;

// Whether each read that fails leaves the text of what was read before it, until a run is done since
// there is no such read. The last one is that at the end of the input.
fn reads_leave_text(alloc: Global, row: &Row, input: &[u8]) -> Result<bool, AllocError> {
    let mut taken = 0;
    for call in 1..1000usize {
        let ran = run_failing(alloc, row, input, AMPLE, &[call as u64], &[])?;
        if ran.status == Status::Done {
            return Ok(call - 1 == reads_of(input, row.2));
        }
        let front = input.get(..taken).unwrap_or(input);
        let text = text_of(alloc, row, front)?;
        if ran.status != Status::ReadFault || ran.sink.held() != text.as_slice() {
            return Ok(false);
        }
        taken = front.len().saturating_add(row.2);
    }
    Ok(false)
}

// Whether each write that fails leaves a front of the text, longer each time, until a run is done.
fn writes_leave_fronts(alloc: Global, row: &Row, input: &[u8]) -> Result<bool, AllocError> {
    let ran = run_failing(alloc, row, input, AMPLE, &[], &[])?;
    let whole = ran.sink.held();
    let mut least = 0;
    for call in 1..1000usize {
        let ran = run_failing(alloc, row, input, AMPLE, &[], &[call as u64])?;
        let held = ran.sink.held();
        if ran.status == Status::Done {
            return Ok(held == whole && whole.len() / row.3.max(1) < call);
        }
        if ran.status != Status::WriteFault || held.len() < least || !whole.starts_with(held) {
            return Ok(false);
        }
        least = held.len().saturating_add(1);
    }
    Ok(false)
}

#[test]
fn reads_fail(rt: HostRuntime) -> Result<(), Fail> {
    let alloc = rt.alloc();
    for row in &ROWS {
        let input = octets_of(alloc, row.1)?;
        assert!(rt; reads_leave_text(alloc, row, &input)?, "{}", row.0);
    }
    Ok(())
}

#[test]
fn writes_fail(rt: HostRuntime) -> Result<(), Fail> {
    let alloc = rt.alloc();
    for row in &ROWS {
        let input = octets_of(alloc, row.1)?;
        assert!(rt; writes_leave_fronts(alloc, row, &input)?, "{}", row.0);
    }
    Ok(())
}

// The first octets that have text, by whole reads.
fn octets_with_text(alloc: Global, row: &Row, input: &[u8]) -> Result<usize, AllocError> {
    let mut taken = 0;
    for _ in 0..1000u64 {
        let front = input.get(..taken).unwrap_or(input);
        if front.len() == input.len() || !text_of(alloc, row, front)?.is_empty() {
            return Ok(front.len());
        }
        taken = taken.saturating_add(row.2);
    }
    Ok(taken)
}

// How many octets a source has left.
fn octets_left(source: &mut MemSource) -> usize {
    let (mut octets, mut count) = ([0; 1024], 0usize);
    for _ in 0..1000u32 {
        count = count.saturating_add(source.read(&mut octets).unwrap_or(0));
    }
    count
}

// Where the sink has no room, the source still has all behind the first text; `encode` hasn't read at all.
#[test]
fn text_comes_before_the_next_read(rt: HostRuntime) -> Result<(), Fail> {
    let alloc = rt.alloc();
    for row in &ROWS {
        let input = octets_of(alloc, row.1)?;
        let taken = octets_with_text(alloc, row, &input)?;
        let mut ran = run_failing(alloc, row, &input, 0, &[], &[])?;
        let left = octets_left(&mut ran.source);
        assert_eq!(rt; ran.status, Status::WriteFault, "{}", row.0);
        assert_eq!(rt; left, input.len().saturating_sub(taken), "{}", row.0);
    }
    Ok(())
}
