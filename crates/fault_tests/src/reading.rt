// What is read: how much in one call, and nothing after a fault; and options that bring no want of memory.
ghost use Rattle.std.specs.Prelude.{None};

use crate::commands::{ROWS, octets_of, reads_of};
use memory_runs::{words_of, written};
use pcs_io::{
    BeatIn, Beats, CapFault, Failed, InFault, Lines, MemSink, MemSource, NullSink, Source,
};
use pcs_top::{Status, run};
use std::alloc::{AllocError, Global};
use std::test::Fail;

// A source that keeps the lengths of the slices that it was handed. What it has left it doesn't tell.
#[derive(Drop)]
struct Noting {
    source: MemSource,
    lengths: Vec<usize>,
}

impl Source for Noting {
    ghost faults = { λ s. s.source.faults };

    ghost ended = { λ s. s.source.ended };

    ghost told = { λ s. record { given = s.source.given; earlier = s.source.earlier; left = None } };

    fn read(&mut self, into: &mut [u8]) -> Result<usize, Failed> {
        let _ = self.lengths.push(into.len());
        self.source.read(into)
    }
}

// A source of pieces of 1000 octets.
fn noting_source(alloc: Global, octets: Vec<u8>) -> Noting {
    Noting {
        source: MemSource::new(octets, 1000, Vec::new(alloc)),
        lengths: Vec::new(alloc),
    }
}

// Each read is handed the whole buffer.
#[test]
fn whole_buffers_are_filled(rt: HostRuntime) -> Result<(), Fail> {
    let alloc = rt.alloc();
    for (command, input, _, _) in &ROWS {
        let octets = octets_of(alloc, *input)?;
        let reads = reads_of(&octets, 1000);
        let mut source = noting_source(alloc, octets);
        let words = words_of(alloc, command)?;
        let (mut sink, mut notes) = (NullSink::new(), NullSink::new());
        let status = run(
            alloc,
            words,
            &mut source,
            &mut sink,
            &mut notes,
            Vec::new(alloc),
        );
        assert_eq!(rt; status, Status::Done, "{command}");
        assert_eq!(rt; source.lengths.len(), reads, "{command}");
        assert!(rt;
            source.lengths.iter().all(|&length| length == 65536),
            "{command}"
        );
    }
    Ok(())
}

// What is written doesn't hang on what a source tells.
#[test]
fn a_source_that_tells_nothing(rt: HostRuntime) -> Result<(), Fail> {
    let alloc = rt.alloc();
    for (command, input, _, _) in &ROWS {
        let octets = octets_of(alloc, *input)?;
        let wanted = written(alloc, command, &octets)?;
        let mut source = noting_source(alloc, octets);
        let words = words_of(alloc, command)?;
        let mut sink = MemSink::new(alloc, 65536, 1000, Vec::new(alloc))?;
        let mut notes = NullSink::new();
        let watchers = Vec::new(alloc);
        let status = run(alloc, words, &mut source, &mut sink, &mut notes, watchers);
        assert_eq!(rt; status, Status::Done, "{command}");
        assert_eq!(rt; sink.held(), wanted.as_slice(), "{command}");
    }
    Ok(())
}

// Or what the limit leaves.
#[test]
fn the_limit_is_left(rt: HostRuntime) -> Result<(), Fail> {
    let alloc = rt.alloc();
    let mut source = noting_source(alloc, "0 \n".repeat(alloc, 500)?.into_bytes());
    let mut lines = Lines::open(alloc, 1234)?;
    for _ in 0..500u32 {
        let _ = lines.next(&mut source);
    }
    assert_eq!(rt; lines.answered(), 411);
    assert_eq!(rt; source.lengths.as_slice(), [1234, 234].as_slice());
    Ok(())
}

// The next four octets of a source.
fn next_four(source: &mut MemSource) -> [u8; 4] {
    let mut octets = [0; 4];
    let _ = source.read(&mut octets);
    octets
}

// After a fault the readers answer it again, and leave the source alone.
#[test]
fn a_fault_stays(rt: HostRuntime) -> Result<(), Fail> {
    let alloc = rt.alloc();
    let mut fails = Vec::new(alloc);
    fails.push(2)?;
    let mut source = MemSource::new(b"1 0102030405\n".to_vec(alloc)?, 4, fails);
    let mut lines = Lines::open(alloc, 1 << 40)?;
    for _ in 0..3u32 {
        assert!(rt;
            lines
                .next(&mut source)
                .is_err_and(|fault| fault == InFault::Read)
        );
    }
    assert_eq!(rt; next_four(&mut source), *b"0203");
    Ok(())
}

#[test]
fn a_fault_of_beats_stays(rt: HostRuntime) -> Result<(), Fail> {
    let alloc = rt.alloc();
    let mut fails = Vec::new(alloc);
    fails.push(2)?;
    let octets = b"P4LC\x01\x10\0\x01\0\0\0\0\0\0\0\0a beat of octets and more".to_vec(alloc)?;
    let mut source = MemSource::new(octets, 32, fails);
    let mut beats = Beats::open(alloc, 1 << 40)?;
    let header = beats.header(&mut source);
    assert!(rt; header.is_ok());
    if header.is_ok() {
        assert_eq!(rt;
            beats.next(&mut source),
            Ok(BeatIn::Beat(*b"a beat of octets"))
        );
        assert_eq!(rt; beats.next(&mut source), Err(CapFault::Read));
        assert_eq!(rt; beats.next(&mut source), Err(CapFault::Read));
    }
    assert_eq!(rt; next_four(&mut source), *b" and");
    Ok(())
}

// Periods, and the leads and tails that are tried with each. Many long periods take too long here;
// bench/hostile.sh has them.
const SPANS: [(u32, &'static [u32]); 4] = [
    (1, &[0, 1, 64]),
    (3, &[0, 1, 64]),
    (4095, &[0]),
    (4096, &[0]),
];

// Whether `encode` of a frame is done, into a sink that takes everything.
fn encodes(alloc: Global, period: u32, lead: u32, tail: u32) -> Result<bool, AllocError> {
    let command = format!(in alloc; "encode --period {period} --lead {lead} --tail {tail}")?;
    let words = words_of(alloc, command.as_str())?;
    let mut source = MemSource::new(b"1 010203\n".to_vec(alloc)?, 1000, Vec::new(alloc));
    let (mut sink, mut notes) = (NullSink::new(), NullSink::new());
    let status = run(
        alloc,
        words,
        &mut source,
        &mut sink,
        &mut notes,
        Vec::new(alloc),
    );
    Ok(status == Status::Done)
}

// Where there is ample memory, no options bring want of it.
#[test]
fn options_take_no_memory(rt: HostRuntime) -> Result<(), Fail> {
    let alloc = rt.alloc();
    for (period, spans) in &SPANS {
        for span in *spans {
            assert!(rt; encodes(alloc, *period, *span, 0)?, "{period} {span}");
            assert!(rt; encodes(alloc, *period, 0, *span)?, "{period} {span}");
        }
    }
    assert!(rt; encodes(alloc, 3, 64, 64)?);
    assert!(rt; encodes(alloc, 4095, 1, 0)?);
    Ok(())
}
