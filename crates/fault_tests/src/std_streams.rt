// The adapters over a reader and a writer of which a call fails.
use memory_runs::words_of;
use pcs_io::{Failed, MemSink, MemSource, Sink, Source, StdSink, StdSource};
use pcs_top::{Status, run};
use std::alloc::{AllocError, Global};
use std::io::{Error, ErrorKind, Read, Result as IoResult, Write};
use std::test::Fail;

const LINES: &'static [u8] = b"1 010203\n1 040506\n1 070809\n";

// A reader that gives a line of nine octets a call, and at one of its calls fails.
#[derive(Drop)]
struct Reader {
    left: &'static [u8],
    calls: usize,
    failing: usize,
    kind: ErrorKind,
}

impl Read for Reader {
    fn read(&mut self, into: &mut [u8]) -> IoResult<usize> {
        self.calls = self.calls.saturating_add(1);
        if self.calls == self.failing {
            return Err(Error::from(self.kind));
        }
        let count = into.len().min(9);
        self.left.read(&mut into[..count])
    }
}

fn failing_reader(failing: usize, kind: ErrorKind) -> Reader {
    Reader {
        left: LINES,
        calls: 0,
        failing,
        kind,
    }
}

// A read that fails is followed by more, and the end by no further call.
#[test]
fn a_read_fails(rt: HostRuntime) -> Result<(), Fail> {
    for kind in [ErrorKind::Interrupted, ErrorKind::Other] {
        let mut reader = failing_reader(2, kind);
        let mut source = StdSource::new(&mut reader);
        let mut octets = [0; 100];
        for count in [Ok(9), Err(Failed), Ok(9), Ok(9), Ok(0), Ok(0), Ok(0)] {
            assert_eq!(rt; source.read(&mut octets), count);
        }
        drop(source);
        assert_eq!(rt; reader.calls, 5);
    }
    Ok(())
}

#[test]
fn a_read_fails_in_a_run(rt: HostRuntime) -> Result<(), Fail> {
    let alloc = rt.alloc();
    for kind in [ErrorKind::Interrupted, ErrorKind::Other] {
        let mut reader = failing_reader(2, kind);
        let mut source = StdSource::new(&mut reader);
        let mut sink = MemSink::new(alloc, 1000, 100, Vec::new(alloc))?;
        let mut notes = MemSink::new(alloc, 64, 64, Vec::new(alloc))?;
        let words = words_of(alloc, "blocks")?;
        let status = run(
            alloc,
            words,
            &mut source,
            &mut sink,
            &mut notes,
            Vec::new(alloc),
        );
        drop(source);
        assert_eq!(rt; status, Status::ReadFault);
        assert_eq!(rt; reader.calls, 2);
        assert_eq!(rt; sink.held().len(), 60);
        assert_eq!(rt; notes.held(), b"pcs: read fault\n".as_slice());
    }
    Ok(())
}

// A writer that takes at most forty octets a call. One of its calls takes none, one of its flushes fails.
#[derive(Drop)]
struct Writer {
    taken: usize,
    calls: usize,
    flushes: usize,
    idle_call: usize,
    failing_flush: usize,
}

impl Write for Writer {
    fn write(&mut self, from: &[u8]) -> IoResult<usize> {
        self.calls = self.calls.saturating_add(1);
        if self.calls == self.idle_call {
            return Ok(0);
        }
        let count = from.len().min(40);
        self.taken = self.taken.saturating_add(count);
        Ok(count)
    }

    fn flush(&mut self) -> IoResult<()> {
        self.flushes = self.flushes.saturating_add(1);
        if self.flushes == self.failing_flush {
            return Err(Error::from(ErrorKind::Other));
        }
        Ok(())
    }
}

// The call that takes nothing, the flush that fails, the status, and how many octets were taken by how
// many calls and flushes.
const WRITES: [(usize, usize, Status, usize, usize, usize); 3] = [
    (0, 0, Status::Done, 180, 5, 5),
    (3, 0, Status::WriteFault, 80, 3, 2),
    (0, 3, Status::WriteFault, 120, 3, 3),
];

#[test]
fn a_write_or_a_flush_fails(rt: HostRuntime) -> Result<(), Fail> {
    let alloc = rt.alloc();
    for (idle_call, failing_flush, status, taken, calls, flushes) in &WRITES {
        let mut writer = Writer {
            taken: 0,
            calls: 0,
            flushes: 0,
            idle_call: *idle_call,
            failing_flush: *failing_flush,
        };
        let mut sink = StdSink::new(&mut writer);
        let mut source = MemSource::new(LINES.to_vec(alloc)?, 100, Vec::new(alloc));
        let mut notes = MemSink::new(alloc, 64, 64, Vec::new(alloc))?;
        let words = words_of(alloc, "blocks")?;
        let ended = run(
            alloc,
            words,
            &mut source,
            &mut sink,
            &mut notes,
            Vec::new(alloc),
        );
        drop(sink);
        assert_eq!(rt; ended, *status);
        assert_eq!(rt; writer.taken, *taken);
        assert_eq!(rt; writer.calls, *calls);
        assert_eq!(rt; writer.flushes, *flushes);
    }
    Ok(())
}
