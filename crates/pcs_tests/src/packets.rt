// Packet captures in and out.
use memory_runs::{input_of, run_on, run_over};
use pcs_io::{MemSink, MemSource};
use std::test::Fail;

// Headers, with their low octet first, with their high octet first, and with the link type 101.
const LITTLE: &'static str = "d4c3b2a1020004000000000000000000ffff000001000000";

const BIG: &'static str = "a1b23c4d0002000400000000000000000000ffff00000001";

const OTHER: &'static str = "d4c3b2a1020004000000000000000000ffff000065000000";

// Fronts of records: of three octets, of a frame of sixty of which three are recorded, of two octets
// with the high octet first, and of 16,385 octets.
const THREE: &'static str = "00000000000000000300000003000000";

const SIXTY: &'static str = "0000000000000000030000003c000000";

const TWO: &'static str = "00000000000000000000000200000002";

const LONG: &'static str = "00000000000000000140000002400000";

// Words, a file in hexadecimal digits, and the line that is written of it.
const READ: [(&'static str, &'static [&'static str], &'static str); 3] = [
    ("pcap", &[LITTLE, THREE, "010203"], "2 010203\n"),
    ("pcap --gap 0", &[BIG, TWO, "aabb"], "0 aabb\n"),
    ("pcap --short", &[LITTLE, SIXTY, "010203"], "2 010203\n"),
];

// Words, a file of which nothing is written, its status, and its line on the notes.
const REFUSED: [(&'static str, &'static [&'static str], u8, &'static str); 6] = [
    ("pcap", &[LITTLE, SIXTY, "010203"], 13, "record 1: cut"),
    ("pcap", &[LITTLE, THREE, "0102"], 13, "record 1: ended"),
    ("pcap --short", &[LITTLE, LONG], 13, "record 1: long"),
    ("pcap", &["d4c3b2a102"], 7, "header ends after 5 octets"),
    ("pcap", &[OTHER, THREE], 7, "header wrong at octet 20"),
    ("pcap --gap 1000001", &[LITTLE], 2, "usage"),
];

#[test]
fn reads_pcap_files(rt: HostRuntime) -> Result<(), Fail> {
    let alloc = rt.alloc();
    for (command, file, text) in &READ {
        let file = hex::decode(alloc, file.concat(alloc)?)?;
        let ran = run_over(alloc, command, &file, 7)?;
        assert_eq!(rt; ran.sink.held(), text.as_bytes());
        assert_eq!(rt; ran.status.number(), 0);
    }
    for (command, file, number, note) in &REFUSED {
        let file = hex::decode(alloc, file.concat(alloc)?)?;
        let ran = run_over(alloc, command, &file, 7)?;
        let line = input_of(alloc, &[("pcs: ", 1), (note, 1), ("\n", 1)])?;
        assert!(rt; ran.sink.held().is_empty());
        assert_eq!(rt; ran.notes.held(), line.as_bytes());
        assert_eq!(rt; ran.status.number(), *number);
    }
    Ok(())
}

// Frame text, how many octets of the file of the frame 010203 are written of it, and its note.
const WRITTEN: [(&'static str, usize, &'static str); 5] = [
    ("010203\n", 43, ""),
    ("", 24, ""),
    ("010203\n010\n", 43, "pcs: line 2: odd hex\n"),
    ("010203\r\n", 24, "pcs: line 1: bad hex\n"),
    ("010203\n@000001\n", 43, "pcs: line 2: bad hex\n"),
];

#[test]
fn writes_pcap_files(rt: HostRuntime) -> Result<(), Fail> {
    let alloc = rt.alloc();
    let file = hex::decode(alloc, [LITTLE, THREE, "010203"].concat(alloc)?)?;
    for (text, length, note) in &WRITTEN {
        let ran = run_over(alloc, "pcap --write", text.as_bytes(), 7)?;
        assert!(rt; file.starts_with(ran.sink.held()));
        assert_eq!(rt; ran.sink.held().len(), *length);
        assert_eq!(rt; ran.notes.held(), note.as_bytes());
    }
    // The header is written before a read, also one that fails.
    let source = MemSource::new(Vec::new(alloc), 7, vec![in alloc; 1]?);
    let sink = MemSink::new(alloc, 100, 7, Vec::new(alloc))?;
    let notes = MemSink::new(alloc, 64, 7, Vec::new(alloc))?;
    let ran = run_on(alloc, "pcap --write", source, sink, notes)?;
    assert!(rt; file.starts_with(ran.sink.held()));
    assert_eq!(rt; ran.sink.held().len(), 24);
    assert_eq!(rt; ran.status.number(), 3);
    Ok(())
}
