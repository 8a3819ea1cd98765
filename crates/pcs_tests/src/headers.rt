// Headers of captures, each field wrong.
use block66::{Block, decode};
use mac_columns::Column;
use memory_runs::{capture_of_a_frame, run_over};
use pcs_drive::open_capture;
use pcs_io::{BadHeader, MemSink, MemSource};
use pcs_receive::{Receiver, Want};
use pcs_top::{Status, decode_opened};
use std::alloc::{AllocError, Global};
use std::test::Fail;

const VERSION_1: &'static [u8; 16] = b"P4LC\x01\x10\0\x01\0\0\0\0\0\0\0\0";

const VERSION_2: &'static [u8; 32] =
    b"P4LC\x02\x10\0\0\0\0\0\x01\0\0\x01\x53\0\0\0\0\0\0\0\0\0\0\0\0\0\0\0\0";

// An octet of a header that is replaced, by what, and the place of the field that is told.
type Wrong = (usize, u8, u8);

// The magic of a file of levels, another version, another number of lanes, the periods 0 and 4097, and
// reserved octets.
const WRONG_1: [Wrong; 8] = [
    (0, b'Q', 0),
    (3, b'V', 0),
    (4, 3, 4),
    (5, 8, 5),
    (7, 0, 6),
    (6, 0x10, 6),
    (8, 1, 8),
    (15, 1, 8),
];

// The same, with the periods 0 and 65,537, and a skew field one above the greatest.
const WRONG_2: [Wrong; 9] = [
    (5, 8, 5),
    (6, 1, 6),
    (7, 1, 6),
    (11, 0, 8),
    (9, 1, 8),
    (15, 0x54, 12),
    (12, 1, 12),
    (16, 1, 16),
    (31, 0x80, 16),
];

// Whether the input is refused there, with nothing written.
fn is_refused(alloc: Global, input: &[u8], place: u8) -> Result<bool, AllocError> {
    let ran = run_over(alloc, "decode", input, 5)?;
    let status = Status::BadHeader(BadHeader { place, cut: false });
    Ok(ran.status == status && ran.sink.held().is_empty())
}

#[test]
fn fields_are_wrong(rt: HostRuntime) -> Result<(), Fail> {
    let alloc = rt.alloc();
    for (at, octet, place) in &WRONG_1 {
        let mut header = *VERSION_1;
        if let Some(field) = header.get_mut(*at) {
            *field = *octet;
        }
        assert!(rt; is_refused(alloc, &header, *place)?);
    }
    for (at, octet, place) in &WRONG_2 {
        let mut header = *VERSION_2;
        if let Some(field) = header.get_mut(*at) {
            *field = *octet;
        }
        assert!(rt; is_refused(alloc, &header, *place)?);
    }
    Ok(())
}

// A reader and a receiver that were opened, and no memory taken behind them.
#[test]
fn a_capture_is_decoded_opened(rt: HostRuntime) -> Result<(), Fail> {
    let alloc = rt.alloc();
    let mut source = MemSource::new(capture_of_a_frame(alloc, 2)?, 1024, Vec::new(alloc));
    let mut sink = MemSink::new(alloc, 64, 7, Vec::new(alloc))?;
    let mut receiver = Receiver::open(alloc, 1, 339, Want::Frames)?;
    match open_capture(alloc, &mut source) {
        Ok((mut beats, _)) => {
            let status = decode_opened(&mut beats, &mut receiver, &mut source, &mut sink);
            assert!(rt; status == Status::Done);
        }
        Err(_) => assert!(rt; false),
    }
    assert_eq!(rt; sink.held(), b"010203\n".as_slice());
    Ok(())
}

// A set with a bit set behind its octets is no set.
#[test]
fn a_set_has_zeros_behind_it(rt: HostRuntime) -> Result<(), Fail> {
    let block = Block {
        control: true,
        payload: u64::from_le_bytes([0x4b, 1, 2, 3, 0x0f, 0, 0, 0]),
    };
    assert!(rt; decode(&block) == Column::Error);
    Ok(())
}
