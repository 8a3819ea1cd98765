// Trials and their summaries, which are those of another program, written apart from this one.
use memory_runs::run_over;
use std::test::Fail;

// A trial of no frame, and of one.
const ROWS: [(&'static str, &'static [u8]); 2] = [
    (
        "trial 7 0",
        b"frames 0\noctets 0\ncolumns 0\npairs 12\ncorrected 120\nback 0\nequal yes\n",
    ),
    (
        "trial 0 1",
        b"frames 1\noctets 495\ncolumns 82\npairs 13\ncorrected 150\nback 1\nequal yes\n",
    ),
];

#[test]
fn trials_come_back(rt: HostRuntime) -> Result<(), Fail> {
    let alloc = rt.alloc();
    for (words, text) in &ROWS {
        let ran = run_over(alloc, words, b"no line", 1000)?;
        assert_eq!(rt; ran.status.number(), 0);
        assert_eq!(rt; ran.sink.held(), *text);
        assert_eq!(rt; ran.notes.held(), b"".as_slice());
    }
    Ok(())
}
