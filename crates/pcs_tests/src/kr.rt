// Symbol lines to codewords of RS(528,514).
use memory_runs::{input_of, run_over};
use std::alloc::{AllocError, Global};
use std::test::Fail;

// The parity of the message whose symbol at place 0 is 1: the code's generator without x^14.
const PARITY: &'static str = "3880062bd02029039d3842661872501093b11221b0\n";

// The product of x - alpha^j for j from 0 to 6, which no codeword is near.
const HALF: &'static str = "00107F0fd3Cc25F18E01c082\n";

// An input that is refused: so many zeros, and then this. The kind is as the note tells it.
#[derive(Drop)]
struct Refused {
    zeros: usize,
    tail: &'static str,
    note: &'static str,
}

const REFUSED: [Refused; 7] = [
    Refused {
        zeros: 0,
        tail: "400",
        note: "pcs: line 1: symbol\n",
    },
    Refused {
        zeros: 1539,
        tail: "4",
        note: "pcs: line 1: symbol\n",
    },
    Refused {
        zeros: 3,
        tail: "\n",
        note: "pcs: line 1: bad width\n",
    },
    Refused {
        zeros: 1584,
        tail: "g",
        note: "pcs: line 1: bad width\n",
    },
    Refused {
        zeros: 1583,
        tail: "g",
        note: "pcs: line 1: bad hex\n",
    },
    Refused {
        zeros: 1584,
        tail: "",
        note: "pcs: line 1: no end\n",
    },
    Refused {
        zeros: 1584,
        tail: "\n\n",
        note: "pcs: line 2: bad width\n",
    },
];

// Whether `kr` turns the parts, each so many times, into those others.
fn answers(
    alloc: Global,
    input: &[(&str, usize)],
    written: &[(&str, usize)],
) -> Result<bool, AllocError> {
    let ran = run_over(alloc, "kr", input_of(alloc, input)?.as_bytes(), 1000)?;
    let written = input_of(alloc, written)?;
    Ok(ran.status.number() == 0 && ran.sink.held() == written.as_bytes())
}

// The expected words are those of the standard's generator, and of zeros.
#[test]
fn codes_and_corrects(rt: HostRuntime) -> Result<(), Fail> {
    let alloc = rt.alloc();
    assert!(rt;
        answers(
            alloc,
            &[("000", 513), ("001\n", 1)],
            &[("000", 513), ("001", 1), (PARITY, 1)]
        )?
    );
    let sevens = [
        ("001", 3),
        ("000", 100),
        ("001", 1),
        ("000", 421),
        ("001", 3),
        ("\n", 1),
    ];
    assert!(rt; answers(alloc, &sevens, &[("7 ", 1), ("000", 528), ("\n", 1)])?);
    assert!(rt; answers(alloc, &[("000", 520), (HALF, 1)], &[("-\n", 1)])?);
    assert!(rt; answers(alloc, &[], &[])?);
    Ok(())
}

#[test]
fn refuses_other_lines(rt: HostRuntime) -> Result<(), Fail> {
    let alloc = rt.alloc();
    for row in &REFUSED {
        let input = input_of(alloc, &[("0", row.zeros), (row.tail, 1)])?;
        let ran = run_over(alloc, "kr", input.as_bytes(), 1000)?;
        assert_eq!(rt; ran.status.number(), 6);
        assert_eq!(rt; ran.notes.held(), row.note.as_bytes());
    }
    Ok(())
}
