//! Worked examples of runs: commands over worked types, and the replies to them, worked out by hand; and inputs that
//! have no replies. `transcripts/` has more, on which the built program is run.

use crate::fault::ProgramFault;
use enumset_commands::TextFault;
use enumset_machine::worked::Worked;
use enumset_machine::worked_types::{serve_worked, worked};
use std::alloc::Global;
use std::process::Abort;
use std::str;
use std::test::Fail;

/// Runs commands over a type, and tests the reply to each.
fn expect_replies(
    rt: &impl Abort,
    alloc: Global,
    worked: Worked,
    lines: &[(&str, &str)],
) -> Result<(), Fail> {
    let (mut input, mut wanted) = (String::new(alloc), String::new(alloc));
    for (command, reply) in lines {
        writeln!(input, "{command}")?;
        writeln!(wanted, "{reply}")?;
    }
    expect_output(rt, alloc, worked, input.as_bytes(), wanted.as_str())
}

/// Serves an input over a type, and tests the output.
fn expect_output(
    rt: &impl Abort,
    alloc: Global,
    worked: Worked,
    input: &[u8],
    wanted: &str,
) -> Result<(), Fail> {
    let output = serve_worked(alloc, worked, input)?;
    assert!(rt; str::from_utf8(&output) == Ok(wanted), "over {worked:?}");
    Ok(())
}

/// Tests the fault of an input over letters.
fn expect_fault(rt: &impl Abort, alloc: Global, input: &[u8], wanted: TextFault) {
    let fault = serve_worked(alloc, Worked::Letters, input).err();
    assert!(rt; fault == Some(wanted), "{fault:?}, not {wanted:?}");
}

#[test]
fn of_letters(rt: HostRuntime) -> Result<(), Fail> {
    for lines in [
        [
            ("insert 0 0", "true"),
            ("insert 0 2", "true"),
            ("insert 0 6", "true"),
            ("len 0", "3"),
            ("insert 0 2", "false"),
            ("complement 1 0", "ok"),
            ("contains 1 0", "false"),
            ("contains 1 1", "true"),
            ("len 1", "4"),
            ("insert 0 7", "K2 not a bit"),
        ]
        .as_slice(),
        &[
            ("insert 4 0", "K1 no register"),
            ("insert 0 7", "K2 not a bit"),
            ("next 0", "none"),
            ("left 1", "0"),
        ],
        &[
            ("insert 0 1", "true"),
            ("iter 0 0", "ok"),
            ("insert 0 2", "true"),
            ("left 0", "1"),
            ("next 0", "bit 1"),
            ("next 0", "none"),
        ],
    ] {
        expect_replies(&rt, rt.alloc(), Worked::Letters, lines)?;
    }
    Ok(())
}

#[test]
fn numbers_of_letters(rt: HostRuntime) -> Result<(), Fail> {
    for lines in [
        [
            ("number 9 9", "K1 no register"),
            (
                "from_number 0 8 340282366920938463463374607431768211455",
                "K3 not a width",
            ),
            (
                "from_number 0 128 340282366920938463463374607431768211455",
                "none",
            ),
        ]
        .as_slice(),
        &[
            ("new 4", "K1 no register"),
            ("number 0 7", "K3 not a width"),
            ("from_number 0 8 256", "K3 not a width"),
            ("from_number 0 8 128", "none"),
            ("from_number_cut 0 8 255", "ok"),
            ("number 0 8", "127"),
            ("words 0 0", "none"),
            ("clear 0", "ok"),
            ("words 0 0", "words"),
            ("iter 2 0", "K1 no register"),
        ],
    ] {
        expect_replies(&rt, rt.alloc(), Worked::Letters, lines)?;
    }
    Ok(())
}

#[test]
fn of_wide(rt: HostRuntime) -> Result<(), Fail> {
    for lines in [
        [
            ("all 0", "ok"),
            ("iter 0 0", "ok"),
            ("left 0", "3"),
            ("next 0", "bit 3"),
            ("next_back 0", "bit 130"),
            ("left 0", "1"),
            ("next 0", "bit 64"),
            ("next_back 0", "none"),
            ("next 0", "none"),
            ("words 0 3", "words 8 1 4"),
            ("number 0 64", "none"),
            ("number_cut 0 64", "8"),
            ("words 0 2", "none"),
        ]
        .as_slice(),
        &[
            ("all 0", "ok"),
            ("iter 0 0", "ok"),
            ("iter 1 0", "ok"),
            ("next 0", "bit 3"),
            ("next_back 1", "bit 130"),
            ("next 1", "bit 3"),
            ("left 0", "2"),
            ("left 1", "1"),
            ("next_back 0", "bit 130"),
            ("next 1", "bit 64"),
        ],
    ] {
        expect_replies(&rt, rt.alloc(), Worked::Wide, lines)?;
    }
    Ok(())
}

#[test]
fn of_high(rt: HostRuntime) -> Result<(), Fail> {
    let lines = [
        ("all 0", "ok"),
        ("iter 0 0", "ok"),
        ("next 0", "bit 5"),
        ("next_back 0", "bit 7"),
        ("left 0", "1"),
        ("next 0", "bit 6"),
        ("next_back 0", "none"),
        ("next 0", "none"),
    ];
    expect_replies(&rt, rt.alloc(), Worked::High, &lines)
}

#[test]
fn of_mixed_marks(rt: HostRuntime) -> Result<(), Fail> {
    let lines = [
        ("from_number 0 8 9", "ok"),
        ("len 0", "2"),
        ("valid_len 0", "1"),
        ("unknown 0", "true"),
        ("as_enumset 1 0", "none"),
        ("full_complement 1 0", "ok"),
        ("number 1 8", "246"),
        ("iter 0 0", "ok"),
        ("next 0", "bit 0"),
        ("next 0", "unknown 3"),
        ("next 0", "none"),
        ("has_bit 0 256", "false"),
        ("insert_bit 0 8", "K2 not a bit"),
        ("remove_bit 0 256", "false"),
        ("truncate 2 0", "ok"),
        ("number 2 8", "1"),
    ];
    expect_replies(&rt, rt.alloc(), Worked::MixedMarks, &lines)
}

#[test]
fn of_mixed_nothing(rt: HostRuntime) -> Result<(), Fail> {
    let lines = [
        ("insert 0 0", "K2 not a bit"),
        ("insert_bit 0 7", "true"),
        ("len 0", "1"),
        ("valid_len 0", "0"),
        ("complement 1 0", "ok"),
        ("len 1", "0"),
        ("full_complement 1 0", "ok"),
        ("number 1 8", "127"),
        ("as_enumset 2 0", "none"),
    ];
    expect_replies(&rt, rt.alloc(), Worked::MixedNothing, &lines)
}

const STEPS_OF_A_PAIR: [(&str, &str); 5] = [
    ("all 0", "ok"),
    ("iter 0 0", "ok"),
    ("next_back 0", "bit 64"),
    ("left 0", "1"),
    ("words 0 2", "words 1 1"),
];

const ORDER_OF_A_PAIR: [(&str, &str); 5] = [
    ("only 0 0", "ok"),
    ("only 1 64", "ok"),
    ("compare 0 1", "less"),
    ("compare 1 0", "greater"),
    ("compare 0 0", "equal"),
];

// Two types with the same bits have the same replies.
#[test]
fn of_pairs(rt: HostRuntime) -> Result<(), Fail> {
    let alloc = rt.alloc();
    let mut both = Vec::from_slice(alloc, &STEPS_OF_A_PAIR)?;
    both.extend_from_slice(&ORDER_OF_A_PAIR)?;
    for worked in [Worked::PairWords, Worked::PairNumber] {
        expect_replies(&rt, alloc, worked, &STEPS_OF_A_PAIR)?;
        expect_replies(&rt, alloc, worked, &ORDER_OF_A_PAIR)?;
        expect_replies(&rt, alloc, worked, &both)?;
    }
    Ok(())
}

#[test]
fn of_mixed_pairs(rt: HostRuntime) -> Result<(), Fail> {
    let lines = [
        ("insert_bit 0 63", "true"),
        ("insert_bit 1 64", "true"),
        ("compare 0 1", "less"),
        ("unknown 0", "true"),
        ("unknown 1", "false"),
        ("full_complement 2 0", "ok"),
        ("len 2", "127"),
    ];
    for worked in [Worked::MixedPairWords, Worked::MixedPairNumber] {
        expect_replies(&rt, rt.alloc(), worked, &lines)?;
    }
    Ok(())
}

#[test]
fn fields_at_their_limits(rt: HostRuntime) -> Result<(), Fail> {
    let alloc = rt.alloc();
    let line = ("insert 0 4294967295", "K2 not a bit");
    expect_replies(&rt, alloc, Worked::Letters, &[line])?;
    for line in ["insert 0 4294967296", "insert 256 0", "words 0 256"] {
        expect_fault(&rt, alloc, line.as_bytes(), TextFault::BadLine(1));
    }
    Ok(())
}

#[test]
fn ends_of_lines(rt: HostRuntime) -> Result<(), Fail> {
    let alloc = rt.alloc();
    expect_output(&rt, alloc, Worked::Letters, b"len 0\r\n", "0\n")?;
    expect_fault(&rt, alloc, b"len 0\r", TextFault::BadLine(1));
    expect_fault(&rt, alloc, b"len 0\n\ninsert 0\n", TextFault::BadLine(3));
    expect_output(&rt, alloc, Worked::Letters, b"", "")
}

#[test]
fn long_inputs(rt: HostRuntime) -> Result<(), Fail> {
    let mut input = vec![in rt.alloc(); b'\n'; 1_048_576]?;
    expect_output(&rt, rt.alloc(), Worked::Letters, &input, "")?;
    input.push(b'\n')?;
    expect_fault(&rt, rt.alloc(), &input, TextFault::TooLong);
    Ok(())
}

#[test]
fn faults_of_the_program(rt: HostRuntime) -> Result<(), Fail> {
    for (fault, text, status) in [
        (
            ProgramFault::OneArgument,
            "one argument: the name of a type",
            2,
        ),
        (
            ProgramFault::Text(TextFault::BadLine(3)),
            "line 3: not a command",
            2,
        ),
        (
            ProgramFault::Text(TextFault::OutOfMemory),
            "out of memory",
            3,
        ),
        (ProgramFault::Writing, "writing failed", 1),
    ] {
        let written = format!(in rt.alloc(); "{fault}")?;
        assert!(rt;
            written.as_str() == text && fault.status() == status,
            "{text}"
        );
    }
    Ok(())
}

#[test]
fn names_of_types(rt: HostRuntime) {
    let found = [worked("letters"), worked("Letters"), worked("")];
    assert!(rt; found == [Some(Worked::Letters), None, None], "{found:?}");
}
