//! Reads and writes that are interrupted, or of few bytes. No clause can say that these succeed.

use super::paced::{Pace, Sink, Source};
use crate::fault::ProgramFault;
use crate::program::{ROOM, answer_input};
use enumset_machine::worked::Worked;
use std::alloc::{AllocError, Global};
use std::str;
use std::test::Fail;

const INPUT: &[u8] = b"all 0\nlen 0";

/// What is written of the answer to the input at this pace, and how it ends.
fn answered(
    alloc: Global,
    pace: Pace,
    room: usize,
) -> Result<(Vec<u8>, Result<(), ProgramFault>), AllocError> {
    let mut sink = Sink {
        bytes: Vec::new(alloc),
        room,
        pace,
    };
    let source = Source { bytes: INPUT, pace };
    let space = Vec::with_capacity(alloc, ROOM)?;
    let ended = answer_input(alloc, Worked::Letters, space, source, &mut sink);
    Ok((sink.bytes, ended))
}

// A read or a write is tried until it answers, here more often than an input may have bytes.
#[test]
fn an_interrupted_call_is_tried_again(rt: HostRuntime) -> Result<(), Fail> {
    for (most, interruptions) in [(usize::MAX, 0), (1, 0), (1, 1), (2, 10), (1, 220_000)] {
        let (written, ended) = answered(rt.alloc(), Pace::new(most, interruptions), usize::MAX)?;
        assert_eq!(rt; str::from_utf8(&written), Ok("ok\n7\n"));
        ended?;
    }
    Ok(())
}

// A write that takes no byte is a fault, and not tried for ever.
#[test]
fn a_full_output_is_a_fault(rt: HostRuntime) -> Result<(), Fail> {
    for room in [0, 3, 4] {
        let (written, ended) = answered(rt.alloc(), Pace::new(2, 1), room)?;
        assert!(rt; written.len() == room && ended == Err(ProgramFault::Writing));
    }
    Ok(())
}
